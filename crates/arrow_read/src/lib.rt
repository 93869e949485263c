//! A reader of Arrow IPC streams (Arrow Columnar Format, "Serialization and Interprocess Communication (IPC)") with columns of five types.
#![tactic(auto)]

mod batch;
mod cells;
mod column;
mod fault;
mod field;
mod head;
mod laws;
mod message;
mod numbers;
mod pair;
mod part;
mod reader;
mod room;
mod rows;
mod schema;
#[cfg(test)]
mod tests;
mod text;
mod want;

pub use fault::ArrowFault;
pub use laws::{
    bad_tables_are_told, column_faults_are_first, faults_are_first, message_faults_are_first,
    streams_are_read, streams_hold_one, written_streams_are_read,
};
pub use reader::read_stream;
pub use want::Batches;
