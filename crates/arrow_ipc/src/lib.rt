//! Arrow IPC streams (Arrow Columnar Format, "Serialization and Interprocess Communication (IPC)") of rows with columns of five types.
#![tactic(auto)]

mod batch;
mod bitmap;
mod columns;
mod fit;
mod laws;
mod messages;
#[cfg(test)]
mod tests;
mod write;

pub use fit::can_be_written;
pub use laws::{written_streams_are_aligned, written_streams_hold};
pub use write::write_stream;
