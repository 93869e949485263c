//! What a server keeps of a stream of responses: their ids, the batches that rows are cut into, and the window of responses that can be
//! sent again.
#![tactic(auto)]

mod batches;
mod queue;
mod response_id;
mod retained;
#[cfg(test)]
mod tests;

pub use batches::{cut, rows_are_cut_in_one_way};
pub use response_id::{ResponseId, ids_differ};
pub use retained::{Missing, Retained, kept_is_least};
