//! Fields in groups of one number each, one after another: what is written of them, how long it is, and that each number is read of its own
//! group. All crates of messages stand on these laws.
#![tactic(auto)]

mod laws;

pub use laws::groups_are_read;
