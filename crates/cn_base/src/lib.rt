//! What every layer stands on: bytes, texts and lists that contracts see as lists, and the outside, whose calls fail only where a
//! count of faults rose.
#![tactic(auto)]

mod bytes;
mod copied;
mod memory;
mod memory_peers;
mod outside;
mod peers;
mod standard;
mod steady;
#[cfg(test)]
mod tests;
mod text;

pub use bytes::Bytes;
pub use copied::Copied;
pub use memory::{MemorySink, MemorySource};
pub use memory_peers::{CountIds, FixedClock, MemoryAcceptor, PauseList};
pub use outside::{Failed, Sink, Source, write_all};
pub use peers::{Acceptor, Clock, Ids, Pauser};
pub use sqlite_items::{Boxed, Items as List};
pub use standard::{StdSink, StdSource};
pub use std::alloc::AllocError as OutOfMemory;
pub use steady::{SteadySink, SteadySource};
pub use text::Text;
