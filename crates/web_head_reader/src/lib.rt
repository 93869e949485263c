//! The bytes of a connection up to the end of a head of HTTP/1.1 (RFC 9112, section 2.1), in whatever pieces they come. What a head says is
//! for the crate `web_heads`.
#![tactic(auto)]

mod fault;
mod laws;
mod place;
mod reader;

pub use fault::HeadReadFault;
pub use laws::{ends_are_first, heads_are_one, heads_are_read, pieces_join};
pub use place::HeadPlace;
pub use reader::HeadReader;

#[cfg(test)]
mod tests;
