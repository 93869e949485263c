//! Bodies of HTTP/1.1 messages (RFC 9112, sections 6 and 7), by length, in chunks, or up to the end of the connection, read as their bytes
//! come: which of the bytes are payload, where the body ends, and what is wrong with it.
#![tactic(auto)]

mod fault;
mod laws;
mod place;
mod reader;
mod steps;

pub use fault::BodyFault;
pub use laws::{bodies_are_one, bodies_are_read, ends_are_first, pieces_join, places_are_counted};
pub use place::{BodyPlace, TrailerPlace};
pub use reader::BodyReader;

#[cfg(test)]
mod tests;
