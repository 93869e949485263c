//! Bodies of HTTP/1.1 messages whose payload is gRPC-Web frames (RFC 9112, sections 6 and 7; gRPC-Web protocol, "Message framing"): the bytes
//! of a body, in whatever pieces they come, become messages and trailers, or the first fault of the body or of its frames.
#![tactic(auto)]

mod event;
mod fault;
mod laws;
mod place;
mod reader;

pub use event::ContentEvent;
pub use fault::WebFault;
pub use laws::{
    bytes_are_parts, connections_end, contents_are_one, contents_are_read, ends_are_first,
    pieces_join,
};
pub use place::ContentPlace;
pub use reader::ContentReader;

#[cfg(test)]
mod tests;
