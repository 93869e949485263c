//! The answers of gRPC-Web over HTTP/1.1 (RFC 9112; gRPC-Web protocol): the bytes of a connection, in whatever pieces they come, become the
//! events of one response, or its first fault.
#![tactic(auto)]

mod bare;
mod body;
mod event;
mod laws;
mod opening;
mod reader;

pub use event::WebEvent;
pub use laws::{
    answers_are_fed, answers_are_one, answers_are_read, connections_end, ends_are_first,
    pieces_join,
};
pub use reader::ResponseReader;

#[cfg(test)]
mod tests;
