//! Requests of gRPC-Web over HTTP/1.1 (RFC 9112; gRPC-Web protocol): the bytes of a connection, in whatever pieces they come, become a path
//! and a message, or the first fault.
#![tactic(auto)]

mod laws;
mod reader;
mod stage;

pub use laws::{faults_are_first, pieces_join, requests_are_one, requests_are_read};
pub use reader::RequestReader;

#[cfg(test)]
mod tests;
