//! What gRPC-Web peers write (RFC 9112; gRPC-Web protocol): requests and responses as bytes, and that they are, in the standard's words and as
//! they are read, what they were written of.
#![tactic(auto)]

mod laws;
mod request;
mod response;

pub use laws::{requests_are_read_back, responses_are_said};
pub use request::write_request;
pub use response::{refused_head, response_end, response_head, response_message};

#[cfg(test)]
mod tests;
