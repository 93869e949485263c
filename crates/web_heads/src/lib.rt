//! Heads and chunk lines of HTTP/1.1 (RFC 9112) as functions of their bytes, read by `httparse`: what a gRPC-Web peer needs of them, with
//! exact faults.
#![tactic(auto)]

mod body;
mod chunk;
mod ends;
mod fault;
mod fields;
mod laws;
mod number;
mod request;
mod response;

pub use body::BodyKind;
pub use chunk::chunk_size;
pub use ends::head_end;
pub use fault::HeadFault;
pub use laws::{
    chunk_lines_are_read, request_heads_are_read, request_heads_have_one_answer,
    response_heads_are_read, response_heads_have_one_answer, search_goes_on,
};
pub use number::decimal;
pub use request::{RequestHead, read_request_head};
pub use response::{ResponseHead, read_response_head};

#[cfg(test)]
mod tests;
