use crate::input::{bytes_of, first_word, unreadable};
use crate::messages::{fault, method_of};
use connect_messages::{Method, decode_request, decode_response};
use expression_messages::decode_type;
use std::alloc::{AllocError, Global};

/// What a message holds, as its value in Rust is printed for debugging; or its fault. The types are those of `message`.
pub fn answer(alloc: Global, argument: &str) -> Result<String, AllocError> {
    let (name, digits) = first_word(argument);
    let Some(bytes) = bytes_of(alloc, digits)? else {
        return unreadable(alloc);
    };
    if name == "DataType" {
        return kind(alloc, bytes.as_slice());
    }
    if let Some(method) = name.strip_suffix("Request").and_then(method_of) {
        return request(alloc, method, bytes.as_slice());
    }
    if let Some(method) = name.strip_suffix("Response").and_then(method_of) {
        return response(alloc, method, bytes.as_slice());
    }
    unreadable(alloc)
}

fn kind(alloc: Global, bytes: &[u8]) -> Result<String, AllocError> {
    match decode_type(alloc, bytes) {
        Ok(kind) => format!(in alloc; "ok {kind:?}"),
        Err(error) => fault(alloc, error),
    }
}

fn request(alloc: Global, method: Method, bytes: &[u8]) -> Result<String, AllocError> {
    match decode_request(alloc, method, bytes) {
        Ok(request) => format!(in alloc; "ok {request:?}"),
        Err(error) => fault(alloc, error),
    }
}

fn response(alloc: Global, method: Method, bytes: &[u8]) -> Result<String, AllocError> {
    match decode_response(alloc, method, bytes) {
        Ok(response) => format!(in alloc; "ok {response:?}"),
        Err(error) => fault(alloc, error),
    }
}
