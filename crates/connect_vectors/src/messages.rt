use crate::input::{bytes_of, first_word, unreadable};
use connect_messages::{
    Method, Request, Response, decode_request, decode_response, encode_request, encode_response,
    is_known_request, is_known_response, request_depth, response_depth,
};
use expression_messages::{TypeMessage, decode_type, encode_type, is_known_type, type_depth};
use proto_fields::MessageFault;
use std::alloc::{AllocError, Global};

/// The most messages that may be nested in one that is written.
const DEEPEST: u32 = 200;

/// The method that is called at a path.
pub fn method_at(alloc: Global, path: &str) -> Result<String, AllocError> {
    match Method::of_path(path) {
        Some(method) => format!(in alloc; "ok {method:?}"),
        None => String::from_str(alloc, "none"),
    }
}

/// The spelling of what a message says and its depth; the depth alone where it holds what is outside the profile; or its
/// fault. The type is `DataType`, or a method's name with `Request` or `Response` behind it.
pub fn answer(alloc: Global, argument: &str) -> Result<String, AllocError> {
    let (name, digits) = first_word(argument);
    let Some(bytes) = bytes_of(alloc, digits)? else {
        return unreadable(alloc);
    };
    if name == "DataType" {
        return kind(alloc, bytes.as_slice());
    }
    if let Some(method) = name.strip_suffix("Request").and_then(method_of) {
        return request(alloc, method, bytes.as_slice());
    }
    if let Some(method) = name.strip_suffix("Response").and_then(method_of) {
        return response(alloc, method, bytes.as_slice());
    }
    unreadable(alloc)
}

/// The spelling of what a message says, or its fault.
pub fn spelling(alloc: Global, argument: &str) -> Result<String, AllocError> {
    let found = answer(alloc, argument)?;
    match found.rsplit_once(" depth ") {
        Some((spelling, _)) => String::from_str(alloc, spelling),
        None => Ok(found),
    }
}

/// The method of a name.
pub fn method_of(name: &str) -> Option<Method> {
    match name {
        "ExecutePlan" => Some(Method::ExecutePlan),
        "AnalyzePlan" => Some(Method::AnalyzePlan),
        "Config" => Some(Method::Config),
        "Interrupt" => Some(Method::Interrupt),
        "ReattachExecute" => Some(Method::ReattachExecute),
        "ReleaseExecute" => Some(Method::ReleaseExecute),
        _ => None,
    }
}

/// A message's fault, as it is printed.
pub fn fault(alloc: Global, fault: MessageFault) -> Result<String, AllocError> {
    match fault {
        MessageFault::Wire(fault) => format!(in alloc; "{fault:?}"),
        MessageFault::NotUtf8 { at } => format!(in alloc; "NotUtf8 {{ at: {at} }}"),
        MessageFault::TooDeep { at } => format!(in alloc; "TooDeep {{ at: {at} }}"),
        MessageFault::OutOfMemory => Err(AllocError),
    }
}

fn spelled(alloc: Global, bytes: &[u8], depth: u32) -> Result<String, AllocError> {
    let digits = hex::encode(alloc, bytes)?;
    format!(in alloc; "ok {digits} depth {depth}")
}

fn unspelled(alloc: Global, depth: u32) -> Result<String, AllocError> {
    format!(in alloc; "ok outside the profile depth {depth}")
}

fn kind(alloc: Global, bytes: &[u8]) -> Result<String, AllocError> {
    match decode_type(alloc, bytes) {
        Ok(kind) => said_type(alloc, &kind),
        Err(error) => fault(alloc, error),
    }
}

fn said_type(alloc: Global, kind: &TypeMessage) -> Result<String, AllocError> {
    let depth = type_depth(kind);
    if !is_known_type(kind) || depth > DEEPEST {
        return unspelled(alloc, depth);
    }
    let bytes = encode_type(alloc, kind)?;
    spelled(alloc, bytes.as_slice(), depth)
}

fn request(alloc: Global, method: Method, bytes: &[u8]) -> Result<String, AllocError> {
    match decode_request(alloc, method, bytes) {
        Ok(request) => said_request(alloc, &request),
        Err(error) => fault(alloc, error),
    }
}

fn said_request(alloc: Global, request: &Request) -> Result<String, AllocError> {
    let depth = request_depth(request);
    if !is_known_request(request) || depth > DEEPEST {
        return unspelled(alloc, depth);
    }
    let bytes = encode_request(alloc, request)?;
    spelled(alloc, bytes.as_slice(), depth)
}

fn response(alloc: Global, method: Method, bytes: &[u8]) -> Result<String, AllocError> {
    match decode_response(alloc, method, bytes) {
        Ok(response) => said_response(alloc, &response),
        Err(error) => fault(alloc, error),
    }
}

fn said_response(alloc: Global, response: &Response) -> Result<String, AllocError> {
    let depth = response_depth(response);
    if !is_known_response(response) || depth > DEEPEST {
        return unspelled(alloc, depth);
    }
    let bytes = encode_response(alloc, response)?;
    spelled(alloc, bytes.as_slice(), depth)
}
