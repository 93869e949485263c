use crate::input::{bytes_of, first_word, unreadable};
use cn_base::Bytes;
use std::alloc::{AllocError, Global};
use web_head_reader::HeadReader;
use web_heads::{
    HeadFault, ResponseHead, chunk_size, decimal, head_end, read_request_head, read_response_head,
};

/// The path that the head of a request names, and how its body is framed; or why the head is refused.
pub fn request(alloc: Global, argument: &str) -> Result<String, AllocError> {
    let Some(bytes) = bytes_of(alloc, argument)? else {
        return unreadable(alloc);
    };
    match read_request_head(alloc, bytes.as_slice()) {
        Ok(head) => {
            let path = head.path.as_str();
            let body = head.body;
            format!(in alloc; "ok {path} {body:?}")
        }
        Err(HeadFault::OutOfMemory) => Err(AllocError),
        Err(fault) => format!(in alloc; "{fault:?}"),
    }
}

/// The status of a response's head, how its body is framed, whether its type is gRPC-Web, and the values of `grpc-status` and
/// `grpc-message`; or why the head is refused.
pub fn response(alloc: Global, argument: &str) -> Result<String, AllocError> {
    let Some(bytes) = bytes_of(alloc, argument)? else {
        return unreadable(alloc);
    };
    match read_response_head(alloc, bytes.as_slice()) {
        Ok(head) => said(alloc, &head),
        Err(HeadFault::OutOfMemory) => Err(AllocError),
        Err(fault) => format!(in alloc; "{fault:?}"),
    }
}

fn said(alloc: Global, head: &ResponseHead) -> Result<String, AllocError> {
    let status = head.status;
    let body = head.body;
    let typed = head.has_grpc_type;
    let number = digits_or_none(alloc, &head.grpc_status)?;
    let text = digits_or_none(alloc, &head.grpc_message)?;
    format!(in alloc; "ok {status} {body:?} {typed} {number} {text}")
}

fn digits_or_none(alloc: Global, value: &Option<Bytes>) -> Result<String, AllocError> {
    match value {
        Some(bytes) => hex::encode(alloc, bytes.as_slice()),
        None => String::from_str(alloc, "none"),
    }
}

/// The size that a chunk line says.
pub fn chunk(alloc: Global, argument: &str) -> Result<String, AllocError> {
    let Some(bytes) = bytes_of(alloc, argument)? else {
        return unreadable(alloc);
    };
    number_or_none(alloc, chunk_size(bytes.as_slice()))
}

/// The place behind the first CR LF CR LF from a place on.
pub fn end(alloc: Global, argument: &str) -> Result<String, AllocError> {
    let (digits, start) = first_word(argument);
    match (bytes_of(alloc, digits)?, start.parse::<usize>()) {
        (Some(bytes), Ok(start)) => {
            let found = head_end(bytes.as_slice(), start).map(|end| end as u64);
            number_or_none(alloc, found)
        }
        _ => unreadable(alloc),
    }
}

/// The number that decimal digits spell, up to a greatest one.
pub fn number(alloc: Global, argument: &str) -> Result<String, AllocError> {
    let (digits, most) = first_word(argument);
    match (bytes_of(alloc, digits)?, most.parse::<u64>()) {
        (Some(bytes), Ok(most)) => number_or_none(alloc, decimal(bytes.as_slice(), most)),
        _ => unreadable(alloc),
    }
}

fn number_or_none(alloc: Global, number: Option<u64>) -> Result<String, AllocError> {
    match number {
        Some(number) => format!(in alloc; "{number}"),
        None => String::from_str(alloc, "none"),
    }
}

/// Where the reader of heads stands after the bytes: behind a whole head of so many bytes, within one, or refused.
pub fn reader(alloc: Global, argument: &str) -> Result<String, AllocError> {
    let Some(bytes) = bytes_of(alloc, argument)? else {
        return unreadable(alloc);
    };
    let mut reader = HeadReader::new(alloc);
    match reader.take(bytes.as_slice()) {
        Ok(taken) if reader.is_whole() => format!(in alloc; "Whole({taken})"),
        Ok(_) => String::from_str(alloc, "Open"),
        Err(fault) => format!(in alloc; "{fault:?}"),
    }
}
