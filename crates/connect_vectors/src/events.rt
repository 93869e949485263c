use std::alloc::{AllocError, Global};
use std::fmt::Write;
use web_frames::Trailers;

/// Writes that a message was told, in hexadecimal digits.
pub fn put_message(alloc: Global, out: &mut String, message: &[u8]) -> Result<(), AllocError> {
    let digits = hex::encode(alloc, message)?;
    write!(out, " message {digits};")
}

/// Writes that trailers were told, with their status and their text.
pub fn put_trailers(out: &mut String, trailers: &Trailers) -> Result<(), AllocError> {
    let status = trailers.status;
    let text = trailers.message.as_str();
    write!(out, " trailers {status} {text};")
}
