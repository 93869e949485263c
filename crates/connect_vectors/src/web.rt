ghost use Rattle.std.specs.Prelude.{◌+◌, ◌<◌, ◌≤◌, ◌^◌, length};

use crate::events::{put_message, put_trailers};
use crate::input::{bytes_of, unreadable};
use std::alloc::{AllocError, Global};
use std::fmt::Write;
use web_contents::WebFault;
use web_requests::RequestReader;
use web_responses::{ResponseReader, WebEvent};

/// What the reader of requests says of the bytes, and then of the connection's end.
pub fn request(alloc: Global, argument: &str) -> Result<String, AllocError> {
    let Some(bytes) = bytes_of(alloc, argument)? else {
        return unreadable(alloc);
    };
    let mut reader = RequestReader::new(alloc);
    match reader.feed(bytes.as_slice()) {
        Ok(true) => whole(alloc, reader.path(), reader.message()),
        Ok(false) => fault(alloc, reader.finish()),
        Err(error) => fault(alloc, error),
    }
}

fn whole(alloc: Global, path: &str, message: &[u8]) -> Result<String, AllocError> {
    let message = hex::encode(alloc, message)?;
    format!(in alloc; "ok {path} {message}")
}

fn fault(alloc: Global, fault: WebFault) -> Result<String, AllocError> {
    format!(in alloc; "{fault:?}")
}

/// What the reader of responses tells of the bytes, and then of the connection's end.
pub fn response(alloc: Global, argument: &str) -> Result<String, AllocError> {
    match bytes_of(alloc, argument)? {
        Some(bytes) if bytes.len() < 1 << 40 => read(alloc, bytes.as_slice()),
        _ => unreadable(alloc),
    }
}

fn read(alloc: Global, bytes: &[u8]) -> Result<String, AllocError>
    requires { length bytes.now < 2 ^ 62 }
{
    let mut out = String::from_str(alloc, "ok")?;
    let mut reader = ResponseReader::new(alloc);
    let mut start = 0usize;
    for _call in 0..u64::MAX {
        match reader.feed(&bytes[start..]) {
            Ok((_, Some(WebEvent::End))) => {
                out.push_str(" end")?;
                return Ok(out);
            }
            Ok((taken, Some(event))) => {
                start += taken;
                put_event(alloc, &mut out, &event)?;
            }
            Ok((_, None)) => break,
            Err(error) => {
                write!(out, " {error:?}")?;
                return Ok(out);
            }
        }
    }
    match reader.finish() {
        Ok(whole) => write!(out, " finish {whole}")?,
        Err(error) => write!(out, " finish {error:?}")?,
    }
    Ok(out)
}

fn put_event(alloc: Global, out: &mut String, event: &WebEvent) -> Result<(), AllocError> {
    match event {
        WebEvent::Head { status } => write!(out, " head {status};"),
        WebEvent::Message(message) => put_message(alloc, out, message.as_slice()),
        WebEvent::Trailers(trailers) => put_trailers(out, trailers),
        WebEvent::End => out.push_str(" end"),
    }
}
