ghost use Rattle.std.specs.Prelude.{◌≤◌, length};
ghost use Rattle.std.specs.Bool.{OnTrue};
ghost use Rattle.web_frames.specs.Laws.{HasNoSpaceFirst};
ghost use Rattle.web_writers.specs.Requests.{IsVisibleText};

use crate::input::{bytes_of, first_word, unreadable};
use cn_base::{Bytes, Text};
use grpc_web::{FaultAnswer, answer_of};
use std::alloc::{AllocError, Global};
use web_contents::WebFault;
use web_frames::{FrameFault, Trailers, put_trailers, read_trailers};
use web_writers::{refused_head, response_end, response_head, response_message, write_request};

/// The longest path and host, and the longest text of trailers, in bytes.
const LONGEST_NAME: usize = 1_024;

const LONGEST_TEXT: usize = 65_536;

fn digits(alloc: Global, bytes: &[u8]) -> Result<String, AllocError> {
    hex::encode(alloc, bytes)
}

/// What the payload of a trailers' frame says.
pub fn trailers_read(alloc: Global, argument: &str) -> Result<String, AllocError> {
    let Some(bytes) = bytes_of(alloc, argument)? else {
        return unreadable(alloc);
    };
    match read_trailers(alloc, bytes.as_slice()) {
        Ok(trailers) => {
            let status = trailers.status;
            let text = trailers.message.as_str();
            format!(in alloc; "{status}:{text}")
        }
        Err(FrameFault::OutOfMemory) => Err(AllocError),
        Err(fault) => format!(in alloc; "{fault:?}"),
    }
}

/// The trailers of a status and a text, which is given in hexadecimal digits.
fn trailers_of(alloc: Global, argument: &str) -> Result<Option<Trailers>, AllocError> {
    let (status, text) = first_word(argument);
    match (status.parse::<u32>(), text_of(alloc, text)?) {
        (Ok(status), Some(message)) => Ok(Some(Trailers { status, message })),
        _ => Ok(None),
    }
}

fn text_of(alloc: Global, argument: &str) -> Result<Option<Text>, AllocError> {
    match bytes_of(alloc, argument)? {
        Some(bytes) => Ok(String::from_utf8(bytes).ok().map(Text::from_string)),
        None => Ok(None),
    }
}

/// The payload of a trailers' frame.
pub fn trailers_put(alloc: Global, argument: &str) -> Result<String, AllocError> {
    match trailers_of(alloc, argument)? {
        Some(trailers) => {
            let mut payload = Bytes::new(alloc);
            put_trailers(alloc, &mut payload, &trailers)?;
            digits(alloc, payload.as_slice())
        }
        None => unreadable(alloc),
    }
}

/// The end of a response with these trailers.
pub fn end(alloc: Global, argument: &str) -> Result<String, AllocError> {
    match trailers_of(alloc, argument)? {
        Some(trailers) if may_be_sent(trailers.message.as_str()) => {
            let bytes = response_end(alloc, &trailers)?;
            digits(alloc, bytes.as_slice())
        }
        _ => unreadable(alloc),
    }
}

/// Whether a text can be that of trailers: at most 65,536 bytes, of which the first is no space.
fn may_be_sent(text: &str) -> bool
    ensures short { OnTrue result (length text.now ≤ 65536) }
    ensures no_space { OnTrue result (HasNoSpaceFirst text.now) }
{
    text.len() <= LONGEST_TEXT && !text.starts_with(" ")
}

/// The head of a response.
pub fn head(alloc: Global) -> Result<String, AllocError> {
    digits(alloc, response_head())
}

/// A message of a response.
pub fn message(alloc: Global, argument: &str) -> Result<String, AllocError> {
    match bytes_of(alloc, argument)? {
        Some(bytes) if bytes.len() <= 16_777_216 => {
            let bytes = response_message(alloc, bytes.as_slice())?;
            digits(alloc, bytes.as_slice())
        }
        _ => unreadable(alloc),
    }
}

/// The bytes of a refused response.
pub fn refused(alloc: Global, argument: &str) -> Result<String, AllocError> {
    let Ok(status) = argument.parse::<u16>() else {
        return unreadable(alloc);
    };
    let bytes = refused_head(alloc, status)?;
    digits(alloc, bytes.as_slice())
}

/// What a server answers a request with that a fault refuses: an HTTP status, or a status of trailers and a name.
pub fn answer(alloc: Global, name: &str) -> Result<String, AllocError> {
    let Some(fault) = fault_of(name) else {
        return unreadable(alloc);
    };
    match answer_of(fault) {
        Some(FaultAnswer::Http { status }) => format!(in alloc; "Http {status}"),
        Some(FaultAnswer::Grpc { status, name }) => {
            let name = name.as_str();
            format!(in alloc; "Grpc {status} {name}")
        }
        None => String::from_str(alloc, "none"),
    }
}

fn fault_of(name: &str) -> Option<WebFault> {
    match name {
        "BadHead" => Some(WebFault::BadHead),
        "HeadTooLong" => Some(WebFault::HeadTooLong),
        "TooManyHeaders" => Some(WebFault::TooManyHeaders),
        "BadMethod" => Some(WebFault::BadMethod),
        "BadType" => Some(WebFault::BadType),
        "BadLength" => Some(WebFault::BadLength),
        "BadChunk" => Some(WebFault::BadChunk { at: 0 }),
        "FrameTooLong" => Some(WebFault::FrameTooLong { length: 0 }),
        "Compressed" => Some(WebFault::Compressed),
        "AfterMessage" => Some(WebFault::AfterMessage),
        "AfterTrailers" => Some(WebFault::AfterTrailers),
        "BadTrailer" => Some(WebFault::BadTrailer),
        "NoMessage" => Some(WebFault::NoMessage),
        "Truncated" => Some(WebFault::Truncated),
        "OutOfMemory" => Some(WebFault::OutOfMemory),
        _ => None,
    }
}

/// The bytes of a request to a path of a host with a message.
pub fn request(alloc: Global, argument: &str) -> Result<String, AllocError> {
    let (path, rest) = first_word(argument);
    let (host, message) = first_word(rest);
    match bytes_of(alloc, message)? {
        Some(bytes) if is_name(path) && is_name(host) && bytes.len() <= 67_108_864 => {
            let host = Text::of(alloc, host)?;
            let bytes = write_request(alloc, path, &host, bytes.as_slice())?;
            digits(alloc, bytes.as_slice())
        }
        _ => unreadable(alloc),
    }
}

/// Whether a text can be the path or the host of a request: 1 to 1,024 bytes, all of 0x21 to 0x7E.
fn is_name(text: &str) -> bool
    ensures { OnTrue result (IsVisibleText text.now) }
{
    !text.is_empty()
        && text.len() <= LONGEST_NAME
        && text
            .as_bytes()
            .iter()
            .all(|byte| 0x21 <= *byte && *byte <= 0x7e)
}
