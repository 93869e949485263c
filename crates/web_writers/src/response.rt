ghost use Rattle.std.specs.Prelude.{◌≡◌, ◌≤◌, ◌+◌, ◌++◌, length, string_bytes, IfOk, OnOk, OnErr};
ghost use Rattle.web_frames.specs.Laws.{HasNoSpaceFirst};
ghost use Rattle.web_writers.specs.Responses as responses;

use cn_base::{Bytes, OutOfMemory};
use http::StatusCode;
use std::alloc::Global;
use web_frames::{Trailers, frame_head, put_trailers};

/// The head of every response that isn't refused.
static RESPONSE_HEAD: [u8; 108] =
    *b"HTTP/1.1 200 OK\r\ncontent-type: application/grpc-web+proto\r\nconnection: close\r\ntransfer-encoding: chunked\r\n\r\n";

/// The head of a response with status 200, whose body comes in chunks. It takes no memory.
#[tactic(auto, unfolding(crate::specs::Responses::head_text))]
pub fn response_head() -> &'static [u8]
    ensures { result.now ≡ responses.head_text }
{
    RESPONSE_HEAD.as_slice()
}

/// A chunk (RFC 9112, section 7.1) with the frame of this flag and payload, and room for so many bytes more.
#[tactic(auto, unfolding(crate::specs::Responses::frame_chunk, crate::specs::Responses::chunk))]
fn frame_chunk(alloc: Global, flag: u8, payload: &[u8], room: usize) -> Result<Bytes, OutOfMemory>
    requires payload { length payload.now ≤ 16777216 }
    requires room { room ≤ 64 }
    ensures { IfOk result (λ bytes. bytes ≡ responses.frame_chunk flag payload.now) }
{
    let frame_length = payload.len() + 5;
    let line = format!(in alloc; "{frame_length:x}\r\n")?;
    let mut chunk = Bytes::with_room(alloc, line.len() + frame_length + 2 + room)?;
    chunk.append(line.as_bytes())?;
    chunk.append_both(&frame_head(flag, payload.len() as u32), payload)?;
    chunk.append(b"\r\n")?;
    Ok(chunk)
}

/// A message of a response: its frame as one chunk, with the size in lower-case hexadecimal without leading zeros. It has at most 16 MiB.
pub fn response_message(alloc: Global, message: &[u8]) -> Result<Bytes, OutOfMemory>
    requires { length message.now ≤ 16777216 }
    ensures { IfOk result (λ bytes. bytes ≡ responses.message_bytes message.now) }
{
    frame_chunk(alloc, 0, message, 0)
}

/// The end of a response: the trailers' frame as one chunk, the last chunk, and no trailer fields. The trailers' message has at most 65,536
/// bytes and doesn't begin with a space.
pub fn response_end(alloc: Global, trailers: &Trailers) -> Result<Bytes, OutOfMemory>
    requires short { length trailers.now.message ≤ 65536 }
    requires no_space { HasNoSpaceFirst trailers.now.message }
    ensures { IfOk result (λ bytes. bytes ≡ responses.end_bytes trailers.now) }
{
    // The status is one of 32 bits, so its line is short.
    let _status = trailers.status;
    let mut payload = Bytes::new(alloc);
    put_trailers(alloc, &mut payload, trailers)?;
    let mut bytes = frame_chunk(alloc, 0x80, payload.as_slice(), 5)?;
    bytes.append(b"0\r\n\r\n")?;
    Ok(bytes)
}

/// The reason phrase of a status (RFC 9110, section 15), empty where it has none.
#[tactic(auto, unfolding(crate::specs::Responses::phrase_of))]
fn phrase_of(status: u16) -> &'static str
    ensures { result.now ≡ responses.phrase_of status }
{
    match StatusCode::from_u16(status) {
        Ok(code) => match code.canonical_reason() {
            Some(phrase) => phrase,
            None => "",
        },
        Err(_) => "",
    }
}

/// A response of a status, with its phrase and without a body, after which the connection is closed: what refuses a request.
#[tactic(auto, unfolding(crate::specs::Responses::refused_text))]
pub fn refused_head(alloc: Global, status: u16) -> Result<Bytes, OutOfMemory>
    ensures { IfOk result (λ bytes. bytes ≡ responses.refused_text status) }
{
    let phrase = phrase_of(status);
    let text = format!(in alloc;
        "HTTP/1.1 {status} {phrase}\r\nconnection: close\r\ncontent-length: 0\r\n\r\n"
    )?;
    Bytes::of(alloc, text.as_bytes())
}
