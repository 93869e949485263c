ghost use Rattle.std.specs.Prelude.{◌+◌, ◌<◌, ◌^◌, length};

use crate::events::{put_message, put_trailers};
use crate::input::{bytes_of, first_word, unreadable};
use std::alloc::{AllocError, Global};
use std::fmt::Write;
use web_bodies::{BodyFault, BodyReader};
use web_contents::{ContentEvent, ContentReader};
use web_frames::{FrameEvent, FrameReader, Side};
use web_heads::BodyKind;

fn side_of(name: &str) -> Option<Side> {
    match name {
        "Request" => Some(Side::Request),
        "Response" => Some(Side::Response),
        _ => None,
    }
}

/// How a body is framed: `Chunks`, `ToEnd` or `Length(N)`.
fn kind_of(name: &str) -> Option<BodyKind> {
    match name {
        "Chunks" => Some(BodyKind::Chunks),
        "ToEnd" => Some(BodyKind::ToEnd),
        _ => {
            let number = name.strip_prefix("Length(")?.strip_suffix(")")?;
            Some(BodyKind::Length(number.parse::<u64>().ok()?))
        }
    }
}

/// What the reader of frames of a side tells of the bytes.
pub fn frames(alloc: Global, argument: &str) -> Result<String, AllocError> {
    let (side, digits) = first_word(argument);
    match (side_of(side), bytes_of(alloc, digits)?) {
        (Some(side), Some(bytes)) => framed(alloc, side, bytes.as_slice()),
        _ => unreadable(alloc),
    }
}

fn framed(alloc: Global, side: Side, bytes: &[u8]) -> Result<String, AllocError> {
    let mut out = String::from_str(alloc, "ok")?;
    let mut reader = FrameReader::new(alloc, side);
    let mut rest = bytes;
    for _call in 0..u64::MAX {
        match reader.feed(rest) {
            Ok((taken, Some(event))) => {
                put_frame(alloc, &mut out, &event)?;
                rest = rest.get(taken..).unwrap_or(&[]);
            }
            Ok((_, None)) => break,
            Err(fault) => {
                write!(out, " {fault:?}")?;
                return Ok(out);
            }
        }
    }
    Ok(out)
}

fn put_frame(alloc: Global, out: &mut String, event: &FrameEvent) -> Result<(), AllocError> {
    match event {
        FrameEvent::Message(message) => put_message(alloc, out, message.as_slice()),
        FrameEvent::Trailers(trailers) => put_trailers(out, trailers),
    }
}

/// What the reader of a body of frames tells of the bytes, and then of the connection's end. The words are a side, how the body is
/// framed, the place of its first byte in the connection, and the bytes.
pub fn content(alloc: Global, argument: &str) -> Result<String, AllocError> {
    let (side, rest) = first_word(argument);
    let (kind, rest) = first_word(rest);
    let (at, digits) = first_word(rest);
    let Ok(at) = at.parse::<u32>() else {
        return unreadable(alloc);
    };
    match (side_of(side), kind_of(kind), bytes_of(alloc, digits)?) {
        (Some(side), Some(kind), Some(bytes)) if bytes.len() < 1 << 40 => {
            let reader = ContentReader::new(alloc, side, kind, u64::from(at));
            read(alloc, reader, bytes.as_slice())
        }
        _ => unreadable(alloc),
    }
}

fn read(alloc: Global, first: ContentReader, bytes: &[u8]) -> Result<String, AllocError>
    requires { first.body.count + length bytes.now < 2 ^ 63 }
{
    let mut reader = first;
    let mut out = String::from_str(alloc, "ok")?;
    let mut start = 0usize;
    for _call in 0..u64::MAX {
        match reader.take(&bytes[start..]) {
            Ok((_, Some(ContentEvent::End))) => {
                out.push_str(" end")?;
                return Ok(out);
            }
            Ok((taken, Some(event))) => {
                start += taken;
                put_content(alloc, &mut out, &event)?;
            }
            Ok((_, None)) => break,
            Err(fault) => {
                write!(out, " {fault:?}")?;
                return Ok(out);
            }
        }
    }
    match reader.finish() {
        Ok(whole) => write!(out, " finish {whole}")?,
        Err(fault) => write!(out, " finish {fault:?}")?,
    }
    Ok(out)
}

fn put_content(alloc: Global, out: &mut String, event: &ContentEvent) -> Result<(), AllocError> {
    match event {
        ContentEvent::Message(message) => put_message(alloc, out, message.as_slice()),
        ContentEvent::Trailers(trailers) => put_trailers(out, trailers),
        ContentEvent::End => out.push_str(" end"),
    }
}

/// The payload of a body, and how it stands after the bytes: open, over after so many bytes, or refused. The words are how it is framed,
/// the place of its first byte in the connection, and the bytes.
pub fn body(alloc: Global, argument: &str) -> Result<String, AllocError> {
    let (kind, rest) = first_word(argument);
    let (at, digits) = first_word(rest);
    let Ok(at) = at.parse::<u32>() else {
        return unreadable(alloc);
    };
    match (kind_of(kind), bytes_of(alloc, digits)?) {
        (Some(kind), Some(bytes)) if bytes.len() < 1 << 40 => {
            let reader = BodyReader::new(alloc, kind, u64::from(at));
            bodied(alloc, reader, bytes.as_slice())
        }
        _ => unreadable(alloc),
    }
}

fn bodied(alloc: Global, first: BodyReader, bytes: &[u8]) -> Result<String, AllocError>
    requires { first.count + length bytes.now < 2 ^ 63 }
{
    let mut reader = first;
    let mut payload = Vec::new(alloc);
    let mut start = 0usize;
    for _call in 0..u64::MAX {
        if start == bytes.len() || reader.is_over() {
            break;
        }
        let rest = &bytes[start..];
        let ahead = reader.payload_ahead(rest.len());
        if ahead > 0 {
            payload.extend_from_slice(&rest[..ahead])?;
            reader.take_payload(ahead);
            start += ahead;
            continue;
        }
        match reader.take_framing(rest) {
            Ok(taken) => start += taken,
            Err(BodyFault::OutOfMemory) => return Err(AllocError),
            Err(fault) => return stands(alloc, payload.as_slice(), format_args!("{fault:?}")),
        }
    }
    if reader.is_over() {
        return stands(
            alloc,
            payload.as_slice(),
            format_args!("over after {start}"),
        );
    }
    stands(alloc, payload.as_slice(), format_args!("open"))
}

fn stands(
    alloc: Global,
    payload: &[u8],
    place: impl std::fmt::Display + Drop,
) -> Result<String, AllocError> {
    let digits = hex::encode(alloc, payload)?;
    format!(in alloc; "ok {digits} {place}")
}
