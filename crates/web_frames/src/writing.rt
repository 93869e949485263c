ghost use Rattle.std.specs.Prelude.{◌≡◌, ◌++◌, OnOk, OnErr, IfOk, string_bytes};
ghost use Rattle.web_frames.specs.Trailers as texts;

use crate::Trailers;
use cn_base::{Bytes, OutOfMemory};
use percent_encoding::{AsciiSet, CONTROLS, ascii_set, utf8_percent_encode};
use std::alloc::Global;

/// The ASCII bytes of a message that are escaped: the percent sign, and those outside 0x20 to 0x7E. A byte outside ASCII always is.
const ESCAPED: AsciiSet = ascii_set!(CONTROLS.add(b'%'));

/// The message with its escapes (RFC 3986, section 2.1).
fn escaped(alloc: Global, message: &str) -> Result<String, OutOfMemory>
    ensures { IfOk result (λ text. string_bytes text ≡ texts.escaped message.now) }
{
    let mut text = String::new(alloc);
    utf8_percent_encode(message, ESCAPED).append_to(&mut text)?;
    Ok(text)
}

/// The payload of a trailers frame.
fn trailers_text(alloc: Global, trailers: &Trailers) -> Result<String, OutOfMemory>
    ensures { IfOk result (λ text. string_bytes text ≡ texts.trailers_text trailers.now) }
{
    let status = trailers.status;
    let message = trailers.message.as_str();
    if message.is_empty() {
        let line = format!(in alloc; "grpc-status:{status}\r\n")?;
        return Ok(line);
    }
    let message = escaped(alloc, message)?;
    let lines = format!(in alloc; "grpc-status:{status}\r\ngrpc-message:{message}\r\n")?;
    Ok(lines)
}

/// Adds the payload of a trailers frame at the end: the lines `grpc-status:` with the number, and, where the message is not empty,
/// `grpc-message:` with the message, of which each byte outside 0x20 to 0x7E and each percent sign is escaped. `Err` is want of memory: it
/// changes nothing.
pub fn put_trailers(alloc: Global, out: &mut Bytes, trailers: &Trailers) -> Result<(), OutOfMemory>
    ensures ok { OnOk result (out.new ≡ out.old ++ texts.trailers_text trailers.now) }
    ensures err { OnErr result (out.new ≡ out.old) }
{
    let text = trailers_text(alloc, trailers)?;
    out.append(text.as_bytes())
}
