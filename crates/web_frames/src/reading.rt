ghost use Rattle.std.specs.Prelude.{◌≡◌, IfOk};
ghost use Rattle.std.specs.Option.{option_copied};
ghost use Rattle.web_frames.specs.Trailers as texts;
ghost use Rattle.web_frames.specs.Standard.{Answers, ValuesSay, TrailersSay};

use crate::lines::first_value;
use crate::{FrameFault, Trailers};
use cn_base::{OutOfMemory, Text};
use percent_encoding::percent_decode;
use std::alloc::Global;
use web_heads::decimal;

/// The text that a `grpc-message` writes: its escapes decoded (RFC 3986, section 2.1), and read as UTF-8 with replacement characters.
/// `Err` is want of memory.
#[tactic(auto, unfolding(crate::specs::Trailers::message_of))]
fn message_of(alloc: Global, value: Option<&[u8]>) -> Result<Text, OutOfMemory>
    ensures { IfOk result (λ text. text ≡ texts.message_of (option_copied value.entry)) }
{
    let Some(value) = value else {
        return Ok(Text::new(alloc));
    };
    let decoded = percent_decode(value).decode_utf8_lossy(alloc)?;
    Ok(Text::from_string(decoded.into_owned(alloc)?))
}

/// The trailers of two values.
#[tactic(auto, unfolding(crate::specs::Trailers::trailers_of))]
fn of_values(alloc: Global, status: &[u8], message: Option<&[u8]>) -> Result<Trailers, FrameFault>
    ensures { texts.GivesTrailers result (texts.trailers_of status.now (option_copied message.entry)) }
{
    let Some(status) = decimal(status, u64::from(u32::MAX)) else {
        return Err(FrameFault::BadTrailer);
    };
    let message = message_of(alloc, message)?;
    Ok(Trailers {
        status: status as u32,
        message,
    })
}

/// The trailers of the values of `grpc-status` and of `grpc-message`, where there is one: of two lines, or of two fields of a response's
/// head. BadTrailer where the status is no decimal number up to 2^32 - 1; leading zeros are accepted.
pub fn trailers_of(
    alloc: Global,
    status: &[u8],
    message: Option<&[u8]>,
) -> Result<Trailers, FrameFault>
    ensures exact { texts.GivesTrailers result (texts.trailers_of status.now (option_copied message.entry)) }
    ensures says { Answers (ValuesSay status.now (option_copied message.entry)) result }
{
    of_values(alloc, status, message)
}

/// The trailers of the first lines of their names.
#[tactic(auto, unfolding(crate::specs::Trailers::trailers_in))]
fn trailers_in(alloc: Global, payload: &[u8]) -> Result<Trailers, FrameFault>
    ensures { texts.GivesTrailers result (texts.trailers_in payload.now) }
{
    let Some(status) = first_value(payload, b"grpc-status") else {
        return Err(FrameFault::BadTrailer);
    };
    of_values(alloc, status, first_value(payload, b"grpc-message"))
}

/// The trailers that the payload of a trailers frame says: lines `name:value`, each ended by CR LF, of which the first of a name counts;
/// names match in either case, and one space after the colon is skipped. BadTrailer where there is no `grpc-status`, or it is no decimal
/// number up to 2^32 - 1.
pub fn read_trailers(alloc: Global, payload: &[u8]) -> Result<Trailers, FrameFault>
    ensures exact { texts.GivesTrailers result (texts.trailers_in payload.now) }
    ensures says { Answers (TrailersSay payload.now) result }
{
    trailers_in(alloc, payload)
}
