ghost use Rattle.std.specs.Prelude.{◌≡◌, length, map, All, IfNone, IfSome, IfOk, None, Some};
ghost use Rattle.std.specs.Str.{str_to_ascii_lowercase};
ghost use Rattle.httparse.specs.Grammar as grammar;
ghost use Rattle.httparse.specs.Spans.{IsHeaderWithin, header_bytes, IsResponseWithin, IsResponseAt};
ghost use Rattle.web_heads.specs.Trees.{response_tree};
ghost use Rattle.web_heads.specs.Fields.{Gives};
ghost use Rattle.web_heads.specs.Standard.{Answers, ResponseSays};
ghost use Rattle.web_heads.specs.Fields as fields;
ghost use Rattle.web_heads.specs.Responses as heads;

use crate::fields::{MOST_FIELDS, first_value, framing, has_grpc_type, has_too_many_lines};
use crate::{BodyKind, HeadFault};
use cn_base::{Bytes, OutOfMemory};
use httparse::Status;
use httparse::spans::{EMPTY_HEADER_SPAN, HeaderSpan, ResponseSpans, parse_response};
use std::alloc::Global;

/// What the head of a response says.
#[derive(Debug, Drop)]
pub struct ResponseHead {
    /// The status code (RFC 9110, section 15), below 1,000.
    pub status: u16,
    /// By length, by chunks, or to the end of the connection.
    pub body: BodyKind,
    /// The first content type is one of gRPC-Web. With the status 200 it always is.
    pub has_grpc_type: bool,
    /// The value of the first `grpc-status` field, as it stands in the head.
    pub grpc_status: Option<Bytes>,
    /// The value of the first `grpc-message` field, as it stands in the head.
    pub grpc_message: Option<Bytes>,
}

/// The parts of a head that httparse reads whole.
fn response_spans(head: &[u8], room: &mut [HeaderSpan]) -> Option<ResponseSpans>
    requires { length room.old ≡ MOST_FIELDS }
    ensures within { IfSome result (IsResponseWithin head.now room.new) }
    ensures whole { IfSome result (λ spans. spans.len ≡ length head.now) }
    ensures tree { IfSome result (λ spans. (h : grammar.ResponseHead) × (response_tree head.now ≡ Some h)
        × IsResponseAt head.now room.new spans h) }
    ensures none { IfNone result (response_tree head.now ≡ None) }
{
    match parse_response(head, room) {
        Ok(Status::Complete(spans)) => {
            if spans.len == head.len() {
                Some(spans)
            } else {
                None
            }
        }
        Ok(Status::Partial) => None,
        Err(_) => None,
    }
}

/// A copy of the value of the first field of a name.
fn copied_value(
    alloc: Global,
    head: &[u8],
    headers: &[HeaderSpan],
    name: &[u8],
) -> Result<Option<Bytes>, OutOfMemory>
    requires lower { str_to_ascii_lowercase name.now ≡ name.now }
    requires within { All (IsHeaderWithin (length head.now)) headers.now }
    ensures { IfOk result (λ value. value ≡ fields.first_value name.now (map (header_bytes head.now) headers.now)) }
{
    match first_value(head, headers, name) {
        Some(value) => Ok(Some(Bytes::of(alloc, value)?)),
        None => Ok(None),
    }
}

/// What a status and fields say, or the first fault among them.
#[tactic(auto, unfolding(crate::specs::Responses::response_of))]
fn response_of(
    alloc: Global,
    status: u16,
    head: &[u8],
    headers: &[HeaderSpan],
) -> Result<ResponseHead, HeadFault>
    requires { All (IsHeaderWithin (length head.now)) headers.now }
    ensures { Gives result (heads.response_of status (map (header_bytes head.now) headers.now)) }
{
    let has_grpc_type = has_grpc_type(head, headers);
    if status == 200 && !has_grpc_type {
        return Err(HeadFault::BadType);
    }
    let body = framing(head, headers)?.unwrap_or(BodyKind::ToEnd);
    let grpc_status = copied_value(alloc, head, headers, b"grpc-status")?;
    let grpc_message = copied_value(alloc, head, headers, b"grpc-message")?;
    Ok(ResponseHead {
        status,
        body,
        has_grpc_type,
        grpc_status,
        grpc_message,
    })
}

/// What the whole head of a response says, up to and with its first empty line. Beside want of memory, each fault of [`HeadFault`] but
/// BadMethod comes exactly where it says, the first of its list where several hold. A missing length is no fault here.
pub fn read_response_head(alloc: Global, head: &[u8]) -> Result<ResponseHead, HeadFault>
    ensures exact { Gives result (heads.response_head head.now) }
    ensures says { Answers result (ResponseSays head.now) }
{
    if has_too_many_lines(head) {
        return Err(HeadFault::TooManyHeaders);
    }
    let mut room = [EMPTY_HEADER_SPAN; MOST_FIELDS];
    let Some(spans) = response_spans(head, &mut room) else {
        return Err(HeadFault::BadHead);
    };
    response_of(alloc, spans.code, head, &room[..spans.headers])
}
