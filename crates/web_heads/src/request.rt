ghost use Rattle.std.specs.Prelude.{◌≡◌, ◌≤◌, length, map, All, IsUtf8, IfNone, IfSome, None, Some};
ghost use Rattle.httparse.specs.Grammar as grammar;
ghost use Rattle.httparse.specs.Spans.{IsHeaderWithin, header_bytes, IsRequestWithin, IsRequestAt};
ghost use Rattle.web_heads.specs.Trees.{request_tree};
ghost use Rattle.web_heads.specs.Fields.{Gives};
ghost use Rattle.web_heads.specs.Standard.{Answers, RequestSays};
ghost use Rattle.web_heads.specs.Requests as heads;

use crate::fields::{MOST_FIELDS, framing, has_grpc_type, has_too_many_lines};
use crate::{BodyKind, HeadFault};
use cn_base::Text;
use httparse::Status;
use httparse::spans::{EMPTY_HEADER_SPAN, HeaderSpan, RequestSpans, parse_request};
use std::alloc::Global;
use std::str::from_utf8;

/// What the head of a POST request says.
#[derive(Debug, Drop)]
pub struct RequestHead {
    /// The request target (RFC 9112, section 3.2).
    pub path: Text,
    /// By length or by chunks.
    pub body: BodyKind,
}

/// The parts of a head that httparse reads whole.
fn request_spans(head: &[u8], room: &mut [HeaderSpan]) -> Option<RequestSpans>
    requires { length room.old ≡ MOST_FIELDS }
    ensures within { IfSome result (IsRequestWithin head.now room.new) }
    ensures whole { IfSome result (λ spans. spans.len ≡ length head.now) }
    ensures tree { IfSome result (λ spans. (h : grammar.RequestHead) × (request_tree head.now ≡ Some h)
        × IsRequestAt head.now room.new spans h) }
    ensures none { IfNone result (request_tree head.now ≡ None) }
{
    match parse_request(head, room) {
        Ok(Status::Complete(spans)) => {
            if spans.len == head.len() {
                Some(spans)
            } else {
                None
            }
        }
        Ok(Status::Partial) => None,
        Err(_) => None,
    }
}

/// What a method, a target and fields say, or the first fault among them.
#[tactic(auto, unfolding(crate::specs::Requests::request_of))]
fn request_of(
    alloc: Global,
    method: &[u8],
    target: &[u8],
    head: &[u8],
    headers: &[HeaderSpan],
) -> Result<RequestHead, HeadFault>
    requires text { IsUtf8 target.now }
    requires within { All (IsHeaderWithin (length head.now)) headers.now }
    ensures { Gives result (heads.request_of method.now target.now (map (header_bytes head.now) headers.now)) }
{
    if method != b"POST".as_slice() {
        return Err(HeadFault::BadMethod);
    }
    if !has_grpc_type(head, headers) {
        return Err(HeadFault::BadType);
    }
    let Some(body) = framing(head, headers)? else {
        return Err(HeadFault::BadLength);
    };
    // A request target that was read is UTF-8.
    let Ok(path) = from_utf8(target) else {
        return Err(HeadFault::BadHead);
    };
    let path = Text::of(alloc, path)?;
    Ok(RequestHead { path, body })
}

/// What the whole head of a request says, up to and with its first empty line. Beside want of memory, each fault of [`HeadFault`] comes
/// exactly where it says, the first of its list where several hold.
pub fn read_request_head(alloc: Global, head: &[u8]) -> Result<RequestHead, HeadFault>
    ensures exact { Gives result (heads.request_head head.now) }
    ensures says { Answers result (RequestSays head.now) }
{
    if has_too_many_lines(head) {
        return Err(HeadFault::TooManyHeaders);
    }
    let mut room = [EMPTY_HEADER_SPAN; MOST_FIELDS];
    let Some(spans) = request_spans(head, &mut room) else {
        return Err(HeadFault::BadHead);
    };
    let method = spans.method.of(head);
    let target = spans.path.of(head);
    request_of(alloc, method, target, head, &room[..spans.headers])
}
