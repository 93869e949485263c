ghost use Rattle.std.specs.Prelude.{◌≡◌, ◌==◌, length, map, nat_lt, All, position};
ghost use Rattle.std.specs.List.{before_first};
ghost use Rattle.std.specs.Option.{option_copied};
ghost use Rattle.std.specs.Str.{bytes_eq, str_to_ascii_lowercase};
ghost use Rattle.httparse.specs.Grammar.{is_ows};
ghost use Rattle.httparse.specs.Spans.{IsHeaderWithin, header_bytes};
ghost use Rattle.web_heads.specs.Texts.{without_trailing_ows};
ghost use Rattle.web_heads.specs.Trees.{most_fields};
ghost use Rattle.web_heads.specs.Fields as fields;

use crate::{BodyKind, HeadFault, decimal};
use httparse::spans::HeaderSpan;

/// The most fields that a head may have, and lines between its first line and its empty line.
pub(crate) const MOST_FIELDS: usize = 64;

/// The longest body, in bytes: 2^62.
const MOST_LENGTH: u64 = 4_611_686_018_427_387_904;

/// The text is `name` in either case, where `name` is in lower case.
fn equals_ignoring_case(text: &[u8], name: &[u8]) -> bool
    requires { str_to_ascii_lowercase name.now ≡ name.now }
    ensures { result ≡ bytes_eq (str_to_ascii_lowercase text.now) name.now }
{
    text.eq_ignore_ascii_case(name)
}

/// More than 64 lines stand between the first line and the empty line that ends the head.
#[tactic(auto, unfolding(crate::specs::Fields::inner_lines))]
pub(crate) fn has_too_many_lines(head: &[u8]) -> bool
    ensures { result ≡ nat_lt most_fields (fields.inner_lines head.now) }
{
    let lines = head.iter().filter(|byte| **byte == b'\n').count();
    lines.saturating_sub(2) > MOST_FIELDS
}

/// The value of the first field of a name.
pub(crate) fn first_value<'a>(
    head: &'a [u8],
    headers: &[HeaderSpan],
    name: &[u8],
) -> Option<&'a [u8]>
    requires lower { str_to_ascii_lowercase name.now ≡ name.now }
    requires within { All (IsHeaderWithin (length head.now)) headers.now }
    ensures { option_copied result ≡ fields.first_value name.now (map (header_bytes head.now) headers.now) }
{
    for header in headers {
        if equals_ignoring_case(header.name.of(head), name) {
            return Some(header.value.of(head));
        }
    }
    None
}

/// More than one field has this name.
fn is_repeated(head: &[u8], headers: &[HeaderSpan], name: &[u8]) -> bool
    requires lower { str_to_ascii_lowercase name.now ≡ name.now }
    requires within { All (IsHeaderWithin (length head.now)) headers.now }
    ensures { result ≡ nat_lt 1 (length (fields.values name.now (map (header_bytes head.now) headers.now))) }
{
    let mut count = 0usize;
    for header in headers {
        if equals_ignoring_case(header.name.of(head), name) {
            count += 1;
        }
    }
    count > 1
}

/// Optional white space: a space or a tab (RFC 9110, section 5.6.3).
fn is_white_space(byte: u8) -> bool
    ensures { result ≡ is_ows byte }
{
    byte == b' ' || byte == b'\t'
}

/// The text without the white space at its end.
fn trimmed_end(text: &[u8]) -> &[u8]
    ensures { result.now ≡ without_trailing_ows text.now }
{
    let mut stop = text.len();
    while stop > 0 && is_white_space(text[stop - 1]) {
        stop -= 1;
    }
    &text[..stop]
}

/// The place of the first semicolon.
fn first_semicolon(value: &[u8]) -> Option<usize>
    ensures { result ≡ position (λ b. b == 59) value.now }
{
    value.iter().position(|byte| *byte == b';')
}

/// What stands before the first semicolon.
fn without_parameters(value: &[u8]) -> &[u8]
    ensures { result.now ≡ before_first (λ b. b == 59) value.now }
{
    match first_semicolon(value) {
        Some(place) => &value[..place],
        None => value,
    }
}

/// The value is a media type of gRPC-Web, with or without parameters.
#[tactic(auto, unfolding(crate::specs::Fields::is_grpc_web, crate::specs::Fields::media_type))]
fn is_grpc_web(value: &[u8]) -> bool
    ensures { result ≡ fields.is_grpc_web value.now }
{
    let kind = trimmed_end(without_parameters(value));
    equals_ignoring_case(kind, b"application/grpc-web")
        || equals_ignoring_case(kind, b"application/grpc-web+proto")
}

/// The first content type is one of gRPC-Web.
#[tactic(auto, unfolding(crate::specs::Fields::has_grpc_type))]
pub(crate) fn has_grpc_type(head: &[u8], headers: &[HeaderSpan]) -> bool
    requires { All (IsHeaderWithin (length head.now)) headers.now }
    ensures { result ≡ fields.has_grpc_type (map (header_bytes head.now) headers.now) }
{
    match first_value(head, headers, b"content-type") {
        Some(value) => is_grpc_web(value),
        None => false,
    }
}

/// The first transfer coding is that of chunks.
#[tactic(auto, unfolding(crate::specs::Fields::is_chunked))]
fn has_chunks(head: &[u8], headers: &[HeaderSpan]) -> bool
    requires { All (IsHeaderWithin (length head.now)) headers.now }
    ensures { result ≡ fields.has_chunks (map (header_bytes head.now) headers.now) }
{
    match first_value(head, headers, b"transfer-encoding") {
        Some(value) => equals_ignoring_case(value, b"chunked"),
        None => false,
    }
}

/// The body by the value of a Content-Length, if there is one, and by whether it comes in chunks.
#[tactic(auto, unfolding(crate::specs::Fields::body_of))]
fn body_of(announced: Option<&[u8]>, chunked: bool) -> Result<Option<BodyKind>, HeadFault>
    ensures { result ≡ fields.body_of (option_copied announced.entry) chunked }
{
    match announced {
        Some(_) if chunked => Err(HeadFault::BadLength),
        Some(value) => match decimal(value, MOST_LENGTH) {
            Some(count) => Ok(Some(BodyKind::Length(count))),
            None => Err(HeadFault::BadLength),
        },
        None if chunked => Ok(Some(BodyKind::Chunks)),
        None => Ok(None),
    }
}

/// How the fields frame the body, or none where they frame it neither by length nor by chunks.
#[tactic(auto, unfolding(crate::specs::Fields::framed))]
pub(crate) fn framing(head: &[u8], headers: &[HeaderSpan]) -> Result<Option<BodyKind>, HeadFault>
    requires { All (IsHeaderWithin (length head.now)) headers.now }
    ensures { result ≡ fields.framing (map (header_bytes head.now) headers.now) }
{
    if is_repeated(head, headers, b"content-length")
        || is_repeated(head, headers, b"transfer-encoding")
    {
        return Err(HeadFault::BadLength);
    }
    let announced = first_value(head, headers, b"content-length");
    body_of(announced, has_chunks(head, headers))
}
