ghost use Rattle.std.specs.Prelude.{◌≡◌, ◌<◌, ◌^◌, ◌-◌, IfSome, option_map};
ghost use Rattle.arrow_read.specs.Columns.{pair_in as said_pair, pair_at as said_pair_at, span_of as said_span, buffer_at as said_buffer};

use crate::numbers;
use flat_tables::Vector;

/// An item of two numbers: a node's length and its number of nulls, or a buffer's offset and its length.
#[derive(Clone, Copy, Debug)]
pub(crate) struct Pair {
    pub(crate) first: i64,
    pub(crate) second: i64,
}

/// The two numbers of an item, if the vector has it.
#[tactic(auto, unfolding(crate::specs::Columns::pair_in))]
fn pair_in(vector: &Vector, place: usize) -> Option<Pair>
    ensures pair { result ≡ said_pair vector.now place }
    ensures place { IfSome result (λ _. place < 2 ^ 64 - 1) }
{
    if vector.len() <= place {
        return None;
    }
    let item = vector.item(place);
    let first = numbers::i64_in(item, 0)?;
    let second = numbers::i64_in(item, 8)?;
    Some(Pair { first, second })
}

/// The same of a vector that may be absent.
pub(crate) fn pair_at(vector: &Option<Vector>, place: usize) -> Option<Pair>
    ensures pair { result ≡ said_pair_at vector.now place }
    ensures place { IfSome result (λ _. place < 2 ^ 64 - 1) }
{
    match vector {
        Some(vector) => pair_in(vector, place),
        None => None,
    }
}

/// The bytes of the body that a buffer's offset and length name.
#[tactic(auto, unfolding(crate::specs::Columns::span_of))]
fn span_of(body: &[u8], span: Pair) -> Option<&[u8]>
    ensures { option_map (λ bytes. bytes.now) result ≡ said_span body.now span }
{
    let offset = numbers::not_negative(span.first)?;
    let size = numbers::not_negative(span.second)?;
    if body.len() < offset || body.len() - offset < size {
        return None;
    }
    Some(&body[offset..][..size])
}

/// The buffer of a number.
#[tactic(auto, unfolding(crate::specs::Columns::buffer_at))]
pub(crate) fn buffer_at<'a>(
    spans: &Option<Vector>,
    body: &'a [u8],
    number: usize,
) -> Option<&'a [u8]>
    ensures buffer { option_map (λ bytes. bytes.now) result ≡ said_buffer spans.now body.now number }
    ensures number { IfSome result (λ _. number < 2 ^ 64 - 1) }
{
    let span = pair_at(spans, number)?;
    span_of(body, span)
}
