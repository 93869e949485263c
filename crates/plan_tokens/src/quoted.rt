ghost use Rattle.std.specs.Prelude.{◌≡◌, ◌≤◌, ◌<◌, ◌+◌, ◌⊎◌, ℕ, ℤ, length, drop, take, false, IfOk, IfSome, IsCharBoundary, slice_index, option_map};
ghost use Rattle.plan_tokens.specs.Tokens as tokens;

use crate::bytes::{byte_at, next_quote};
use crate::{Quotation, Token};
use cn_base::{OutOfMemory, Text};
use cn_types::{DataType, Value, ValueFault, value_of_text};
use std::alloc::Global;

/// What stands between a quote and the next one that isn't doubled, and how many bytes it takes with the closing quote.
pub fn read_quoted(
    alloc: Global,
    text: &str,
    from: usize,
    quote: u8,
) -> Result<Option<(Text, usize)>, OutOfMemory>
    requires ascii { (0 < quote) × (quote < 128) }
    requires boundary { IsCharBoundary text.now from }
    ensures read { IfOk result (λ found. found ≡ tokens.read_quoted quote false (drop from text.now)) }
    ensures boundary { IfOk result (λ found. IfSome found (λ read. IsCharBoundary text.now (from + read.1))) }
{
    let bytes = text.as_bytes();
    let mut out = String::new(alloc);
    let mut start = from;
    while start < bytes.len() {
        let end = next_quote(bytes, start, quote);
        if end >= bytes.len() {
            return Ok(None);
        }
        if byte_at(bytes, end + 1) != quote {
            out.push_str(&text[start..end])?;
            return Ok(Some((Text::from_string(out), end + 1 - from)));
        }
        out.push_str(&text[start..end + 1])?;
        start = end + 2;
    }
    Ok(None)
}

/// The day whose date the text is, where it is one.
pub fn day_of(alloc: Global, text: &str) -> Result<Option<i32>, OutOfMemory>
    ensures { IfOk result (λ day. day ≡ tokens.day_of text.now) }
{
    match value_of_text(alloc, DataType::Date, text) {
        Ok(Value::Date(day)) => Ok(Some(day)),
        Ok(Value::Null) => Ok(None),
        Ok(Value::Boolean(_)) => Ok(None),
        Ok(Value::Integer(_)) => Ok(None),
        Ok(Value::Long(_)) => Ok(None),
        Ok(Value::Text(_)) => Ok(None),
        Err(ValueFault::BadValue) => Ok(None),
        Err(ValueFault::OutOfMemory) => Err(OutOfMemory),
    }
}
