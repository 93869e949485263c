ghost use Rattle.std.specs.Prelude.{◌≡◌, ◌≤◌, length};
ghost use Rattle.std.specs.Str.{chars};
ghost use Rattle.cn_types.specs.Fit.{HasDateInRange};
ghost use Rattle.plan_model.specs.Texts.{text_length, has_start, has_end, has_part, text_test};

use crate::arithmetic::low_integer;
use cn_base::Text;
use cn_types::Value;
use memchr::memmem;

/// `startswith`.
pub(crate) fn start_test(left: &Value, right: &Value) -> Value
    ensures value { result ≡ text_test has_start left.now right.now }
    ensures dated { HasDateInRange result }
{
    match (left, right) {
        (Value::Text(text), Value::Text(part)) => Value::Boolean(begins_with(text, part)),
        _ => Value::Null,
    }
}

/// `endswith`.
pub(crate) fn end_test(left: &Value, right: &Value) -> Value
    ensures value { result ≡ text_test has_end left.now right.now }
    ensures dated { HasDateInRange result }
{
    match (left, right) {
        (Value::Text(text), Value::Text(part)) => Value::Boolean(finishes_with(text, part)),
        _ => Value::Null,
    }
}

/// `contains`.
pub(crate) fn part_test(left: &Value, right: &Value) -> Value
    ensures value { result ≡ text_test has_part left.now right.now }
    ensures dated { HasDateInRange result }
{
    match (left, right) {
        (Value::Text(text), Value::Text(part)) => Value::Boolean(holds_part(text, part)),
        _ => Value::Null,
    }
}

fn begins_with(text: &Text, part: &Text) -> bool
    ensures { result ≡ has_start text.now part.now }
{
    let bytes = text.as_str().as_bytes();
    bytes.starts_with(part.as_str().as_bytes())
}

fn finishes_with(text: &Text, part: &Text) -> bool
    ensures { result ≡ has_end text.now part.now }
{
    let bytes = text.as_str().as_bytes();
    bytes.ends_with(part.as_str().as_bytes())
}

fn holds_part(text: &Text, part: &Text) -> bool
    ensures { result ≡ has_part text.now part.now }
{
    memmem::find(text.as_str().as_bytes(), part.as_str().as_bytes()).is_some()
}

/// `length`: the number of characters.
pub(crate) fn character_count(value: &Value) -> Value
    ensures value { result ≡ text_length value.now }
    ensures dated { HasDateInRange result }
{
    match value {
        Value::Text(text) => Value::Integer(low_integer(characters(text.as_str()) as i64)),
        _ => Value::Null,
    }
}

fn characters(text: &str) -> usize
    ensures value { result ≡ length (chars text.now) }
    ensures bound { result ≤ length text.now }
{
    text.chars().count()
}
