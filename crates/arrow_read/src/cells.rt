ghost use Rattle.std.specs.Prelude.{◌≡◌, ◌<◌, ◌^◌, ◌-◌, IfOk, option_map};
ghost use Rattle.arrow_read.specs.Columns.{bit_in as said_bit, is_present as says_present, text_between as said_between, text_at as said_text, utf8_at as said_utf8, value_in as said_value, cell as said_cell, text_value as said_text_value};

use crate::column::Column;
use crate::numbers::{not_negative, number_4, number_8};
use crate::text::utf8;
use cn_base::{OutOfMemory, Text};
use cn_types::{DataType, Value};
use std::alloc::Global;

/// The bit of a row, the least of each byte first (Arrow Columnar Format, "Validity bitmaps"). There is none past the end.
fn bit_in(bits: &[u8], row: usize) -> bool
    ensures { result ≡ said_bit bits.now row }
{
    match bits.get(row / 8) {
        Some(byte) => (*byte >> (row % 8)) & 1 == 1,
        None => false,
    }
}

/// Whether the cell of a row has a value.
pub(crate) fn is_present(validity: &[u8], row: usize) -> bool
    ensures { result ≡ says_present validity.now row }
{
    validity.is_empty() || bit_in(validity, row)
}

/// The bytes from one offset to another, if they lie in the texts.
#[tactic(auto, unfolding(crate::specs::Columns::text_between))]
fn text_between(texts: &[u8], first: i32, second: i32) -> Option<&[u8]>
    ensures { option_map (λ text. text.now) result ≡ said_between texts.now first second }
{
    let from = not_negative(i64::from(first))?;
    let to = not_negative(i64::from(second))?;
    if to < from || texts.len() < to {
        return None;
    }
    Some(&texts[from..][..to - from])
}

/// The text of a row: from its offset to the next (Arrow Columnar Format, "Variable-size binary layout").
#[tactic(auto, unfolding(crate::specs::Columns::text_at))]
pub(crate) fn text_at<'a>(offsets: &[u8], texts: &'a [u8], row: usize) -> Option<&'a [u8]>
    requires { row < 2 ^ 64 - 1 }
    ensures { option_map (λ text. text.now) result ≡ said_text offsets.now texts.now row }
{
    let from = number_4(offsets, row)?;
    let to = number_4(offsets, row + 1)?;
    text_between(texts, from, to)
}

/// The same, if it is UTF-8.
#[tactic(auto, unfolding(crate::specs::Columns::utf8_at))]
pub(crate) fn utf8_at<'a>(offsets: &[u8], texts: &'a [u8], row: usize) -> Option<&'a str>
    requires { row < 2 ^ 64 - 1 }
    ensures { option_map (λ text. text.now) result ≡ said_utf8 offsets.now texts.now row }
{
    utf8(text_at(offsets, texts, row)?)
}

/// A text, or null where there is none.
fn text_value(alloc: Global, text: Option<&str>) -> Result<Value, OutOfMemory>
    ensures { IfOk result (λ value. value ≡ said_text_value (option_map (λ bytes. bytes.now) text.entry)) }
{
    match text {
        Some(text) => Ok(Value::Text(Text::of(alloc, text)?)),
        None => Ok(Value::Null),
    }
}

/// The value that stands at a row.
#[tactic(auto, unfolding(crate::specs::Columns::value_in))]
fn value_in(alloc: Global, column: &Column, row: usize) -> Result<Value, OutOfMemory>
    requires { row < 2 ^ 64 - 1 }
    ensures { IfOk result (λ value. value ≡ said_value column.now row) }
{
    match column.kind {
        DataType::Boolean => Ok(Value::Boolean(bit_in(column.values, row))),
        DataType::Integer => Ok(Value::Integer(number_4(column.values, row).unwrap_or(0))),
        DataType::Long => Ok(Value::Long(number_8(column.values, row).unwrap_or(0))),
        DataType::Text => text_value(alloc, utf8_at(column.values, column.texts, row)),
        DataType::Date => Ok(Value::Date(number_4(column.values, row).unwrap_or(0))),
    }
}

/// A cell: null, or the value that stands there. What stands in a null's place isn't looked at.
#[tactic(auto, unfolding(crate::specs::Columns::cell))]
pub(crate) fn cell(alloc: Global, column: &Column, row: usize) -> Result<Value, OutOfMemory>
    requires { row < 2 ^ 64 - 1 }
    ensures { IfOk result (λ value. value ≡ said_cell column.now row) }
{
    if !is_present(column.validity, row) {
        return Ok(Value::Null);
    }
    value_in(alloc, column, row)
}
