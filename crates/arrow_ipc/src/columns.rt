ghost use Rattle.std.specs.Prelude.{◌≡◌, ◌+◌, ◌^◌, ◌<◌, ◌≤◌, ◌++◌, not, length, map, sum_by, count_by, IfOk, OnOk};
ghost use Rattle.std.specs.List.{flat_map};
ghost use Rattle.cn_types.specs.Fit.{value_at};
ghost use Rattle.arrow_ipc.specs.Columns.{cells, has_value, truth, bytes_of_4, bytes_of_8, text_of, text_size, offsets, null_count};

use cn_base::OutOfMemory;
use cn_types::{Row, Value};
use std::alloc::Global;

/// Whether the row has a value in the column.
fn has_value(row: &Row, column: usize) -> bool
    ensures { result ≡ has_value (value_at column row.now) }
{
    match row.0.get(column) {
        None | Some(Value::Null) => false,
        Some(_) => true,
    }
}

/// The truth of a boolean. Nulls are zeros.
fn truth(row: &Row, column: usize) -> bool
    ensures { result ≡ truth (value_at column row.now) }
{
    match row.0.get(column) {
        Some(Value::Boolean(truth)) => *truth,
        _ => false,
    }
}

/// The bytes of an integer or a date. Nulls are zeros.
fn bytes_of_4(row: &Row, column: usize) -> [u8; 4]
    ensures { result ≡ bytes_of_4 (value_at column row.now) }
{
    match row.0.get(column) {
        Some(Value::Integer(number)) => number.to_le_bytes(),
        Some(Value::Date(days)) => days.to_le_bytes(),
        _ => [0; 4],
    }
}

/// The bytes of a long. Nulls are zeros.
fn bytes_of_8(row: &Row, column: usize) -> [u8; 8]
    ensures { result ≡ bytes_of_8 (value_at column row.now) }
{
    match row.0.get(column) {
        Some(Value::Long(number)) => number.to_le_bytes(),
        _ => [0; 8],
    }
}

/// A text. A null has no bytes.
fn text_of(row: &Row, column: usize) -> &str
    ensures { result.now ≡ text_of (value_at column row.now) }
{
    match row.0.get(column) {
        Some(Value::Text(text)) => text.as_str(),
        _ => "",
    }
}

/// How many cells of a column are null.
pub(crate) fn null_count(rows: &[Row], column: usize) -> usize
    ensures count { result ≡ null_count (cells column rows.now) }
    ensures few { result ≤ length rows.now }
{
    let mut count = 0;
    for row in rows {
        if !has_value(row, column) {
            count += 1;
        }
    }
    count
}

/// A bit for each cell: whether there is a value.
pub(crate) fn validity_bits(
    alloc: Global,
    rows: &[Row],
    column: usize,
) -> Result<Vec<bool>, OutOfMemory>
    ensures { IfOk result (λ bits. bits.items ≡ map has_value (cells column rows.now)) }
{
    let mut bits = Vec::with_capacity(alloc, rows.len())?;
    for row in rows {
        bits.push(has_value(row, column))?;
    }
    Ok(bits)
}

/// A bit for each cell: whether it is true.
pub(crate) fn truth_bits(
    alloc: Global,
    rows: &[Row],
    column: usize,
) -> Result<Vec<bool>, OutOfMemory>
    ensures { IfOk result (λ bits. bits.items ≡ map truth (cells column rows.now)) }
{
    let mut bits = Vec::with_capacity(alloc, rows.len())?;
    for row in rows {
        bits.push(truth(row, column))?;
    }
    Ok(bits)
}

/// Adds the 4 bytes of each integer or date.
pub(crate) fn write_4(out: &mut Vec<u8>, rows: &[Row], column: usize) -> Result<(), OutOfMemory>
    ensures { OnOk result (out.new.items ≡ out.old.items ++ flat_map bytes_of_4 (cells column rows.now)) }
{
    for row in rows {
        out.extend_from_slice(&bytes_of_4(row, column))?;
    }
    Ok(())
}

/// Adds the 8 bytes of each long.
pub(crate) fn write_8(out: &mut Vec<u8>, rows: &[Row], column: usize) -> Result<(), OutOfMemory>
    ensures { OnOk result (out.new.items ≡ out.old.items ++ flat_map bytes_of_8 (cells column rows.now)) }
{
    for row in rows {
        out.extend_from_slice(&bytes_of_8(row, column))?;
    }
    Ok(())
}

/// Adds where each text begins, and where the last one ends.
pub(crate) fn write_offsets(
    out: &mut Vec<u8>,
    rows: &[Row],
    column: usize,
) -> Result<(), OutOfMemory>
    requires { sum_by text_size (cells column rows.now) < 2 ^ 32 }
    ensures { OnOk result (out.new.items ≡ out.old.items ++ offsets 0 (cells column rows.now)) }
{
    let mut at = 0u32;
    for row in rows {
        out.extend_from_slice(&at.to_le_bytes())?;
        at += text_of(row, column).len() as u32;
    }
    out.extend_from_slice(&at.to_le_bytes())
}

/// Adds the texts, one after another.
pub(crate) fn write_texts(out: &mut Vec<u8>, rows: &[Row], column: usize) -> Result<(), OutOfMemory>
    ensures { OnOk result (out.new.items ≡ out.old.items ++ flat_map text_of (cells column rows.now)) }
{
    for row in rows {
        out.extend_from_slice(text_of(row, column).as_bytes())?;
    }
    Ok(())
}
