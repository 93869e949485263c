ghost use Rattle.std.specs.Prelude.{◌≡◌, ◌++◌, All, IfOk, OnOk};
ghost use Rattle.std.specs.String.{string_bytes};
ghost use Rattle.cn_types.specs.Fit.{HasDateInRange};
ghost use Rattle.cn_types.specs.Printed.{printed, row_line, header_line, separator};
ghost use Rattle.cn_types.specs.PrintedLaws.{LinesTellRowsApart};

use crate::dates::push_date;
use crate::escaping::push_escaped;
use crate::{Row, Schema, Value};
use cn_base::{OutOfMemory, Text};
use std::alloc::Global;

/// The line of the column names: they are joined by TABs, with backslashes, TABs, LFs and CRs escaped, and LF ends the line.
pub fn header_text(alloc: Global, schema: &Schema) -> Result<Text, OutOfMemory>
    ensures { IfOk result (λ t. t ≡ header_line schema.now) }
{
    let mut out = String::new(alloc);
    for (place, field) in schema.0.as_slice().iter().enumerate() {
        push_separator(&mut out, place)?;
        push_escaped(&mut out, field.name.as_str())?;
    }
    out.push('\n')?;
    Ok(Text::from_string(out))
}

/// The line of a row, whose dates are from 0001-01-01 to 9999-12-31: its printed values are joined by TABs, and LF ends the line.
/// Numbers are decimal, dates YYYY-MM-DD, null is `\N`, and texts have backslashes, TABs, LFs and CRs escaped.
pub fn row_text(alloc: Global, row: &Row) -> Result<Text, OutOfMemory>
    requires { All HasDateInRange row.now.0 }
    ensures { IfOk result (λ t. t ≡ row_line row.now) }
{
    let mut out = String::new(alloc);
    for (place, value) in row.0.as_slice().iter().enumerate() {
        push_separator(&mut out, place)?;
        push_value(alloc, &mut out, value)?;
    }
    out.push('\n')?;
    Ok(Text::from_string(out))
}

/// Law: two rows of one schema that are printed alike are the same.
pub fn lines_tell_rows_apart()
    ensures { LinesTellRowsApart }
{}

fn push_separator(out: &mut String, place: usize) -> Result<(), OutOfMemory>
    ensures { OnOk result (string_bytes out.new ≡ string_bytes out.old ++ separator place) }
{
    if place > 0 {
        out.push('\t')?;
    }
    Ok(())
}

fn push_value(alloc: Global, out: &mut String, value: &Value) -> Result<(), OutOfMemory>
    requires { HasDateInRange value.now }
    ensures { OnOk result (string_bytes out.new ≡ string_bytes out.old ++ printed value.now) }
{
    match value {
        Value::Null => out.push_str("\\N"),
        Value::Boolean(true) => out.push_str("true"),
        Value::Boolean(false) => out.push_str("false"),
        Value::Integer(number) => out.push_str(number.to_string(alloc)?.as_str()),
        Value::Long(number) => out.push_str(number.to_string(alloc)?.as_str()),
        Value::Text(text) => push_escaped(out, text.as_str()),
        Value::Date(days) => push_date(alloc, out, *days),
    }
}
