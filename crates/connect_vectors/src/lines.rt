ghost use Rattle.std.specs.Prelude.{All};
ghost use Rattle.std.specs.Bool.{OnTrue};
ghost use Rattle.cn_types.specs.Fit.{HasDateInRange};

use cn_types::{DataType, Row, Schema, Value, header_text, row_text};
use std::alloc::{AllocError, Global};
use std::fmt::Write;

/// A printed line without its LF, each TAB shown as an arrow.
pub fn shown(alloc: Global, line: &str) -> Result<String, AllocError> {
    let line = line.strip_suffix("\n").unwrap_or(line);
    let mut out = String::new(alloc);
    for part in line.chars() {
        out.push(if part == '\t' { '→' } else { part })?;
    }
    Ok(out)
}

/// The name of a column's type.
pub fn type_name(kind: DataType) -> &'static str {
    match kind {
        DataType::Boolean => "boolean",
        DataType::Integer => "integer",
        DataType::Long => "long",
        DataType::Text => "string",
        DataType::Date => "date",
    }
}

/// The types of a schema in brackets, `!` behind each that isn't nullable, then the line of its names.
pub fn schema_text(alloc: Global, schema: &Schema) -> Result<String, AllocError> {
    let mut out = String::from_str(alloc, "[")?;
    for (place, field) in schema.0.as_slice().iter().enumerate() {
        if place > 0 {
            out.push(' ')?;
        }
        out.push_str(type_name(field.kind))?;
        if !field.nullable {
            out.push('!')?;
        }
    }
    let header = header_text(alloc, schema)?;
    let names = shown(alloc, header.as_str())?;
    write!(out, "] {names} |")?;
    Ok(out)
}

/// The line of a row, or that a date in it has no line.
pub fn row_shown(alloc: Global, row: &Row) -> Result<String, AllocError> {
    if !has_dates_in_range(row.0.as_slice()) {
        return String::from_str(alloc, "a date out of range");
    }
    let line = row_text(alloc, row)?;
    shown(alloc, line.as_str())
}

/// Whether every date of the values is from 0001-01-01 to 9999-12-31.
fn has_dates_in_range(values: &[Value]) -> bool
    ensures { OnTrue result (All HasDateInRange values.now) }
{
    values.iter().all(|value| match value {
        Value::Date(days) => -719_162 <= *days && *days <= 2_932_896,
        _ => true,
    })
}
