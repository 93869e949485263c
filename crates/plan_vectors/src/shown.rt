ghost use Rattle.std.specs.Prelude.{All};
ghost use Rattle.std.specs.Bool.{OnTrue};
ghost use Rattle.cn_types.specs.Fit.{HasDateInRange};

use cn_types::{DataType, Row, Schema, Value, header_text, row_text};
use plan_model::{Outcome, Save};
use std::alloc::{AllocError, Global};
use std::fmt::Write;

/// A printed line without its LF, each TAB shown as an arrow.
fn shown(alloc: Global, line: &str) -> Result<String, AllocError> {
    let line = line.strip_suffix("\n").unwrap_or(line);
    let mut out = String::new(alloc);
    for part in line.chars() {
        out.push(if part == '\t' { '→' } else { part })?;
    }
    Ok(out)
}

fn type_name(kind: DataType) -> &'static str {
    match kind {
        DataType::Boolean => "boolean",
        DataType::Integer => "integer",
        DataType::Long => "long",
        DataType::Text => "string",
        DataType::Date => "date",
    }
}

/// The columns of a schema, each with its name in quotes and its type, `!` behind one that isn't nullable.
pub fn columns_text(alloc: Global, schema: &Schema) -> Result<String, AllocError> {
    let mut out = String::new(alloc);
    for (place, field) in schema.0.as_slice().iter().enumerate() {
        let between = if place > 0 { ", " } else { "" };
        let name = field.name.as_str();
        let kind = type_name(field.kind);
        let mark = if field.nullable { "" } else { "!" };
        write!(out, "{between}\"{name}\" {kind}{mark}")?;
    }
    Ok(out)
}

/// Where rows are saved.
pub fn save_text(alloc: Global, save: &Save) -> Result<String, AllocError> {
    let name = save.name.as_str();
    let method = save.method;
    let mode = save.mode;
    format!(in alloc; "; save \"{name}\" method {method} mode {mode}")
}

/// What a plan gives: the types and names of its columns and then its rows, a line each; or the limit that a relation passes.
pub fn outcome_text(alloc: Global, outcome: &Outcome) -> Result<String, AllocError> {
    match outcome {
        Outcome::Rows(schema, rows) => rows_text(alloc, schema, rows.as_slice()),
        Outcome::TooManyRows { limit } => format!(in alloc; "  -> TOO_MANY_ROWS {limit}\n"),
        Outcome::RowTooLarge { limit } => format!(in alloc; "  -> ROW_TOO_LARGE {limit}\n"),
    }
}

fn rows_text(alloc: Global, schema: &Schema, rows: &[Row]) -> Result<String, AllocError> {
    let mut out = String::from_str(alloc, "  -> [")?;
    for (place, field) in schema.0.as_slice().iter().enumerate() {
        let between = if place > 0 { " " } else { "" };
        let kind = type_name(field.kind);
        let mark = if field.nullable { "" } else { "!" };
        write!(out, "{between}{kind}{mark}")?;
    }
    let header = header_text(alloc, schema)?;
    let names = shown(alloc, header.as_str())?;
    write!(out, "]\n  > {names}\n")?;
    for row in rows {
        let line = row_shown(alloc, row)?;
        write!(out, "  > {line}\n")?;
    }
    Ok(out)
}

/// The line of a row, or that a date in it has no line.
fn row_shown(alloc: Global, row: &Row) -> Result<String, AllocError> {
    if !has_dates_in_range(row.0.as_slice()) {
        return String::from_str(alloc, "a date out of range");
    }
    let line = row_text(alloc, row)?;
    shown(alloc, line.as_str())
}

/// Whether every date of the values is from 0001-01-01 to 9999-12-31.
fn has_dates_in_range(values: &[Value]) -> bool
    ensures { OnTrue result (All HasDateInRange values.now) }
{
    values.iter().all(|value| match value {
        Value::Date(days) => -719_162 <= *days && *days <= 2_932_896,
        _ => true,
    })
}
