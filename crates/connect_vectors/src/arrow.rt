use crate::input::{bytes_of, first_word, unreadable};
use crate::lines::{row_shown, schema_text};
use arrow_read::{ArrowFault, Batches, read_stream};
use cn_types::{Row, Schema};
use std::alloc::{AllocError, Global};
use std::fmt::Write;

/// The schema and the rows of a stream with one batch (`one`) or any number (`any`), or its fault.
pub fn answer(alloc: Global, argument: &str) -> Result<String, AllocError> {
    let (want, digits) = first_word(argument);
    let want = match want {
        "one" => Batches::ExactlyOne,
        "any" => Batches::Any,
        _ => return unreadable(alloc),
    };
    let Some(bytes) = bytes_of(alloc, digits)? else {
        return unreadable(alloc);
    };
    match read_stream(alloc, bytes.as_slice(), want) {
        Ok((schema, rows)) => said(alloc, &schema, rows.as_slice()),
        Err(ArrowFault::OutOfMemory) => String::from_str(alloc, "OutOfMemory"),
        Err(fault) => format!(in alloc; "{fault:?}"),
    }
}

fn said(alloc: Global, schema: &Schema, rows: &[Row]) -> Result<String, AllocError> {
    let schema = schema_text(alloc, schema)?;
    let mut out = format!(in alloc; "ok {schema}")?;
    for row in rows {
        let line = row_shown(alloc, row)?;
        write!(out, " {line} |")?;
    }
    Ok(out)
}
