use crate::input::{bytes_of, unreadable};
use proto_wire::{WireFault, WireField, WireValue, wire_fields};
use std::alloc::{AllocError, Global};
use std::fmt::Write;

/// The records of the bytes, each as `NUMBER@PLACE=VALUE`, or their fault.
pub fn answer(alloc: Global, argument: &str) -> Result<String, AllocError> {
    let Some(bytes) = bytes_of(alloc, argument)? else {
        return unreadable(alloc);
    };
    match wire_fields(alloc, bytes.as_slice()) {
        Ok(fields) => said(alloc, fields.as_slice()),
        Err(WireFault::OutOfMemory) => Err(AllocError),
        Err(fault) => format!(in alloc; "{fault:?}"),
    }
}

fn said(alloc: Global, fields: &[WireField]) -> Result<String, AllocError> {
    let mut out = String::from_str(alloc, "ok")?;
    if fields.is_empty() {
        out.push(' ')?;
    }
    for field in fields {
        let number = field.number;
        let at = field.at;
        write!(out, " {number}@{at}=")?;
        push_value(&mut out, field.value)?;
    }
    Ok(out)
}

fn push_value(out: &mut String, value: WireValue) -> Result<(), AllocError> {
    match value {
        WireValue::Varint(number) => write!(out, "varint:{number}"),
        WireValue::Eight(number) => write!(out, "eight:{number}"),
        WireValue::Four(number) => write!(out, "four:{number}"),
        WireValue::Span { start, end } => write!(out, "{start}..{end}"),
    }
}
