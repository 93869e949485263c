ghost use Rattle.std.specs.Prelude.{◌≡◌, IfOk, All, length, map};
ghost use Rattle.proto_wire.specs.Records.{IsWithin};
ghost use Rattle.proto_fields.specs.Fields.{field_in, fields_of};
ghost use Rattle.proto_fields.specs.Views.{field_of, seen};

use crate::finding::wire_records;
use cn_base::{List, OutOfMemory};
use proto_wire::{WireField, WireValue};
use std::alloc::Global;

/// What a record holds, by its wire type.
#[derive(Clone, Copy, Debug, PartialEq, Eq)]
pub enum Content<'a> {
    /// Wire type 0: a varint modulo 2^64.
    Number(u64),
    /// Wire type 1: eight bytes, the least significant first.
    Eight(u64),
    /// Wire type 2: the payload's bytes.
    Payload(&'a [u8]),
    /// Wire type 5: four bytes, the least significant first.
    Four(u32),
}

/// One record of a message, wherever it stands: its field number, from 1 to 536,870,911, and what it holds.
#[derive(Clone, Copy, Debug, PartialEq, Eq)]
pub struct Record<'a> {
    pub number: u32,
    pub content: Content<'a>,
}

/// A record of the bytes without its place.
fn record_in<'a>(bytes: &'a [u8], field: WireField) -> Record<'a>
    requires { IsWithin (length bytes.now) field }
    ensures { field_of result ≡ field_in bytes.now field }
{
    let content = match field.value {
        WireValue::Varint(value) => Content::Number(value),
        WireValue::Eight(value) => Content::Eight(value),
        WireValue::Span { start, end } => Content::Payload(&bytes[start..end]),
        WireValue::Four(value) => Content::Four(value),
    };
    Record {
        number: field.number,
        content,
    }
}

/// These records of the bytes without their places.
fn without_places<'a>(
    alloc: Global,
    bytes: &'a [u8],
    fields: &[WireField],
) -> Result<List<Record<'a>>, OutOfMemory>
    requires { All (IsWithin (length bytes.now)) fields.now }
    ensures { IfOk result (λ items. seen items ≡ map (field_in bytes.now) fields.now) }
{
    let mut items = List::new(alloc);
    for field in fields {
        items.push(record_in(bytes, *field))?;
    }
    Ok(items)
}

/// The records of a message, in order, without their places; none where the bytes have a fault. No payload is copied.
#[tactic(auto, unfolding(crate::specs::Fields::fields_of))]
pub fn records<'a>(alloc: Global, bytes: &'a [u8]) -> Result<List<Record<'a>>, OutOfMemory>
    ensures { IfOk result (λ items. seen items ≡ fields_of bytes.now) }
{
    match wire_records(alloc, bytes)? {
        Ok(fields) => without_places(alloc, bytes, fields.as_slice()),
        Err(_) => Ok(List::new(alloc)),
    }
}
