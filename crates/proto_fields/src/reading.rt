ghost use Rattle.std.specs.Prelude.{◌≡◌, List, map, flat_map, IfOk, option_map};
ghost use Rattle.std.specs.Str.Lossy.{utf8_lossy};
ghost use Rattle.proto_fields.specs.Fields.{fields_of};
ghost use Rattle.proto_fields.specs.Readings as read;
ghost use Rattle.proto_fields.specs.Views.{field_of, seen};

use crate::{Content, Record, records};
use cn_base::{Bytes, List, OutOfMemory, Text};
use std::alloc::Global;

/// The varint of a record of this number.
fn number_in(record: &Record, number: u32) -> Option<u64>
    ensures { result ≡ read.number_in number (field_of record.now) }
{
    match record.content {
        Content::Number(value) if record.number == number => Some(value),
        _ => None,
    }
}

/// The payload of a record of this number.
fn payload_in<'a>(record: &Record<'a>, number: u32) -> Option<&'a [u8]>
    ensures { option_map (λ payload. payload.now) result ≡ read.payload_in number (field_of record.now) }
{
    match record.content {
        Content::Payload(payload) if record.number == number => Some(payload),
        _ => None,
    }
}

/// The last varint of this number ("Last One Wins").
pub fn last_number(records: &[Record], number: u32) -> Option<u64>
    ensures { result ≡ read.last_number number (seen records.now) }
{
    let mut last = None;
    for record in records {
        last = number_in(record, number).or(last);
    }
    last
}

/// An optional int32 or enum: the low 32 bits of the last varint, as a two's complement.
pub fn optional_int32(records: &[Record], number: u32) -> Option<i32>
    ensures { result ≡ read.optional_int32 number (seen records.now) }
{
    match last_number(records, number) {
        Some(value) => Some(((value % (1 << 32)) as u32).cast_signed()),
        None => None,
    }
}

/// An optional int64: the last varint, as a two's complement.
pub fn optional_int64(records: &[Record], number: u32) -> Option<i64>
    ensures { result ≡ read.optional_int64 number (seen records.now) }
{
    match last_number(records, number) {
        Some(value) => Some(value.cast_signed()),
        None => None,
    }
}

/// An optional bool, which is true where any bit of the last varint is set.
pub fn optional_bool(records: &[Record], number: u32) -> Option<bool>
    ensures { result ≡ read.optional_bool number (seen records.now) }
{
    match last_number(records, number) {
        Some(value) => Some(value != 0),
        None => None,
    }
}

/// An int32 or enum, 0 where no record has it.
pub fn int32_field(records: &[Record], number: u32) -> i32
    ensures { result ≡ read.int32_field number (seen records.now) }
{
    optional_int32(records, number).unwrap_or(0)
}

/// An int64, 0 where no record has it.
pub fn int64_field(records: &[Record], number: u32) -> i64
    ensures { result ≡ read.int64_field number (seen records.now) }
{
    optional_int64(records, number).unwrap_or(0)
}

/// A bool, false where no record has it.
pub fn bool_field(records: &[Record], number: u32) -> bool
    ensures { result ≡ read.bool_field number (seen records.now) }
{
    optional_bool(records, number).unwrap_or(false)
}

/// The payloads of this number, in order: those of a repeated field. None is copied.
pub fn payloads<'a>(
    alloc: Global,
    records: &[Record<'a>],
    number: u32,
) -> Result<List<&'a [u8]>, OutOfMemory>
    ensures { IfOk result
        (λ found. map (λ payload. payload.now) found ≡ read.payloads number (seen records.now)) }
{
    let mut found = List::new(alloc);
    for record in records {
        if let Some(payload) = payload_in(record, number) {
            found.push(payload)?;
        }
    }
    Ok(found)
}

/// The last payload of this number: that of a singular text or of plain bytes ("Last One Wins").
pub fn last_payload<'a>(records: &[Record<'a>], number: u32) -> Option<&'a [u8]>
    ensures { option_map (λ payload. payload.now) result ≡ read.last_payload number (seen records.now) }
{
    let mut last = None;
    for record in records {
        last = payload_in(record, number).or(last);
    }
    last
}

/// A payload as a text, in which what is no UTF-8 is replaced.
fn text_of(alloc: Global, payload: &[u8]) -> Result<Text, OutOfMemory>
    ensures { IfOk result (λ text. text ≡ utf8_lossy payload.now) }
{
    Ok(Text::from_string(String::from_utf8_lossy(alloc, payload)?))
}

/// An optional text. In a sound message it is the last payload; elsewhere what is no UTF-8 in it is replaced.
pub fn optional_text(
    alloc: Global,
    records: &[Record],
    number: u32,
) -> Result<Option<Text>, OutOfMemory>
    ensures { IfOk result (λ text. text ≡ read.optional_text number (seen records.now)) }
{
    match last_payload(records, number) {
        Some(payload) => Ok(Some(text_of(alloc, payload)?)),
        None => Ok(None),
    }
}

/// A text, empty where no record has it.
pub fn text_field(alloc: Global, records: &[Record], number: u32) -> Result<Text, OutOfMemory>
    ensures { IfOk result (λ text. text ≡ read.text_field number (seen records.now)) }
{
    match last_payload(records, number) {
        Some(payload) => text_of(alloc, payload),
        None => Ok(Text::new(alloc)),
    }
}

/// The texts of a repeated field, in order.
pub fn texts(alloc: Global, records: &[Record], number: u32) -> Result<List<Text>, OutOfMemory>
    ensures { IfOk result (λ found. found ≡ read.texts number (seen records.now)) }
{
    let mut found = List::new(alloc);
    for payload in payloads(alloc, records, number)?.as_slice() {
        found.push(text_of(alloc, payload)?)?;
    }
    Ok(found)
}

/// Optional plain bytes: a copy of the last payload.
pub fn optional_bytes(
    alloc: Global,
    records: &[Record],
    number: u32,
) -> Result<Option<Bytes>, OutOfMemory>
    ensures { IfOk result (λ bytes. bytes ≡ read.last_payload number (seen records.now)) }
{
    match last_payload(records, number) {
        Some(payload) => Ok(Some(Bytes::of(alloc, payload)?)),
        None => Ok(None),
    }
}

/// The records of a singular message: those of all its payloads, one after another; none where there is no payload. No payload is copied.
pub fn merged<'a>(
    alloc: Global,
    items: &[Record<'a>],
    number: u32,
) -> Result<Option<List<Record<'a>>>, OutOfMemory>
    ensures { IfOk result (λ found. option_map seen found ≡ read.merged number (seen items.now)) }
{
    let payloads = payloads(alloc, items, number)?;
    if payloads.is_empty() {
        return Ok(None);
    }
    Ok(Some(joined(alloc, payloads.as_slice())?))
}

/// The records of these payloads, one after another.
fn joined<'a>(alloc: Global, payloads: &[&'a [u8]]) -> Result<List<Record<'a>>, OutOfMemory>
    ensures { IfOk result
        (λ found. seen found ≡ flat_map fields_of (map (λ payload. payload.now) payloads.now)) }
{
    let mut all = List::new(alloc);
    for payload in payloads {
        all.append(records(alloc, *payload)?)?;
    }
    Ok(all)
}
