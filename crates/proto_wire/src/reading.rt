ghost use Rattle.std.specs.Prelude.{◌≡◌, ◌<◌, ◌≤◌, List, length, Ok, Err, All, IfOk, IfErr};
ghost use Rattle.proto_wire.specs.Records.{Records, IsWithin};
ghost use Rattle.proto_wire.specs.Faults.{WireFaulty, IsCaused, Gives};
ghost use Rattle.proto_wire.specs.Reading as read;

use crate::wire_type::{WireType, type_of_number};
use crate::{WireFault, WireField, WireValue};
use cn_base::List;
use std::alloc::Global;

/// The greatest field number ("Message Structure").
const LAST_NUMBER: u64 = 536_870_911;

/// The longest varint, in bytes ("Base 128 Varints").
const VARINT_BYTES: usize = 10;

/// The varint at a place, modulo 2^64, and the place after it.
fn varint_at(bytes: &[u8], at: usize) -> Result<(u64, usize), WireFault>
    requires { at ≤ length bytes.now }
    ensures exact { result ≡ read.varint_at bytes.now at }
    ensures within { IfOk result (λ r. (at < r.1) × (r.1 ≤ length bytes.now)) }
{
    let mut value = 0u64;
    for index in 0..VARINT_BYTES {
        let Some(&byte) = bytes.get(at + index) else {
            return Err(WireFault::Truncated { at: bytes.len() });
        };
        let group = u64::from(byte % 128);
        value = value.wrapping_add(group << (7 * index));
        if byte < 128 {
            return Ok((value, at + index + 1));
        }
    }
    Err(WireFault::VarintTooLong { at })
}

/// The field number and the wire type of a tag that stands at a place.
#[tactic(auto, unfolding(crate::specs::Reading::tag_of))]
fn tag_of(at: usize, tag: u64) -> Result<(u32, WireType), WireFault>
    ensures { result ≡ read.tag_of at tag }
{
    let number = tag / 8;
    if number < 1 || number > LAST_NUMBER {
        return Err(WireFault::BadTag { at });
    }
    match type_of_number(tag % 8) {
        Some(kind) => Ok((number as u32, kind)),
        None => Err(WireFault::BadTag { at }),
    }
}

/// The payload of so many bytes from a place on, and the place after it.
#[tactic(auto, unfolding(crate::specs::Reading::span_at))]
fn span_at(bytes: &[u8], start: usize, count: u64) -> Result<(WireValue, usize), WireFault>
    requires { start ≤ length bytes.now }
    ensures exact { result ≡ read.span_at bytes.now start count }
    ensures within { IfOk result (λ r. (start ≤ r.1) × (r.1 ≤ length bytes.now)) }
{
    let count = count as usize;
    if bytes.len() - start < count {
        return Err(WireFault::Truncated { at: bytes.len() });
    }
    let end = start + count;
    Ok((WireValue::Span { start, end }, end))
}

/// The eight bytes at a place as a number, and the place after them.
#[tactic(auto, unfolding(crate::specs::Reading::value_at))]
fn eight_at(bytes: &[u8], at: usize) -> Result<(WireValue, usize), WireFault>
    requires { at ≤ length bytes.now }
    ensures exact { result ≡ read.value_at bytes.now at WireType.Fixed64 }
    ensures within { IfOk result (λ r. (at ≤ r.1) × (r.1 ≤ length bytes.now)) }
{
    if bytes.len() - at < 8 {
        return Err(WireFault::Truncated { at: bytes.len() });
    }
    let b = &bytes[at..at + 8];
    let number = u64::from_le_bytes([b[0], b[1], b[2], b[3], b[4], b[5], b[6], b[7]]);
    Ok((WireValue::Eight(number), at + 8))
}

/// The four bytes at a place as a number, and the place after them.
#[tactic(auto, unfolding(crate::specs::Reading::value_at))]
fn four_at(bytes: &[u8], at: usize) -> Result<(WireValue, usize), WireFault>
    requires { at ≤ length bytes.now }
    ensures exact { result ≡ read.value_at bytes.now at WireType.Fixed32 }
    ensures within { IfOk result (λ r. (at ≤ r.1) × (r.1 ≤ length bytes.now)) }
{
    if bytes.len() - at < 4 {
        return Err(WireFault::Truncated { at: bytes.len() });
    }
    let b = &bytes[at..at + 4];
    let number = u32::from_le_bytes([b[0], b[1], b[2], b[3]]);
    Ok((WireValue::Four(number), at + 4))
}

/// The value of a wire type at a place, and the place after it.
#[tactic(auto, unfolding(crate::specs::Reading::value_at))]
fn value_at(bytes: &[u8], at: usize, kind: WireType) -> Result<(WireValue, usize), WireFault>
    requires { at ≤ length bytes.now }
    ensures exact { result ≡ read.value_at bytes.now at kind }
    ensures within { IfOk result (λ r. (at ≤ r.1) × (r.1 ≤ length bytes.now)) }
{
    match kind {
        WireType::Base128 => {
            let (number, end) = varint_at(bytes, at)?;
            Ok((WireValue::Varint(number), end))
        }
        WireType::Fixed64 => eight_at(bytes, at),
        WireType::Delimited => {
            let (count, start) = varint_at(bytes, at)?;
            span_at(bytes, start, count)
        }
        WireType::Fixed32 => four_at(bytes, at),
    }
}

/// The record at a place, and the place after it.
#[tactic(auto, unfolding(crate::specs::Reading::field_at))]
fn field_at(bytes: &[u8], at: usize) -> Result<(WireField, usize), WireFault>
    requires { at ≤ length bytes.now }
    ensures exact { result ≡ read.field_at bytes.now at }
    ensures within { IfOk result (λ r. (at < r.1) × (r.1 ≤ length bytes.now)) }
{
    let (tag, after) = varint_at(bytes, at)?;
    let (number, kind) = tag_of(at, tag)?;
    let (value, end) = value_at(bytes, after, kind)?;
    Ok((WireField { number, at, value }, end))
}

/// The records of a message, in order ("Message Structure"). A span names its payload by its places, and no payload is read or copied:
/// the memory grows with the count of records alone.
///
/// The error is the first fault of the bytes in byte order, with its place: `BadTag`, `VarintTooLong` or `Truncated`. `OutOfMemory` says
/// nothing of the bytes.
pub fn wire_fields(alloc: Global, bytes: &[u8]) -> Result<List<WireField>, WireFault>
    // What is found is all of the bytes, record by record.
    ensures found { IfOk result (λ fields. Records bytes.now fields) }
    // Field numbers are in range, and all places lie within the bytes.
    ensures within { IfOk result (All (IsWithin (length bytes.now))) }
    // Each fault comes only where the bytes have it.
    ensures fault { IfErr result (λ fault. IsCaused bytes.now fault) }
    // Where the bytes are records, these are found; where they have a fault, it is the answer.
    ensures records { (fields : List WireField) → Records bytes.now fields → Gives result (Ok fields) }
    ensures faulty { (cause : WireFault) → WireFaulty bytes.now cause → Gives result (Err cause) }
{
    let mut fields = List::new(alloc);
    let mut at = 0;
    while at < bytes.len() {
        let (field, end) = field_at(bytes, at)?;
        fields.push(field)?;
        at = end;
    }
    Ok(fields)
}
