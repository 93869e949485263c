ghost use Rattle.std.specs.Prelude.{◌≡◌, ◌+◌, ◌^◌, ◌<◌, ◌≤◌, List, Some, None, Ok, Err, length, All, IfOk, IfErr, OnOk, if◌then◌else◌};
ghost use Rattle.proto_wire.specs.Records.{IsWithin, PlacesWithin};
ghost use Rattle.proto_fields.specs.Fields.{records_in};
ghost use Rattle.proto_fields.specs.declared.fault.MessageFault.{MessageFault};
ghost use Rattle.std.specs.Str.{is_utf8};
ghost use Rattle.proto_fields.specs.Faults as spec;

use crate::table::payload_of;
use crate::{MessageFault, MessageKind, PayloadKind};
use cn_base::{List, OutOfMemory};
use proto_wire::{WireFault, WireField, WireValue, wire_fields};
use std::alloc::Global;

/// The records of the bytes, or their fault.
pub fn wire_records(
    alloc: Global,
    bytes: &[u8],
) -> Result<Result<List<WireField>, WireFault>, OutOfMemory>
    ensures exact { IfOk result (λ read. read ≡ records_in bytes.now) }
    ensures within { IfOk result (λ read. IfOk read (All (IsWithin (length bytes.now)))) }
    ensures place { IfOk result (λ read. IfErr read (spec.PlaceWithin (length bytes.now))) }
{
    match wire_fields(alloc, bytes) {
        Ok(fields) => Ok(Ok(fields)),
        Err(WireFault::Truncated { at }) => Ok(Err(WireFault::Truncated { at })),
        Err(WireFault::VarintTooLong { at }) => Ok(Err(WireFault::VarintTooLong { at })),
        Err(WireFault::BadTag { at }) => Ok(Err(WireFault::BadTag { at })),
        Err(WireFault::OutOfMemory) => Err(OutOfMemory),
    }
}

/// The levels of nesting that a message may have, its own among them.
const MOST_LEVELS: u32 = 200;

/// The fault of a message's records, placed in the outermost message, in which the message begins at `base`.
fn placed(base: usize, length: usize, fault: WireFault) -> WireFault
    requires room { base + length < 2 ^ 64 }
    requires within { spec.PlaceWithin length fault }
    ensures { result ≡ spec.placed base fault }
{
    match fault {
        WireFault::Truncated { at } => WireFault::Truncated { at: base + at },
        WireFault::VarintTooLong { at } => WireFault::VarintTooLong { at: base + at },
        WireFault::BadTag { at } => WireFault::BadTag { at: base + at },
        WireFault::OutOfMemory => WireFault::OutOfMemory,
    }
}

/// The fault of a text that begins at `place`.
fn text_fault(place: usize, payload: &[u8]) -> Option<MessageFault>
    ensures { result ≡ (if is_utf8 payload.now then None else Some (MessageFault.NotUtf8 place)) }
{
    match str::from_utf8(payload) {
        Ok(_) => None,
        Err(_) => Some(MessageFault::NotUtf8 { at: place }),
    }
}

/// The first fault of a payload that begins at `place`, with so many levels left for it.
#[cycle(faults)]
fn payload_fault(
    alloc: Global,
    levels: u32,
    kind: PayloadKind,
    place: usize,
    payload: &[u8],
) -> Result<Option<MessageFault>, OutOfMemory>
    requires { place + length payload.now < 2 ^ 64 }
    ensures { IfOk result
        (λ found. found ≡ spec.payload_fault (spec.first_fault levels) kind place payload.now) }
{
    match kind {
        PayloadKind::Message(inner) => message_fault(alloc, levels, inner, place, payload),
        PayloadKind::Text => Ok(text_fault(place, payload)),
        PayloadKind::Other => Ok(None),
    }
}

/// The first fault in a value of a message that begins at `base`.
#[cycle(faults)]
fn value_fault(
    alloc: Global,
    levels: u32,
    kind: PayloadKind,
    base: usize,
    bytes: &[u8],
    value: WireValue,
) -> Result<Option<MessageFault>, OutOfMemory>
    requires room { base + length bytes.now < 2 ^ 64 }
    requires within { PlacesWithin (length bytes.now) value }
    ensures { IfOk result
        (λ found. found ≡ spec.value_fault (spec.first_fault levels) base bytes.now kind value) }
{
    match value {
        WireValue::Span { start, end } => {
            payload_fault(alloc, levels, kind, base + start, &bytes[start..end])
        }
        WireValue::Varint(_) | WireValue::Eight(_) | WireValue::Four(_) => Ok(None),
    }
}

/// The first fault in these records of a message that begins at `base`.
#[cycle(faults)]
fn fault_among(
    alloc: Global,
    levels: u32,
    kind: MessageKind,
    base: usize,
    bytes: &[u8],
    fields: &[WireField],
) -> Result<Option<MessageFault>, OutOfMemory>
    requires room { base + length bytes.now < 2 ^ 64 }
    requires within { All (IsWithin (length bytes.now)) fields.now }
    ensures { IfOk result
        (λ found. found ≡ spec.fault_among (spec.first_fault levels) kind base bytes.now fields.now) }
{
    for field in fields {
        let payload = payload_of(kind, field.number);
        let found = value_fault(alloc, levels, payload, base, bytes, field.value)?;
        if found.is_some() {
            return Ok(found);
        }
    }
    Ok(None)
}

/// The first fault of a message that begins at `base`, with so many levels left for it, its own among them.
#[cycle(faults)]
fn message_fault(
    alloc: Global,
    levels: u32,
    kind: MessageKind,
    base: usize,
    bytes: &[u8],
) -> Result<Option<MessageFault>, OutOfMemory>
    requires { base + length bytes.now < 2 ^ 64 }
    ensures { IfOk result (λ found. found ≡ spec.first_fault levels kind base bytes.now) }
{
    if levels == 0 {
        return Ok(Some(MessageFault::TooDeep { at: base }));
    }
    match wire_records(alloc, bytes)? {
        Ok(fields) => fault_among(alloc, levels - 1, kind, base, bytes, fields.as_slice()),
        Err(fault) => Ok(Some(MessageFault::Wire(placed(base, bytes.len(), fault)))),
    }
}

/// Whether the bytes are a message of this kind: records, every text in it UTF-8, and every message in it sound, nested at most 200 deep,
/// where the message itself counts as 1. Payloads that a later member of a oneof replaces are looked at too.
///
/// The error is the first fault, a message's own before those of its payloads, with its place: `Wire`, `NotUtf8` or `TooDeep`.
/// `OutOfMemory` says nothing of the bytes.
pub fn find_fault(alloc: Global, kind: MessageKind, bytes: &[u8]) -> Result<(), MessageFault>
    ensures sound { OnOk result (spec.IsSound 200 kind bytes.now) }
    ensures fault { IfErr result (spec.IsCause 200 kind bytes.now) }
    // A sound message is found sound, and a fault is the answer.
    ensures accepted { spec.IsSound 200 kind bytes.now → spec.Gives result (Ok tt) }
    ensures first { spec.Tells result (spec.first_fault 200 kind 0 bytes.now) }
    ensures faulty { (cause : MessageFault) → spec.HasFault 200 kind 0 bytes.now cause → spec.Gives result (Err cause) }
{
    match message_fault(alloc, MOST_LEVELS, kind, 0, bytes)? {
        None => Ok(()),
        Some(fault) => Err(fault),
    }
}
