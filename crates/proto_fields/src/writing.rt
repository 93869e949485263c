ghost use Rattle.std.specs.Prelude.{◌≡◌, ◌≤◌, ◌++◌, Option, Some, None, OnOk, OnErr};
ghost use Rattle.proto_fields.specs.Spelling as spelling;
ghost use Rattle.proto_fields.specs.Spelling.{spell};

use cn_base::{Bytes, OutOfMemory, Text};
use proto_wire::{put_number, put_span};

/// Appends a scalar as a varint, or nothing at its default.
#[tactic(auto, unfolding(crate::specs::Spelling::spell))]
fn put_scalar(out: &mut Bytes, number: u32, value: u64) -> Result<(), OutOfMemory>
    requires low { 1 ≤ number }
    requires high { number ≤ 536870911 }
    ensures ok { OnOk result (out.new ≡ out.old ++ spell (spelling.scalar_fields number value)) }
    ensures err { OnErr result (out.new ≡ out.old) }
{
    if value == 0 {
        return Ok(());
    }
    put_number(out, number, value)
}

/// Appends an optional scalar as a varint where it is present, at its default too.
#[tactic(auto, unfolding(crate::specs::Spelling::spell))]
fn put_optional_scalar(out: &mut Bytes, number: u32, value: Option<u64>) -> Result<(), OutOfMemory>
    requires low { 1 ≤ number }
    requires high { number ≤ 536870911 }
    ensures ok { OnOk result
        (out.new ≡ out.old ++ spell (spelling.optional_scalar_fields number value)) }
    ensures err { OnErr result (out.new ≡ out.old) }
{
    match value {
        Some(value) => put_number(out, number, value),
        None => Ok(()),
    }
}

/// Appends an int32 or an enum, or nothing where it is 0. One below 0 is its two's complement of 64 bits. Where memory runs out, nothing is
/// changed.
pub fn put_int32(out: &mut Bytes, number: u32, value: i32) -> Result<(), OutOfMemory>
    requires low { 1 ≤ number }
    requires high { number ≤ 536870911 }
    ensures ok { OnOk result (out.new ≡ out.old ++ spell (spelling.int_fields number value)) }
    ensures err { OnErr result (out.new ≡ out.old) }
{
    put_scalar(out, number, i64::from(value).cast_unsigned())
}

/// Appends an int64, or nothing where it is 0. Where memory runs out, nothing is changed.
pub fn put_int64(out: &mut Bytes, number: u32, value: i64) -> Result<(), OutOfMemory>
    requires low { 1 ≤ number }
    requires high { number ≤ 536870911 }
    ensures ok { OnOk result (out.new ≡ out.old ++ spell (spelling.int_fields number value)) }
    ensures err { OnErr result (out.new ≡ out.old) }
{
    put_scalar(out, number, value.cast_unsigned())
}

/// Appends a bool, or nothing where it is false. Where memory runs out, nothing is changed.
pub fn put_bool(out: &mut Bytes, number: u32, value: bool) -> Result<(), OutOfMemory>
    requires low { 1 ≤ number }
    requires high { number ≤ 536870911 }
    ensures ok { OnOk result (out.new ≡ out.old ++ spell (spelling.bool_fields number value)) }
    ensures err { OnErr result (out.new ≡ out.old) }
{
    put_scalar(out, number, if value { 1 } else { 0 })
}

/// Appends an int32 or an enum where it is present. Where memory runs out, nothing is changed.
#[tactic(auto, unfolding(crate::specs::Spelling::spell))]
pub fn put_optional_int32(
    out: &mut Bytes,
    number: u32,
    value: Option<i32>,
) -> Result<(), OutOfMemory>
    requires low { 1 ≤ number }
    requires high { number ≤ 536870911 }
    ensures ok { OnOk result
        (out.new ≡ out.old ++ spell (spelling.optional_int_fields number value)) }
    ensures err { OnErr result (out.new ≡ out.old) }
{
    match value {
        Some(value) => put_optional_scalar(out, number, Some(i64::from(value).cast_unsigned())),
        None => Ok(()),
    }
}

/// Appends an int64 where it is present. Where memory runs out, nothing is changed.
#[tactic(auto, unfolding(crate::specs::Spelling::spell))]
pub fn put_optional_int64(
    out: &mut Bytes,
    number: u32,
    value: Option<i64>,
) -> Result<(), OutOfMemory>
    requires low { 1 ≤ number }
    requires high { number ≤ 536870911 }
    ensures ok { OnOk result
        (out.new ≡ out.old ++ spell (spelling.optional_int_fields number value)) }
    ensures err { OnErr result (out.new ≡ out.old) }
{
    match value {
        Some(value) => put_optional_scalar(out, number, Some(value.cast_unsigned())),
        None => Ok(()),
    }
}

/// Appends a bool where it is present. Where memory runs out, nothing is changed.
#[tactic(auto, unfolding(crate::specs::Spelling::spell))]
pub fn put_optional_bool(
    out: &mut Bytes,
    number: u32,
    value: Option<bool>,
) -> Result<(), OutOfMemory>
    requires low { 1 ≤ number }
    requires high { number ≤ 536870911 }
    ensures ok { OnOk result
        (out.new ≡ out.old ++ spell (spelling.optional_bool_fields number value)) }
    ensures err { OnErr result (out.new ≡ out.old) }
{
    match value {
        Some(true) => put_optional_scalar(out, number, Some(1)),
        Some(false) => put_optional_scalar(out, number, Some(0)),
        None => Ok(()),
    }
}

/// Appends a payload, empty or not: a set member of a oneof, an item of a repeated field, or a message by its spelling. Where memory runs
/// out, nothing is changed.
#[tactic(auto, unfolding(crate::specs::Spelling::spell))]
pub fn put_payload(out: &mut Bytes, number: u32, payload: &[u8]) -> Result<(), OutOfMemory>
    requires low { 1 ≤ number }
    requires high { number ≤ 536870911 }
    ensures ok { OnOk result
        (out.new ≡ out.old ++ spell (spelling.payload_fields number payload.now)) }
    ensures err { OnErr result (out.new ≡ out.old) }
{
    put_span(out, number, payload)
}

/// Appends a text, or nothing where it is empty. Where memory runs out, nothing is changed.
#[tactic(auto, unfolding(crate::specs::Spelling::spell))]
pub fn put_text(out: &mut Bytes, number: u32, text: &str) -> Result<(), OutOfMemory>
    requires low { 1 ≤ number }
    requires high { number ≤ 536870911 }
    ensures ok { OnOk result (out.new ≡ out.old ++ spell (spelling.text_fields number text.now)) }
    ensures err { OnErr result (out.new ≡ out.old) }
{
    if text.is_empty() {
        return Ok(());
    }
    put_span(out, number, text.as_bytes())
}

/// Appends a text where it is present, empty or not. Where memory runs out, nothing is changed.
#[tactic(auto, unfolding(crate::specs::Spelling::spell))]
pub fn put_optional_text(
    out: &mut Bytes,
    number: u32,
    text: &Option<Text>,
) -> Result<(), OutOfMemory>
    requires low { 1 ≤ number }
    requires high { number ≤ 536870911 }
    ensures ok { OnOk result
        (out.new ≡ out.old ++ spell (spelling.optional_payload_fields number text.now)) }
    ensures err { OnErr result (out.new ≡ out.old) }
{
    match text {
        Some(text) => put_span(out, number, text.as_str().as_bytes()),
        None => Ok(()),
    }
}

/// Appends plain bytes where they are present, empty or not. Where memory runs out, nothing is changed.
#[tactic(auto, unfolding(crate::specs::Spelling::spell))]
pub fn put_optional_bytes(
    out: &mut Bytes,
    number: u32,
    bytes: &Option<Bytes>,
) -> Result<(), OutOfMemory>
    requires low { 1 ≤ number }
    requires high { number ≤ 536870911 }
    ensures ok { OnOk result
        (out.new ≡ out.old ++ spell (spelling.optional_payload_fields number bytes.now)) }
    ensures err { OnErr result (out.new ≡ out.old) }
{
    match bytes {
        Some(bytes) => put_span(out, number, bytes.as_slice()),
        None => Ok(()),
    }
}
