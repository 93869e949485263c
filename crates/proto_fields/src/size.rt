ghost use Rattle.std.specs.Prelude.{◌≡◌, ◌≤◌, ℕ, List, length};
ghost use Rattle.proto_wire.specs.Records.{span_head};
ghost use Rattle.proto_fields.specs.Spelling as spelling;
ghost use Rattle.proto_fields.specs.Fields.{Field};
ghost use Rattle.proto_fields.specs.Spelling.{spell};
ghost use Rattle.proto_fields.specs.Sizes.{size_of};

use cn_base::{Bytes, Text};
use proto_wire::varint_length;

/// How many bytes a tag and a varint take.
#[tactic(auto, unfolding(crate::specs::Spelling::spell))]
fn record_length(number: u32, value: u64) -> u64
    requires low { 1 ≤ number }
    requires high { number ≤ 536870911 }
    ensures exact { result ≡ length (spell (spelling.number_fields number value)) }
    ensures few { result ≤ 20 }
{
    (varint_length(u64::from(number) * 8) + varint_length(value)) as u64
}

/// How many bytes a varint takes with its tag.
#[tactic(auto, using(crate::proofs::SizeLemmas::size_of_few))]
fn number_size(number: u32, value: u64) -> u64
    requires low { 1 ≤ number }
    requires high { number ≤ 536870911 }
    ensures exact { result ≡ length (spell (spelling.number_fields number value)) }
    ensures size { result ≡ size_of (spelling.number_fields number value) }
    ensures few { result ≤ 20 }
{
    record_length(number, value)
}

/// How many bytes an int32, an int64 or an enum takes with its tag: none where it is 0. It takes no memory.
#[tactic(auto, unfolding(crate::specs::Spelling::spell, crate::specs::Sizes::size_of))]
pub fn int_size(number: u32, value: i64) -> u64
    requires low { 1 ≤ number }
    requires high { number ≤ 536870911 }
    ensures exact { result ≡ length (spell (spelling.int_fields number value)) }
    ensures size { result ≡ size_of (spelling.int_fields number value) }
    ensures few { result ≤ 20 }
{
    if value == 0 {
        0
    } else {
        number_size(number, value.cast_unsigned())
    }
}

/// How many bytes an optional int64 takes with its tag. It takes no memory.
#[tactic(auto, unfolding(crate::specs::Spelling::spell, crate::specs::Sizes::size_of))]
pub fn optional_int64_size(number: u32, value: Option<i64>) -> u64
    requires low { 1 ≤ number }
    requires high { number ≤ 536870911 }
    ensures exact { result ≡ length (spell (spelling.optional_int_fields number value)) }
    ensures size { result ≡ size_of (spelling.optional_int_fields number value) }
    ensures few { result ≤ 20 }
{
    match value {
        Some(value) => number_size(number, value.cast_unsigned()),
        None => 0,
    }
}

/// How many bytes an optional int32 or enum takes with its tag. It takes no memory.
#[tactic(auto, unfolding(crate::specs::Spelling::spell, crate::specs::Sizes::size_of))]
pub fn optional_int32_size(number: u32, value: Option<i32>) -> u64
    requires low { 1 ≤ number }
    requires high { number ≤ 536870911 }
    ensures exact { result ≡ length (spell (spelling.optional_int_fields number value)) }
    ensures size { result ≡ size_of (spelling.optional_int_fields number value) }
    ensures few { result ≤ 20 }
{
    match value {
        Some(value) => number_size(number, i64::from(value).cast_unsigned()),
        None => 0,
    }
}

/// How many bytes the tag and the length of a payload take, where the payload has this length. It takes no memory.
pub fn head_size(number: u32, payload: u64) -> u64
    requires low { 1 ≤ number }
    requires high { number ≤ 536870911 }
    ensures exact { result ≡ length (span_head number payload) }
    ensures few { result ≤ 20 }
{
    (varint_length(u64::from(number) * 8 + 2) + varint_length(payload)) as u64
}

/// How many bytes a bool takes with its tag: none where it is false. It takes no memory.
#[tactic(auto, unfolding(crate::specs::Spelling::spell, crate::specs::Sizes::size_of))]
pub fn bool_size(number: u32, value: bool) -> u64
    requires low { 1 ≤ number }
    requires high { number ≤ 536870911 }
    ensures exact { result ≡ length (spell (spelling.bool_fields number value)) }
    ensures size { result ≡ size_of (spelling.bool_fields number value) }
    ensures few { result ≤ 20 }
{
    if value { number_size(number, 1) } else { 0 }
}

/// How many bytes an optional bool takes with its tag. It takes no memory.
#[tactic(auto, unfolding(crate::specs::Spelling::spell, crate::specs::Sizes::size_of))]
pub fn optional_bool_size(number: u32, value: Option<bool>) -> u64
    requires low { 1 ≤ number }
    requires high { number ≤ 536870911 }
    ensures exact { result ≡ length (spell (spelling.optional_bool_fields number value)) }
    ensures size { result ≡ size_of (spelling.optional_bool_fields number value) }
    ensures few { result ≤ 20 }
{
    match value {
        Some(true) => number_size(number, 1),
        Some(false) => number_size(number, 0),
        None => 0,
    }
}

/// How many bytes a payload takes with its tag and its length, where it has `bytes` bytes: a text or plain bytes that are a set member of a
/// oneof or an item of a repeated field. 2^64 - 1 where it is above that. It takes no memory.
#[tactic(auto, using(crate::proofs::SizeLemmas::payload_sized))]
pub fn payload_size(number: u32, bytes: usize) -> u64
    requires low { 1 ≤ number }
    requires high { number ≤ 536870911 }
    ensures { (payload : List ℕ) → length payload ≡ bytes → result ≡ size_of (spelling.payload_fields number payload) }
{
    let bytes = bytes as u64;
    head_size(number, bytes).saturating_add(bytes)
}

/// How many bytes a message takes with its tag and its length, where its own fields take `size`. 2^64 - 1 where it is above that. It takes no
/// memory.
#[tactic(auto, using(crate::proofs::SizeLemmas::message_sized))]
pub fn message_size(number: u32, size: u64) -> u64
    requires low { 1 ≤ number }
    requires high { number ≤ 536870911 }
    ensures { (fields : List Field) → size ≡ size_of fields → result ≡ size_of (spelling.payload_fields number (spell fields)) }
{
    head_size(number, size).saturating_add(size)
}

/// How many bytes a text takes with its tag and its length: none where it is empty. 2^64 - 1 where it is above that. It takes no memory.
#[tactic(auto, unfolding(crate::specs::Spelling::spell, crate::specs::Sizes::size_of))]
pub fn text_size(number: u32, text: &str) -> u64
    requires low { 1 ≤ number }
    requires high { number ≤ 536870911 }
    ensures { result ≡ size_of (spelling.text_fields number text.now) }
{
    if text.is_empty() {
        0
    } else {
        payload_size(number, text.len())
    }
}

/// How many bytes an optional text takes with its tag and its length. 2^64 - 1 where it is above that. It takes no memory.
#[tactic(auto, unfolding(crate::specs::Spelling::spell, crate::specs::Sizes::size_of))]
pub fn optional_text_size(number: u32, text: &Option<Text>) -> u64
    requires low { 1 ≤ number }
    requires high { number ≤ 536870911 }
    ensures { result ≡ size_of (spelling.optional_payload_fields number text.now) }
{
    match text {
        Some(text) => payload_size(number, text.as_str().len()),
        None => 0,
    }
}

/// How many bytes optional plain bytes take with their tag and their length. 2^64 - 1 where it is above that. It takes no memory.
#[tactic(auto, unfolding(crate::specs::Spelling::spell, crate::specs::Sizes::size_of))]
pub fn optional_bytes_size(number: u32, bytes: &Option<Bytes>) -> u64
    requires low { 1 ≤ number }
    requires high { number ≤ 536870911 }
    ensures { result ≡ size_of (spelling.optional_payload_fields number bytes.now) }
{
    match bytes {
        Some(bytes) => payload_size(number, bytes.len()),
        None => 0,
    }
}
