ghost use Rattle.std.specs.Prelude.{◌≡◌, ◌≤◌, ◌++◌, IfOk, OnOk};
ghost use Rattle.proto_fields.specs.Sizes.{size_of};
ghost use Rattle.proto_fields.specs.Spelling.{spell};
ghost use Rattle.proto_fields.specs.Views.{seen};
ghost use Rattle.expression_messages.specs.Messages.{messages_at, messages_fields};
ghost use Rattle.response_messages.specs.KeyValues.{key_value_of, key_value_fields};

use cn_base::{Copied, List, OutOfMemory, Text};
use expression_messages::put_message_head;
use proto_fields::{
    MessageWriter, Record, message_size, optional_text, optional_text_size, payloads, records,
    text_field, text_size,
};
use std::alloc::Global;

/// A key and its value (`base.proto`, KeyValue).
#[derive(Debug, Drop)]
pub struct KeyValue {
    pub key: Text,
    /// `None` where the key has no value, which isn't an empty value.
    pub value: Option<Text>,
}

impl Copied for KeyValue {
    fn copy(&self, alloc: Global) -> Result<KeyValue, OutOfMemory> {
        Ok(KeyValue {
            key: self.key.copy(alloc)?,
            value: self.value.copy(alloc)?,
        })
    }
}

/// The pair that a message's records hold.
pub fn key_value_from(alloc: Global, items: &[Record]) -> Result<KeyValue, OutOfMemory>
    ensures { IfOk result (λ pair. pair ≡ key_value_of (seen items.now)) }
{
    Ok(KeyValue {
        key: text_field(alloc, items, 1)?,
        value: optional_text(alloc, items, 2)?,
    })
}

/// The pairs of a repeated field of this number, in order.
pub fn pairs_from(
    alloc: Global,
    items: &[Record],
    number: u32,
) -> Result<List<KeyValue>, OutOfMemory>
    ensures { IfOk result (λ pairs. pairs ≡ messages_at key_value_of number (seen items.now)) }
{
    let mut pairs = List::new(alloc);
    for payload in payloads(alloc, items, number)?.as_slice() {
        let found = records(alloc, *payload)?;
        pairs.push(key_value_from(alloc, found.as_slice())?)?;
    }
    Ok(pairs)
}

/// Puts the pair's message before what stands. An absent value isn't written, an empty one is. Where memory runs out, nothing is promised of
/// what stands then.
#[tactic(auto, using(expression_messages::proofs::Written::stand_two))]
pub fn put_key_value(out: &mut MessageWriter, pair: &KeyValue) -> Result<(), OutOfMemory>
    ensures { OnOk result (out.new ≡ spell (key_value_fields pair.now) ++ out.old) }
{
    out.put_optional_text(2, &pair.value)?;
    out.put_text(1, pair.key.as_str())
}

/// Puts the pairs of a repeated field of this number before what stands. Where memory runs out, nothing is promised of what stands then.
pub fn put_pairs(
    out: &mut MessageWriter,
    number: u32,
    pairs: &[KeyValue],
) -> Result<(), OutOfMemory>
    requires low { 1 ≤ number }
    requires high { number ≤ 536870911 }
    ensures { OnOk result (out.new
        ≡ spell (messages_fields key_value_fields number pairs.now) ++ out.old) }
{
    for index in (0..pairs.len()).rev() {
        let end = out.len();
        put_key_value(out, &pairs[index])?;
        put_message_head(out, number, end)?;
    }
    Ok(())
}

/// How many bytes the pair's message takes; 2^64 - 1 where it is above that. It takes no memory.
#[tactic(auto, using(expression_messages::proofs::Measured::sized_two))]
pub fn key_value_size(pair: &KeyValue) -> u64
    ensures { result ≡ size_of (key_value_fields pair.now) }
{
    text_size(1, pair.key.as_str()).saturating_add(optional_text_size(2, &pair.value))
}

/// How many bytes the pairs of a repeated field of this number take; 2^64 - 1 where it is above that. It takes no memory.
pub fn pairs_size(number: u32, pairs: &[KeyValue]) -> u64
    requires low { 1 ≤ number }
    requires high { number ≤ 536870911 }
    ensures { result ≡ size_of (messages_fields key_value_fields number pairs.now) }
{
    let mut total = 0u64;
    for pair in pairs {
        total = total.saturating_add(message_size(number, key_value_size(pair)));
    }
    total
}
