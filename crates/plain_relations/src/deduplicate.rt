ghost use Rattle.std.specs.Prelude.{◌≡◌, ◌++◌, IfOk, OnOk};
ghost use Rattle.proto_fields.specs.Sizes.{size_of};
ghost use Rattle.proto_fields.specs.Spelling.{spell};
ghost use Rattle.proto_fields.specs.Views.{seen};
ghost use Rattle.plain_relations.specs.Plain as plain;
ghost use Rattle.plain_relations.specs.Spelled as spelled;

use cn_base::{Boxed, Copied, List, OutOfMemory, Text};
use expression_messages::{put_texts, texts_size};
use proto_fields::{MessageWriter, Record, optional_bool, optional_bool_size, texts};
use std::alloc::Global;

/// A row for each different key (`relations.proto`, Deduplicate).
#[derive(Debug, Drop)]
pub struct Deduplicate<R> {
    /// `Other(0)` where no relation is there.
    pub input: Boxed<R>,
    pub column_names: List<Text>,
    pub all_columns_as_keys: Option<bool>,
}

impl<R: Copied + Drop> Copied for Deduplicate<R> {
    fn copy(&self, alloc: Global) -> Result<Deduplicate<R>, OutOfMemory> {
        deduplicate_like(alloc, self, self.input.get().copy(alloc)?)
    }
}

/// The keys of this input that a message's records hold.
pub fn deduplicate_over<R: Drop>(
    alloc: Global,
    items: &[Record],
    input: R,
) -> Result<Deduplicate<R>, OutOfMemory>
    ensures { IfOk result (λ it. it ≡ plain.deduplicate_of input (seen items.now)) }
{
    Ok(Deduplicate {
        input: Boxed::new(alloc, input)?,
        column_names: texts(alloc, items, 2)?,
        all_columns_as_keys: optional_bool(items, 3),
    })
}

/// The same keys of another input.
pub fn deduplicate_like<R, S: Drop>(
    alloc: Global,
    it: &Deduplicate<R>,
    input: S,
) -> Result<Deduplicate<S>, OutOfMemory>
    ensures { IfOk result (λ copied. copied ≡ record {
      input = input;
      column_names = it.now.column_names;
      all_columns_as_keys = it.now.all_columns_as_keys;
    }) }
{
    Ok(Deduplicate {
        input: Boxed::new(alloc, input)?,
        column_names: it.column_names.copy(alloc)?,
        all_columns_as_keys: it.all_columns_as_keys,
    })
}

/// Puts the message's fields besides its input before what stands. Where memory runs out, nothing is promised of what stands then.
#[tactic(auto, using(expression_messages::proofs::Written::stand_two))]
pub fn put_deduplicate_rest<R>(
    out: &mut MessageWriter,
    it: &Deduplicate<R>,
) -> Result<(), OutOfMemory>
    ensures { OnOk result (out.new ≡ spell (spelled.deduplicate_rest it.now) ++ out.old) }
{
    out.put_optional_bool(3, it.all_columns_as_keys)?;
    put_texts(out, 2, it.column_names.as_slice())
}

/// How many bytes the message's fields besides its input take; 2^64 - 1 where it is above that. It takes no memory.
#[tactic(auto, using(expression_messages::proofs::Measured::sized_two))]
pub fn deduplicate_rest_size<R>(it: &Deduplicate<R>) -> u64
    ensures { result ≡ size_of (spelled.deduplicate_rest it.now) }
{
    let names = texts_size(2, it.column_names.as_slice());
    names.saturating_add(optional_bool_size(3, it.all_columns_as_keys))
}
