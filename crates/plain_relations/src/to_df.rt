ghost use Rattle.std.specs.Prelude.{◌≡◌, ◌++◌, IfOk, OnOk};
ghost use Rattle.proto_fields.specs.Sizes.{size_of};
ghost use Rattle.proto_fields.specs.Spelling.{spell};
ghost use Rattle.proto_fields.specs.Views.{seen};
ghost use Rattle.plain_relations.specs.Plain as plain;
ghost use Rattle.plain_relations.specs.Spelled as spelled;

use cn_base::{Boxed, Copied, List, OutOfMemory, Text};
use expression_messages::{put_texts, texts_size};
use proto_fields::{MessageWriter, Record, texts};
use std::alloc::Global;

/// A relation whose columns have these names (`relations.proto`, ToDF).
#[derive(Debug, Drop)]
pub struct ToDf<R> {
    /// `Other(0)` where no relation is there.
    pub input: Boxed<R>,
    pub column_names: List<Text>,
}

impl<R: Copied + Drop> Copied for ToDf<R> {
    fn copy(&self, alloc: Global) -> Result<ToDf<R>, OutOfMemory> {
        to_df_like(alloc, self, self.input.get().copy(alloc)?)
    }
}

/// The names of this input's columns that a message's records hold.
pub fn to_df_over<R: Drop>(
    alloc: Global,
    items: &[Record],
    input: R,
) -> Result<ToDf<R>, OutOfMemory>
    ensures { IfOk result (λ it. it ≡ plain.to_df_of input (seen items.now)) }
{
    Ok(ToDf {
        input: Boxed::new(alloc, input)?,
        column_names: texts(alloc, items, 2)?,
    })
}

/// The same names of another input's columns.
pub fn to_df_like<R, S: Drop>(alloc: Global, it: &ToDf<R>, input: S) -> Result<ToDf<S>, OutOfMemory>
    ensures { IfOk result (λ copied. copied ≡ record { input = input; column_names = it.now.column_names }) }
{
    Ok(ToDf {
        input: Boxed::new(alloc, input)?,
        column_names: it.column_names.copy(alloc)?,
    })
}

/// Puts the message's fields besides its input before what stands. Where memory runs out, nothing is promised of what stands then.
pub fn put_to_df_rest<R>(out: &mut MessageWriter, it: &ToDf<R>) -> Result<(), OutOfMemory>
    ensures { OnOk result (out.new ≡ spell (spelled.to_df_rest it.now) ++ out.old) }
{
    put_texts(out, 2, it.column_names.as_slice())
}

/// How many bytes the message's fields besides its input take; 2^64 - 1 where it is above that. It takes no memory.
pub fn to_df_rest_size<R>(it: &ToDf<R>) -> u64
    ensures { result ≡ size_of (spelled.to_df_rest it.now) }
{
    texts_size(2, it.column_names.as_slice())
}
