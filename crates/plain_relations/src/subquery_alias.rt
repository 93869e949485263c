ghost use Rattle.std.specs.Prelude.{◌≡◌, ◌++◌, IfOk, OnOk};
ghost use Rattle.proto_fields.specs.Sizes.{size_of};
ghost use Rattle.proto_fields.specs.Spelling.{spell};
ghost use Rattle.proto_fields.specs.Views.{seen};
ghost use Rattle.plain_relations.specs.Plain as plain;
ghost use Rattle.plain_relations.specs.Spelled as spelled;

use cn_base::{Boxed, Copied, List, OutOfMemory, Text};
use expression_messages::{put_texts, texts_size};
use proto_fields::{MessageWriter, Record, text_field, text_size, texts};
use std::alloc::Global;

/// A relation under a name (`relations.proto`, SubqueryAlias).
#[derive(Debug, Drop)]
pub struct SubqueryAlias<R> {
    /// `Other(0)` where no relation is there.
    pub input: Boxed<R>,
    pub alias: Text,
    pub qualifier: List<Text>,
}

impl<R: Copied + Drop> Copied for SubqueryAlias<R> {
    fn copy(&self, alloc: Global) -> Result<SubqueryAlias<R>, OutOfMemory> {
        subquery_alias_like(alloc, self, self.input.get().copy(alloc)?)
    }
}

/// The alias of this input that a message's records hold.
pub fn subquery_alias_over<R: Drop>(
    alloc: Global,
    items: &[Record],
    input: R,
) -> Result<SubqueryAlias<R>, OutOfMemory>
    ensures { IfOk result (λ it. it ≡ plain.subquery_alias_of input (seen items.now)) }
{
    Ok(SubqueryAlias {
        input: Boxed::new(alloc, input)?,
        alias: text_field(alloc, items, 2)?,
        qualifier: texts(alloc, items, 3)?,
    })
}

/// The same alias of another input.
pub fn subquery_alias_like<R, S: Drop>(
    alloc: Global,
    it: &SubqueryAlias<R>,
    input: S,
) -> Result<SubqueryAlias<S>, OutOfMemory>
    ensures { IfOk result (λ copied. copied
        ≡ record { input = input; alias = it.now.alias; qualifier = it.now.qualifier }) }
{
    Ok(SubqueryAlias {
        input: Boxed::new(alloc, input)?,
        alias: it.alias.copy(alloc)?,
        qualifier: it.qualifier.copy(alloc)?,
    })
}

/// Puts the alias's fields besides its input before what stands. Where memory runs out, nothing is promised of what stands then.
#[tactic(auto, using(expression_messages::proofs::Written::stand_two))]
pub fn put_subquery_alias_rest<R>(
    out: &mut MessageWriter,
    it: &SubqueryAlias<R>,
) -> Result<(), OutOfMemory>
    ensures { OnOk result (out.new ≡ spell (spelled.subquery_alias_rest it.now) ++ out.old) }
{
    put_texts(out, 3, it.qualifier.as_slice())?;
    out.put_text(2, it.alias.as_str())
}

/// How many bytes the alias's fields besides its input take; 2^64 - 1 where it is above that. It takes no memory.
#[tactic(auto, using(expression_messages::proofs::Measured::sized_two))]
pub fn subquery_alias_rest_size<R>(it: &SubqueryAlias<R>) -> u64
    ensures { result ≡ size_of (spelled.subquery_alias_rest it.now) }
{
    let alias = text_size(2, it.alias.as_str());
    let qualifier = texts_size(3, it.qualifier.as_slice());
    alias.saturating_add(qualifier)
}
