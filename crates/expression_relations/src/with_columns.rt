ghost use Rattle.std.specs.Prelude.{◌≡◌, IfOk};
ghost use Rattle.proto_fields.specs.Views.{seen};
ghost use Rattle.expression_messages.specs.Depths.{told};
ghost use Rattle.expression_relations.specs.Depths as depths;
ghost use Rattle.expression_relations.specs.Known as known;
ghost use Rattle.expression_relations.specs.Reading as reading;

use crate::aliases::{aliases_from, are_known_aliases, deepest_alias};
use cn_base::{Boxed, Copied, List, OutOfMemory};
use expression_messages::Alias;
use proto_fields::Record;
use std::alloc::Global;

/// The rows with more columns, or with others in their place (`relations.proto`, WithColumns).
#[derive(Debug, Drop)]
pub struct WithColumns<R> {
    /// `Other(0)` where no relation is there.
    pub input: Boxed<R>,
    pub aliases: List<Alias>,
}

impl<R: Copied + Drop> Copied for WithColumns<R> {
    fn copy(&self, alloc: Global) -> Result<WithColumns<R>, OutOfMemory> {
        let input = self.input.get().copy(alloc)?;
        with_columns_like(alloc, self, input)
    }
}

/// The rows of this input with the columns that a message's records hold, with so many levels of nesting for each alias.
pub fn with_columns_over<R: Drop>(
    alloc: Global,
    items: &[Record],
    input: R,
    level: u32,
) -> Result<WithColumns<R>, OutOfMemory>
    ensures { IfOk result (λ it. it ≡ reading.with_columns_of level input (seen items.now)) }
{
    let input = Boxed::new(alloc, input)?;
    let aliases = aliases_from(alloc, items, 2, level)?;
    Ok(WithColumns { input, aliases })
}

/// The same columns over another input.
pub fn with_columns_like<R, S: Drop>(
    alloc: Global,
    it: &WithColumns<R>,
    input: S,
) -> Result<WithColumns<S>, OutOfMemory>
    ensures { IfOk result
        (λ copied. copied ≡ record { input = input; aliases = it.now.aliases }) }
{
    let input = Boxed::new(alloc, input)?;
    let aliases = it.aliases.copy(alloc)?;
    Ok(WithColumns { input, aliases })
}

/// How many messages are nested in the message's fields besides its input: 0 without aliases, 2^32 - 1 where there are more. It takes no
/// memory.
pub fn with_columns_rest_depth<R>(it: &WithColumns<R>) -> u32
    ensures { result ≡ told (depths.with_columns_depth it.now) }
{
    deepest_alias(it.aliases.as_slice())
}

/// Whether the message has a spelling where its input has one: no expression of its aliases is outside the profile. It takes no memory.
pub fn is_known_with_columns<R>(it: &WithColumns<R>) -> bool
    ensures { result ≡ known.is_known_with_columns it.now }
{
    are_known_aliases(it.aliases.as_slice())
}
