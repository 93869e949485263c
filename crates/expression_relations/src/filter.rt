ghost use Rattle.std.specs.Prelude.{◌≡◌, IfOk};
ghost use Rattle.proto_fields.specs.Views.{seen};
ghost use Rattle.expression_messages.specs.Depths.{told};
ghost use Rattle.expression_relations.specs.Depths as depths;
ghost use Rattle.expression_relations.specs.Known as known;
ghost use Rattle.expression_relations.specs.Reading as reading;

use cn_base::{Boxed, Copied, OutOfMemory};
use expression_messages::{Expr, expr_depth, expr_from, is_known_expr, message_records};
use proto_fields::Record;
use std::alloc::Global;

/// The rows that meet a condition (`relations.proto`, Filter).
#[derive(Debug, Drop)]
pub struct Filter<R> {
    /// `Other(0)` where no relation is there.
    pub input: Boxed<R>,
    /// `Other(0)` where no expression is there.
    pub condition: Expr,
}

impl<R: Copied + Drop> Copied for Filter<R> {
    fn copy(&self, alloc: Global) -> Result<Filter<R>, OutOfMemory> {
        let input = self.input.get().copy(alloc)?;
        filter_like(alloc, self, input)
    }
}

/// The filter over this input that a message's records hold, with so many levels of nesting for its condition.
pub fn filter_over<R: Drop>(
    alloc: Global,
    items: &[Record],
    input: R,
    level: u32,
) -> Result<Filter<R>, OutOfMemory>
    ensures { IfOk result (λ it. it ≡ reading.filter_of level input (seen items.now)) }
{
    let input = Boxed::new(alloc, input)?;
    let found = message_records(alloc, items, 2)?;
    let condition = expr_from(alloc, found.as_slice(), level)?;
    Ok(Filter { input, condition })
}

/// The same filter over another input.
pub fn filter_like<R, S: Drop>(
    alloc: Global,
    it: &Filter<R>,
    input: S,
) -> Result<Filter<S>, OutOfMemory>
    ensures { IfOk result
        (λ copied. copied ≡ record { input = input; condition = it.now.condition }) }
{
    let input = Boxed::new(alloc, input)?;
    let condition = it.condition.copy(alloc)?;
    Ok(Filter { input, condition })
}

/// How many messages are nested in the filter's fields besides its input; 2^32 - 1 where there are more. It takes no memory.
pub fn filter_rest_depth<R>(it: &Filter<R>) -> u32
    ensures { result ≡ told (depths.filter_depth it.now) }
{
    expr_depth(&it.condition)
}

/// Whether the filter has a spelling where its input has one: its condition isn't outside the profile. It takes no memory.
pub fn is_known_filter<R>(it: &Filter<R>) -> bool
    ensures { result ≡ known.is_known_filter it.now }
{
    is_known_expr(&it.condition)
}
