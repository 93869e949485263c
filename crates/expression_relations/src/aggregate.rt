ghost use Rattle.std.specs.Prelude.{◌≡◌, IfOk};
ghost use Rattle.proto_fields.specs.Views.{seen};
ghost use Rattle.expression_messages.specs.Depths.{told};
ghost use Rattle.expression_relations.specs.Depths as depths;
ghost use Rattle.expression_relations.specs.Known as known;
ghost use Rattle.expression_relations.specs.Reading as reading;

use cn_base::{Boxed, Copied, List, OutOfMemory};
use expression_messages::{Expr, are_known, deepest, exprs_from};
use proto_fields::{Record, int32_field};
use std::alloc::Global;

/// A row for each group (`relations.proto`, Aggregate).
#[derive(Debug, Drop)]
pub struct Aggregate<R> {
    /// `Other(0)` where no relation is there.
    pub input: Boxed<R>,
    /// 1 is group by.
    pub group_type: i32,
    pub grouping_expressions: List<Expr>,
    pub aggregate_expressions: List<Expr>,
}

impl<R: Copied + Drop> Copied for Aggregate<R> {
    fn copy(&self, alloc: Global) -> Result<Aggregate<R>, OutOfMemory> {
        let input = self.input.get().copy(alloc)?;
        aggregate_like(alloc, self, input)
    }
}

/// The aggregate over this input that a message's records hold, with so many levels of nesting for each of its expressions.
pub fn aggregate_over<R: Drop>(
    alloc: Global,
    items: &[Record],
    input: R,
    level: u32,
) -> Result<Aggregate<R>, OutOfMemory>
    ensures { IfOk result (λ it. it ≡ reading.aggregate_of level input (seen items.now)) }
{
    let input = Boxed::new(alloc, input)?;
    let group_type = int32_field(items, 2);
    let grouping_expressions = exprs_from(alloc, items, 3, level)?;
    let aggregate_expressions = exprs_from(alloc, items, 4, level)?;
    Ok(Aggregate {
        input,
        group_type,
        grouping_expressions,
        aggregate_expressions,
    })
}

/// The same aggregate over another input.
pub fn aggregate_like<R, S: Drop>(
    alloc: Global,
    it: &Aggregate<R>,
    input: S,
) -> Result<Aggregate<S>, OutOfMemory>
    ensures { IfOk result (λ copied. copied ≡ record {
      input = input;
      group_type = it.now.group_type;
      grouping_expressions = it.now.grouping_expressions;
      aggregate_expressions = it.now.aggregate_expressions;
    }) }
{
    let input = Boxed::new(alloc, input)?;
    let grouping_expressions = it.grouping_expressions.copy(alloc)?;
    let aggregate_expressions = it.aggregate_expressions.copy(alloc)?;
    Ok(Aggregate {
        input,
        group_type: it.group_type,
        grouping_expressions,
        aggregate_expressions,
    })
}

/// How many messages are nested in the aggregate's fields besides its input: 0 without expressions, 2^32 - 1 where there are more. It takes
/// no memory.
pub fn aggregate_rest_depth<R>(it: &Aggregate<R>) -> u32
    ensures { result ≡ told (depths.aggregate_depth it.now) }
{
    let grouping = deepest(it.grouping_expressions.as_slice());
    grouping.max(deepest(it.aggregate_expressions.as_slice()))
}

/// Whether the aggregate has a spelling where its input has one: none of its expressions is outside the profile. It takes no memory.
pub fn is_known_aggregate<R>(it: &Aggregate<R>) -> bool
    ensures { result ≡ known.is_known_aggregate it.now }
{
    are_known(it.grouping_expressions.as_slice()) && are_known(it.aggregate_expressions.as_slice())
}
