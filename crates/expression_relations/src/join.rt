ghost use Rattle.std.specs.Prelude.{◌≡◌, IfOk, option_map};
ghost use Rattle.proto_fields.specs.Readings as read;
ghost use Rattle.proto_fields.specs.Views.{seen};
ghost use Rattle.expression_messages.specs.Depths.{told};
ghost use Rattle.expression_messages.specs.Expressions.{expr_at};
ghost use Rattle.expression_relations.specs.Depths as depths;
ghost use Rattle.expression_relations.specs.Known as known;
ghost use Rattle.expression_relations.specs.Reading as reading;

use cn_base::{Boxed, Copied, List, OutOfMemory, Text};
use expression_messages::{Expr, expr_depth, expr_from, is_known_expr};
use proto_fields::{Record, int32_field, merged, texts};
use std::alloc::Global;

/// Pairs of rows of two relations (`relations.proto`, Join).
#[derive(Debug, Drop)]
pub struct Join<R> {
    /// `Other(0)` where no relation is there.
    pub left: Boxed<R>,
    /// `Other(0)` where no relation is there.
    pub right: Boxed<R>,
    pub join_condition: Option<Expr>,
    /// 1 inner, 2 full outer, 3 left outer, 4 right outer, 5 left anti, 6 left semi, 7 cross.
    pub join_type: i32,
    /// The columns whose values have to be the same, by their names.
    pub using_columns: List<Text>,
}

impl<R: Copied + Drop> Copied for Join<R> {
    fn copy(&self, alloc: Global) -> Result<Join<R>, OutOfMemory> {
        let left = self.left.get().copy(alloc)?;
        let right = self.right.get().copy(alloc)?;
        join_like(alloc, self, left, right)
    }
}

/// The join's condition; `None` where it is absent.
fn condition_from(alloc: Global, items: &[Record], level: u32) -> Result<Option<Expr>, OutOfMemory>
    ensures { IfOk result
        (λ condition. condition ≡ option_map (expr_at level) (read.merged 3 (seen items.now))) }
{
    match merged(alloc, items, 3)? {
        Some(found) => Ok(Some(expr_from(alloc, found.as_slice(), level)?)),
        None => Ok(None),
    }
}

/// The join of these inputs that a message's records hold, with so many levels of nesting for its condition.
pub fn join_over<R: Drop>(
    alloc: Global,
    items: &[Record],
    left: R,
    right: R,
    level: u32,
) -> Result<Join<R>, OutOfMemory>
    ensures { IfOk result (λ it. it ≡ reading.join_of level left right (seen items.now)) }
{
    let left = Boxed::new(alloc, left)?;
    let right = Boxed::new(alloc, right)?;
    let using_columns = texts(alloc, items, 5)?;
    let join_condition = condition_from(alloc, items, level)?;
    let join_type = int32_field(items, 4);
    Ok(Join {
        left,
        right,
        join_condition,
        join_type,
        using_columns,
    })
}

/// The same join of other inputs.
pub fn join_like<R, S: Drop>(
    alloc: Global,
    it: &Join<R>,
    left: S,
    right: S,
) -> Result<Join<S>, OutOfMemory>
    ensures { IfOk result (λ copied. copied ≡ record {
      left = left;
      right = right;
      join_condition = it.now.join_condition;
      join_type = it.now.join_type;
      using_columns = it.now.using_columns;
    }) }
{
    let left = Boxed::new(alloc, left)?;
    let right = Boxed::new(alloc, right)?;
    let using_columns = it.using_columns.copy(alloc)?;
    let join_condition = it.join_condition.copy(alloc)?;
    Ok(Join {
        left,
        right,
        join_condition,
        join_type: it.join_type,
        using_columns,
    })
}

/// How many messages are nested in the join's fields besides its inputs: 0 without a condition, 2^32 - 1 where there are more. It takes no
/// memory.
pub fn join_rest_depth<R>(it: &Join<R>) -> u32
    ensures { result ≡ told (depths.join_depth it.now) }
{
    match &it.join_condition {
        Some(condition) => expr_depth(condition),
        None => 0,
    }
}

/// Whether the join has a spelling where its inputs have one: its condition isn't outside the profile. It takes no memory.
pub fn is_known_join<R>(it: &Join<R>) -> bool
    ensures { result ≡ known.is_known_join it.now }
{
    match &it.join_condition {
        Some(condition) => is_known_expr(condition),
        None => true,
    }
}
