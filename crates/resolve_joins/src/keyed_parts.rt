ghost use Rattle.std.specs.Prelude.{◌≡◌, ◌≢◌, length, IfOk, OnOk, IfErr, Ok, Err};
ghost use Rattle.resolve_names.specs.declared.error.ResolveStop.TheVariants.{OutOfMemory as no_memory};
ghost use Rattle.resolve_expressions.specs.Stars as stars;
ghost use Rattle.resolve_relations.specs.Columns as columns_of;
ghost use Rattle.resolve_joins.specs.Joins as rules;
ghost use Rattle.resolve_joins.specs.Keys as keys_of;

use crate::equalities::all_equal;
use crate::key_columns::using_items;
use crate::keys::KeyPair;
use crate::sides::joined_columns;
use cn_base::List;
use plan_model::{JoinKind, TypedExpr};
use resolve_expressions::Item;
use resolve_names::{ResolveStop, ScopeColumn};
use resolve_relations::{column_limit, short_place};
use std::alloc::Global;

/// What a join by keys is made of, beside its inputs.
#[derive(Debug, Drop)]
pub(crate) struct KeyedParts {
    /// The columns of the pairs.
    pub(crate) columns: List<ScopeColumn>,
    /// The columns of the join, over those of the pairs.
    pub(crate) items: List<Item>,
    /// That all keys are equal.
    pub(crate) test: Option<TypedExpr>,
}

/// The parts of a join by these keys, or TooManyColumns. The number of columns is judged before the condition is made, which is as deep as
/// there are keys.
pub(crate) fn keyed_parts(
    alloc: Global,
    kind: JoinKind,
    left: &[ScopeColumn],
    right: &[ScopeColumn],
    keys: &[KeyPair],
) -> Result<KeyedParts, ResolveStop>
    ensures counted { OnOk result (columns_of.column_limit (length (keys_of.using_items kind (length left.now) keys.now (stars.items_where stars.any_column 0 (rules.joined_columns kind left.now right.now)))) ≡ Ok tt) }
    ensures columns { IfOk result (λ parts. parts.columns ≡ rules.joined_columns kind left.now right.now) }
    ensures items { IfOk result (λ parts. parts.items ≡ keys_of.using_items kind (length left.now) keys.now (stars.items_where stars.any_column 0 (rules.joined_columns kind left.now right.now))) }
    ensures test { IfOk result (λ parts. parts.test ≡ keys_of.all_equal (length left.now) keys.now) }
    ensures refused { IfErr result (λ e. e ≢ no_memory → columns_of.column_limit (length (keys_of.using_items kind (length left.now) keys.now (stars.items_where stars.any_column 0 (rules.joined_columns kind left.now right.now)))) ≡ Err e) }
{
    let width = short_place(left.len())?;
    let columns = joined_columns(alloc, kind, left, right)?;
    let items = some_columns(alloc, kind, width, keys, columns.as_slice())?;
    let test = all_equal(alloc, width, keys)?;
    Ok(KeyedParts {
        columns,
        items,
        test,
    })
}

/// The columns of a join by keys, where they are as few as they may be.
fn some_columns(
    alloc: Global,
    kind: JoinKind,
    width: u32,
    keys: &[KeyPair],
    columns: &[ScopeColumn],
) -> Result<List<Item>, ResolveStop>
    ensures counted { OnOk result (columns_of.column_limit (length (keys_of.using_items kind width keys.now (stars.items_where stars.any_column 0 columns.now))) ≡ Ok tt) }
    ensures items { IfOk result (λ items. items ≡ keys_of.using_items kind width keys.now (stars.items_where stars.any_column 0 columns.now)) }
    ensures refused { IfErr result (λ e. e ≢ no_memory → columns_of.column_limit (length (keys_of.using_items kind width keys.now (stars.items_where stars.any_column 0 columns.now))) ≡ Err e) }
{
    let items = using_items(alloc, kind, width, keys, columns)?;
    column_limit(alloc, items.as_slice().len())?;
    Ok(items)
}
