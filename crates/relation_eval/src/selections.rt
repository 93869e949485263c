ghost use Rattle.std.specs.Prelude.{◌≡◌, ◌≤◌, ◌+◌, IfOk, All, length, take, drop};
ghost use Rattle.plan_model.specs.Outcomes.{limited};
ghost use Rattle.plan_model.specs.Selections.{image, projected, selected, sliced};
ghost use Rattle.expr_eval.specs.Dated.{HasLiteralsInRange, HasDatesInRange};
ghost use Rattle.relation_eval.specs.Given.{rows_of, outcome_of};

use crate::given::{Given, HeldRows, copied_rows};
use crate::limits::limited_rows;
use cn_base::{Copied, List, OutOfMemory};
use cn_types::Row;
use expr_eval::{holds, value};
use plan_model::TypedExpr;
use std::alloc::Global;

/// For each row the items' values.
pub fn project(alloc: Global, rows: HeldRows, items: &List<TypedExpr>) -> Result<Given, OutOfMemory>
    requires literals { All HasLiteralsInRange items.now }
    requires dates { All HasDatesInRange (rows_of rows) }
    ensures { IfOk result (λ given. outcome_of given ≡ limited (projected items.now (rows_of rows))) }
{
    let images = images_of(alloc, rows.as_slice(), items)?;
    Ok(limited_rows(HeldRows::Owned(images)))
}

/// The items' values over each row, in order.
pub(crate) fn images_of(
    alloc: Global,
    rows: &[Row],
    items: &List<TypedExpr>,
) -> Result<Vec<Row>, OutOfMemory>
    requires literals { All HasLiteralsInRange items.now }
    requires dates { All HasDatesInRange rows.now }
    ensures images { IfOk result (λ v. v.items ≡ projected items.now rows.now) }
    ensures dates { IfOk result (λ v. All HasDatesInRange v.items) }
{
    let mut images = Vec::new(alloc);
    for row in rows {
        images.push(image_of(alloc, row, items)?)?;
    }
    Ok(images)
}

/// The items' values over a row.
pub(crate) fn image_of(
    alloc: Global,
    row: &Row,
    items: &List<TypedExpr>,
) -> Result<Row, OutOfMemory>
    requires literals { All HasLiteralsInRange items.now }
    requires dates { HasDatesInRange row.now }
    ensures image { IfOk result (λ r. r ≡ image items.now row.now) }
    ensures dates { IfOk result HasDatesInRange }
{
    let mut values = List::new(alloc);
    for item in items.as_slice() {
        values.push(value(alloc, item, row)?)?;
    }
    Ok(Row(values))
}

/// The rows of which the condition is true, in order. Owned rows are moved, and of shared ones those that are kept are copied.
pub fn filter(alloc: Global, rows: HeldRows, condition: &TypedExpr) -> Result<Given, OutOfMemory>
    requires literals { HasLiteralsInRange condition.now }
    requires dates { All HasDatesInRange (rows_of rows) }
    ensures { IfOk result (λ given. outcome_of given ≡ limited (selected condition.now (rows_of rows))) }
{
    match rows {
        HeldRows::Shared(shared) => {
            let kept = copies_of_selected(alloc, shared.as_slice(), condition)?;
            Ok(limited_rows(HeldRows::Owned(kept)))
        }
        HeldRows::Owned(owned) => {
            let kept = moved_selected(alloc, owned, condition)?;
            Ok(limited_rows(HeldRows::Owned(kept)))
        }
    }
}

fn copies_of_selected(
    alloc: Global,
    rows: &[Row],
    condition: &TypedExpr,
) -> Result<Vec<Row>, OutOfMemory>
    requires literals { HasLiteralsInRange condition.now }
    requires dates { All HasDatesInRange rows.now }
    ensures { IfOk result (λ v. v.items ≡ selected condition.now rows.now) }
{
    let mut kept = Vec::new(alloc);
    for row in rows {
        if holds(alloc, condition, row)? {
            kept.push(row.copy(alloc)?)?;
        }
    }
    Ok(kept)
}

fn moved_selected(
    alloc: Global,
    rows: Vec<Row>,
    condition: &TypedExpr,
) -> Result<Vec<Row>, OutOfMemory>
    requires literals { HasLiteralsInRange condition.now }
    requires dates { All HasDatesInRange rows.items }
    ensures { IfOk result (λ v. v.items ≡ selected condition.now rows.items) }
{
    let mut kept = Vec::new(alloc);
    for row in rows {
        if holds(alloc, condition, &row)? {
            kept.push(row)?;
        }
    }
    Ok(kept)
}

/// The rows without the first ones that are skipped, and of the rest at most so many as are taken. Owned rows are moved.
pub fn slice(
    alloc: Global,
    rows: HeldRows,
    skip: u32,
    most: Option<u32>,
) -> Result<Given, OutOfMemory>
    ensures { IfOk result (λ given. outcome_of given ≡ limited (sliced skip most (rows_of rows))) }
{
    let start = rows.as_slice().len().min(skip as usize);
    let left = rows.as_slice().len() - start;
    let count = most.map_or(left, |most| left.min(most as usize));
    let kept = window(alloc, rows, start, count)?;
    Ok(limited_rows(HeldRows::Owned(kept)))
}

fn window(
    alloc: Global,
    rows: HeldRows,
    start: usize,
    count: usize,
) -> Result<Vec<Row>, OutOfMemory>
    requires { start + count ≤ length (rows_of rows) }
    ensures { IfOk result (λ v. v.items ≡ take count (drop start (rows_of rows))) }
{
    match rows {
        HeldRows::Shared(shared) => { copied_rows(alloc, &shared.as_slice()[start..start + count]) }
        HeldRows::Owned(mut owned) => {
            owned.truncate(start + count);
            owned.split_off(start)
        }
    }
}
