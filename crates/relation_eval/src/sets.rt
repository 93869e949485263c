ghost use Rattle.std.specs.Prelude.{◌≡◌, ◌≢◌, ◌<◌, ◌++◌, not, length, take, slice_index_or, true, false, None, IfOk, OnOk, replicate};
ghost use Rattle.plan_model.specs.Outcomes.{Bounded};
ghost use Rattle.plan_model.specs.SetOperations.{IsSetOperation, copies};
ghost use Rattle.cn_types.specs.Order.{count};
ghost use Rattle.relation_eval.specs.Copies.{all_repeated, number_where};
ghost use Rattle.relation_eval.specs.Firsts.{is_among, firsts};
ghost use Rattle.relation_eval.specs.Given.{rows_of, outcome_of};
ghost use Rattle.relation_eval.specs.Grouped.{IsGrouped};

use crate::buckets::Buckets;
use crate::firsts::{first_flags, flagged_rows, is_first};
use crate::given::{Given, HeldRows};
use crate::limits::{ROW_LIMIT, limited_rows};
use cn_base::{Copied, OutOfMemory};
use cn_types::Row;
use plan_model::SetKind;
use std::alloc::Global;

/// The rows of two inputs as multisets with `all`, else as sets: by the first occurrences in the left, and then in the right.
pub fn set_operation(
    alloc: Global,
    left: HeldRows,
    right: HeldRows,
    kind: SetKind,
    all: bool,
) -> Result<Given, OutOfMemory>
    ensures { IfOk result (λ given. Bounded (IsSetOperation kind all (rows_of left) (rows_of right)) (outcome_of given)) }
{
    match kind {
        SetKind::Union => union(alloc, left, right, all),
        SetKind::Intersect => shared_rows(alloc, left, right, SetKind::Intersect, all),
        SetKind::Except => shared_rows(alloc, left, right, SetKind::Except, all),
    }
}

fn union(alloc: Global, left: HeldRows, right: HeldRows, all: bool) -> Result<Given, OutOfMemory>
    ensures { IfOk result (λ given. Bounded (IsSetOperation SetKind.Union all (rows_of left) (rows_of right)) (outcome_of given)) }
{
    if all {
        union_all(alloc, left, right)
    } else {
        union_distinct(alloc, left, right)
    }
}

/// All rows of both inputs, unless they are too many. Owned rows are moved.
fn union_all(alloc: Global, left: HeldRows, right: HeldRows) -> Result<Given, OutOfMemory>
    ensures { IfOk result (λ given. Bounded (IsSetOperation SetKind.Union true (rows_of left) (rows_of right)) (outcome_of given)) }
{
    if right.as_slice().len() > ROW_LIMIT.saturating_sub(left.as_slice().len()) {
        return Ok(Given::TooManyRows);
    }
    let together = appended(alloc, left, right)?;
    Ok(limited_rows(HeldRows::Owned(together)))
}

/// Each row of the inputs once.
fn union_distinct(alloc: Global, left: HeldRows, right: HeldRows) -> Result<Given, OutOfMemory>
    ensures { IfOk result (λ given. Bounded (IsSetOperation SetKind.Union false (rows_of left) (rows_of right)) (outcome_of given)) }
{
    let together = appended(alloc, left, right)?;
    let list = first_rows(alloc, together)?;
    Ok(limited_rows(HeldRows::Owned(list)))
}

fn first_rows(alloc: Global, rows: Vec<Row>) -> Result<Vec<Row>, OutOfMemory>
    ensures { IfOk result (λ v. v.items ≡ firsts None rows.items) }
{
    let flags = first_flags(alloc, rows.as_slice(), None)?;
    let list = flagged_rows(alloc, rows, flags.as_slice())?;
    Ok(list)
}

fn appended(alloc: Global, left: HeldRows, right: HeldRows) -> Result<Vec<Row>, OutOfMemory>
    ensures { IfOk result (λ v. v.items ≡ rows_of left ++ rows_of right) }
{
    let mut together = left.into_rows(alloc)?;
    let mut more = right.into_rows(alloc)?;
    together.append(&mut more)?;
    Ok(together)
}

/// The rows of the left input, each so often as both inputs say.
fn shared_rows(
    alloc: Global,
    left: HeldRows,
    right: HeldRows,
    kind: SetKind,
    all: bool,
) -> Result<Given, OutOfMemory>
    requires { kind ≢ SetKind.Union }
    ensures { IfOk result (λ given. Bounded (IsSetOperation kind all (rows_of left) (rows_of right)) (outcome_of given)) }
{
    let list = copied_so_often(alloc, left.as_slice(), right.as_slice(), kind, all)?;
    Ok(limited_rows(HeldRows::Owned(list)))
}

fn copied_so_often(
    alloc: Global,
    left: &[Row],
    right: &[Row],
    kind: SetKind,
    all: bool,
) -> Result<Vec<Row>, OutOfMemory>
    requires { kind ≢ SetKind.Union }
    ensures { IfOk result (λ v. v.items ≡ all_repeated kind all left.now right.now (firsts None left.now)) }
{
    let own = Buckets::new(alloc, left, None)?;
    let others = Buckets::new(alloc, right, None)?;
    let mut list = Vec::new(alloc);
    for (place, row) in left.iter().enumerate() {
        let number = number_at(&own, &others, row, place, kind, all);
        push_copies(alloc, &mut list, row, number)?;
    }
    Ok(list)
}

/// How often the row at a place stands in the result, where it is the first of its kind; else none is left.
fn number_at(
    own: &Buckets<'_, '_>,
    others: &Buckets<'_, '_>,
    row: &Row,
    place: usize,
    kind: SetKind,
    all: bool,
) -> usize
    requires kind { kind ≢ SetKind.Union }
    requires own { IsGrouped own.now }
    requires others { IsGrouped others.now }
    requires own_whole { own.now.columns ≡ None }
    requires others_whole { others.now.columns ≡ None }
    requires there { place < length own.now.rows.now }
    requires row { row.now ≡ slice_index_or own.now.rows.now place row.now }
    ensures { result ≡ number_where (not (is_among None (take place own.now.rows.now) row.now)) (copies kind all (count own.now.rows.now row.now) (count others.now.rows.now row.now)) }
{
    if is_first(own, row, place) {
        let left = count_in(own, row);
        let right = count_in(others, row);
        number_of_copies(kind, all, left, right)
    } else {
        0
    }
}

/// How often the row stands among the rows.
fn count_in(rows: &Buckets<'_, '_>, row: &Row) -> usize
    requires grouped { IsGrouped rows.now }
    requires whole { rows.now.columns ≡ None }
    ensures { result ≡ count rows.now.rows.now row.now }
{
    rows.same(row, None).len()
}

fn number_of_copies(kind: SetKind, all: bool, left: usize, right: usize) -> usize
    requires { kind ≢ SetKind.Union }
    ensures { result ≡ copies kind all left right }
{
    match kind {
        SetKind::Union => unreachable!(),
        SetKind::Intersect if all => left.min(right),
        SetKind::Intersect => left.min(right).min(1),
        SetKind::Except if all => left.saturating_sub(right),
        SetKind::Except if right == 0 => left.min(1),
        SetKind::Except => 0,
    }
}

fn push_copies(
    alloc: Global,
    list: &mut Vec<Row>,
    row: &Row,
    number: usize,
) -> Result<(), OutOfMemory>
    ensures { OnOk result (list.new.items ≡ list.old.items ++ replicate number row.now) }
{
    for _ in 0..number {
        list.push(row.copy(alloc)?)?;
    }
    Ok(())
}
