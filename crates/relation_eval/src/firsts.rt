ghost use Rattle.std.specs.Prelude.{◌≡◌, ◌<◌, [], IfOk, length, not, take, slice_index_or};
ghost use Rattle.plan_model.specs.Groups.{IsDistinctOn};
ghost use Rattle.plan_model.specs.Outcomes.{Bounded};
ghost use Rattle.relation_eval.specs.Firsts.{is_among, flags_after, flagged, firsts};
ghost use Rattle.relation_eval.specs.Given.{rows_of, outcome_of};
ghost use Rattle.relation_eval.specs.Grouped.{IsGrouped};
ghost use Rattle.relation_eval.specs.Places.{head_is};

use crate::buckets::Buckets;
use crate::given::{Given, HeldRows};
use crate::limits::limited_rows;
use cn_base::{List, OutOfMemory};
use cn_types::Row;
use std::alloc::Global;

/// The first row for each different value of the columns, in order. Owned rows are moved.
pub fn distinct_on(alloc: Global, rows: HeldRows, columns: &List<u32>) -> Result<Given, OutOfMemory>
    ensures { IfOk result (λ given. Bounded (IsDistinctOn columns.now (rows_of rows)) (outcome_of given)) }
{
    let flags = first_flags(alloc, rows.as_slice(), Some(columns.as_slice()))?;
    let owned = rows.into_rows(alloc)?;
    let list = flagged_rows(alloc, owned, flags.as_slice())?;
    Ok(limited_rows(HeldRows::Owned(list)))
}

/// For each row whether no earlier row has its key.
pub(crate) fn first_flags(
    alloc: Global,
    rows: &[Row],
    columns: Option<&[u32]>,
) -> Result<Vec<bool>, OutOfMemory>
    ensures flags { IfOk result (λ v. v.items ≡ flags_after columns.entry [] rows.now) }
    ensures count { IfOk result (λ v. length v.items ≡ length rows.now) }
{
    let buckets = Buckets::new(alloc, rows, columns)?;
    let mut flags = Vec::new(alloc);
    for (place, row) in rows.iter().enumerate() {
        flags.push(is_first(&buckets, row, place))?;
    }
    Ok(flags)
}

/// Whether the row at a place is the first with its key.
pub(crate) fn is_first(buckets: &Buckets<'_, '_>, row: &Row, place: usize) -> bool
    requires grouped { IsGrouped buckets.now }
    requires there { place < length buckets.now.rows.now }
    requires row { row.now ≡ slice_index_or buckets.now.rows.now place row.now }
    ensures { result ≡ not (is_among buckets.now.columns (take place buckets.now.rows.now) row.now) }
{
    first_is(buckets.same(row, buckets.columns), place)
}

fn first_is(places: &[usize], place: usize) -> bool
    ensures { result ≡ head_is places.now place }
{
    match places.split_first() {
        Some((first, _)) => *first == place,
        None => false,
    }
}

/// The rows whose flag is true, which are moved.
pub(crate) fn flagged_rows(
    alloc: Global,
    mut rows: Vec<Row>,
    flags: &[bool],
) -> Result<Vec<Row>, OutOfMemory>
    requires { length flags.now ≡ length rows.items }
    ensures { IfOk result (λ v. v.items ≡ flagged flags.now rows.items) }
{
    let mut kept = Vec::new(alloc);
    while let Some(row) = rows.pop() {
        if flags[rows.len()] {
            kept.push(row)?;
        }
    }
    kept.reverse();
    Ok(kept)
}
