ghost use Rattle.std.specs.Prelude.{◌≡◌, ◌≤◌, ◌<◌, ◌-◌, IfOk, IsPermutation, length, map, true, false, take, drop, unwrap_or, slice_get};
ghost use Rattle.std.specs.Option.{option_copied};
ghost use Rattle.cn_types.specs.declared.value.Value.TheVariants.{Null};
ghost use Rattle.std.specs.List.Sorted.{IsSortedBy, IsStableBy, IsPartitionPoint};
ghost use Rattle.cn_types.specs.Order.{value_cmp, row_cmp};
ghost use Rattle.relation_eval.specs.Grouped.{IsGrouped, key_before, row_of_placed, place_of, count_from, is_below, is_not_above};
ghost use Rattle.relation_eval.specs.Places.{key_by, places_of};

use cn_base::OutOfMemory;
use cn_types::{Row, Value, order};
use std::alloc::Global;
use std::cmp::Ordering;

/// A row and its place in a list.
#[derive(Debug, Drop)]
pub(crate) struct Placed<'a> {
    row: &'a Row,
    place: usize,
}

/// The places of the rows of a list, by their values in columns.
#[derive(Debug, Drop)]
pub struct Buckets<'a, 'c> {
    pub rows: &'a [Row],
    pub columns: Option<&'c [u32]>,
    /// The rows in the order of their values; those with the same values in the order of their places.
    entries: Vec<Placed<'a>>,
    /// The places of the entries.
    places: Vec<usize>,
}

impl<'a, 'c> Buckets<'a, 'c> {
    /// The places of these rows by their values in these columns.
    pub fn new(
        alloc: Global,
        rows: &'a [Row],
        columns: Option<&'c [u32]>,
    ) -> Result<Buckets<'a, 'c>, OutOfMemory>
        ensures rows { IfOk result (λ b. b.rows.now ≡ rows.now) }
        ensures columns { IfOk result (λ b. b.columns ≡ columns.entry) }
        ensures grouped { IfOk result IsGrouped }
    {
        let placed = placed_rows(alloc, rows)?;
        let entries = in_key_order(placed, columns)?;
        let places = places_alone(alloc, entries.as_slice())?;
        Ok(Buckets {
            rows,
            columns,
            entries,
            places,
        })
    }

    /// The places, in order, of the rows whose values in the list's columns are those of this row in its columns. Null is the same as
    /// null. It takes no memory.
    pub fn same(&self, row: &Row, columns: Option<&[u32]>) -> &[usize]
        requires { IsGrouped self.now }
        ensures { result.now ≡ places_of self.now.columns (key_by columns.entry row.now) self.now.rows.now }
    {
        let start = first_not_below(self.entries.as_slice(), self.columns, row, columns);
        let end = first_above(self.entries.as_slice(), self.columns, row, columns);
        part(self.places.as_slice(), start, end)
    }
}

fn part(places: &[usize], start: usize, end: usize) -> &[usize]
    requires ordered { start ≤ end }
    requires within { end ≤ length places.now }
    ensures { result.now ≡ take (end - start) (drop start places.now) }
{
    &places[start..end]
}

fn first_not_below(
    entries: &[Placed<'_>],
    own_columns: Option<&[u32]>,
    row: &Row,
    columns: Option<&[u32]>,
) -> usize
    requires { IsSortedBy (key_before own_columns) entries.now }
    ensures bound { result ≤ length entries.now }
    ensures parted { IsPartitionPoint (λ e. is_below own_columns.entry (key_by columns.entry row.now) e ≡ true) (λ e. is_below own_columns.entry (key_by columns.entry row.now) e ≡ false) entries.now result }
{
    entries.partition_point(|entry| compare_keys(entry.row, own_columns, row, columns).is_lt())
}

fn first_above(
    entries: &[Placed<'_>],
    own_columns: Option<&[u32]>,
    row: &Row,
    columns: Option<&[u32]>,
) -> usize
    requires { IsSortedBy (key_before own_columns) entries.now }
    ensures bound { result ≤ length entries.now }
    ensures parted { IsPartitionPoint (λ e. is_not_above own_columns.entry (key_by columns.entry row.now) e ≡ true) (λ e. is_not_above own_columns.entry (key_by columns.entry row.now) e ≡ false) entries.now result }
{
    entries.partition_point(|entry| compare_keys(entry.row, own_columns, row, columns).is_le())
}

fn placed_rows<'a>(alloc: Global, rows: &'a [Row]) -> Result<Vec<Placed<'a>>, OutOfMemory>
    ensures rows { IfOk result (λ v. map row_of_placed v.items ≡ rows.now) }
    ensures places { IfOk result (λ v. map place_of v.items ≡ count_from 0 (length rows.now)) }
{
    let mut placed = Vec::new(alloc);
    for (place, row) in rows.iter().enumerate() {
        placed.push(Placed { row, place })?;
    }
    Ok(placed)
}

fn in_key_order<'a>(
    mut placed: Vec<Placed<'a>>,
    columns: Option<&[u32]>,
) -> Result<Vec<Placed<'a>>, OutOfMemory>
    ensures permuted { IfOk result (λ v. IsPermutation placed.entry.items v.items) }
    ensures ordered { IfOk result (λ v. IsSortedBy (key_before columns.entry) v.items) }
    ensures stable { IfOk result (λ v. IsStableBy (key_before columns.entry) placed.entry.items v.items) }
{
    placed.sort_by(|left, right| compare_keys(left.row, columns, right.row, columns))?;
    Ok(placed)
}

fn places_alone(alloc: Global, entries: &[Placed<'_>]) -> Result<Vec<usize>, OutOfMemory>
    ensures { IfOk result (λ v. v.items ≡ map place_of entries.now) }
{
    entries.iter().map(|entry| entry.place).collect(alloc)
}

/// The order of two rows by their values in columns, or by all values: the first that differ decide, and then the number of values.
pub(crate) fn compare_keys(
    left: &Row,
    left_columns: Option<&[u32]>,
    right: &Row,
    right_columns: Option<&[u32]>,
) -> Ordering
    ensures { result ≡ row_cmp (key_by left_columns.entry left.now) (key_by right_columns.entry right.now) }
{
    let left_count = key_len(left, left_columns);
    let right_count = key_len(right, right_columns);
    for place in 0..left_count.min(right_count) {
        let left_value = key_value(left, left_columns, place);
        let right_value = key_value(right, right_columns, place);
        match order_of(left_value, right_value) {
            Ordering::Less => return Ordering::Less,
            Ordering::Equal => {}
            Ordering::Greater => return Ordering::Greater,
        }
    }
    left_count.cmp(&right_count)
}

fn key_len(row: &Row, columns: Option<&[u32]>) -> usize
    ensures { result ≡ length (key_by columns.entry row.now).0 }
{
    match columns {
        None => row.0.len(),
        Some(columns) => columns.len(),
    }
}

fn key_value<'a>(row: &'a Row, columns: Option<&[u32]>, place: usize) -> Option<&'a Value>
    requires { place < length (key_by columns row.now).0 }
    ensures { unwrap_or (option_copied result) Null ≡ unwrap_or (slice_get (key_by columns.entry row.now).0 place) Null }
{
    match columns {
        None => row.0.get(place),
        Some(columns) => row.0.get(columns[place] as usize),
    }
}

/// The order of two values, each null where there is none.
fn order_of(left: Option<&Value>, right: Option<&Value>) -> Ordering
    ensures { result ≡ value_cmp (unwrap_or (option_copied left.entry) Null) (unwrap_or (option_copied right.entry) Null) }
{
    let null = Value::Null;
    order(left.unwrap_or(&null), right.unwrap_or(&null))
}
