ghost use Rattle.std.specs.Prelude.{◌≡◌, ℕ, ◌<◌, List, [], ◌∷◌, ◌++◌, true, false, IfOk, IfSome, IfNone, All, length, map, not};
ghost use Rattle.std.specs.List.{flat_map};
ghost use Rattle.std.specs.Borrow.{Bor};
ghost use Rattle.std.specs.Option.{option_copied};
ghost use Rattle.cn_types.specs.Fit.{value_at};
ghost use Rattle.plan_model.specs.Joins.{beside, matches};
ghost use Rattle.plan_model.specs.Outcomes.{row_limit};
ghost use Rattle.plan_model.specs.Truth.{is_present};
ghost use Rattle.expr_eval.specs.Dated.{HasLiteralsInRange, HasDatesInRange};
ghost use Rattle.relation_eval.specs.Grouped.{IsGrouped};
ghost use Rattle.relation_eval.specs.Joined.{is_passed_by, pairs_with, rows_where};
ghost use Rattle.relation_eval.specs.Matches.{rows_at, match_places, marked, has_null_in, is_candidate, AreKeys, matches_some, FindsMatches};
ghost use Rattle.relation_eval.specs.Places.{places_from};

use crate::buckets::Buckets;
use crate::limits::ROW_LIMIT;
use cn_base::{Copied, OutOfMemory};
use cn_types::{Row, Value};
use expr_eval::holds;
use plan_model::TypedExpr;
use std::alloc::Global;

/// Columns of both inputs, one of each in turn: rows match only where their values in them are the same, and none of these is null.
#[derive(Debug, Drop)]
pub(crate) struct Keys {
    pub(crate) left: Vec<u32>,
    pub(crate) right: Vec<u32>,
}

/// The pairs of rows that match, side by side, and for each row whether it has a match.
#[derive(Debug, Drop)]
pub(crate) struct Matched {
    pub(crate) rows: Vec<Row>,
    pub(crate) left_flags: Vec<bool>,
    pub(crate) right_flags: Vec<bool>,
}

/// The pairs that match, in the order of the left rows and within them of the right ones; none where they are too many.
pub(crate) fn find_matches(
    alloc: Global,
    left: &[Row],
    right: &[Row],
    condition: Option<&TypedExpr>,
    keys: &Keys,
) -> Result<Option<Matched>, OutOfMemory>
    requires literals { IfSome (option_copied condition) HasLiteralsInRange }
    requires left_dates { All HasDatesInRange left.now }
    requires right_dates { All HasDatesInRange right.now }
    requires keys { AreKeys (option_copied condition) keys.now.left.items keys.now.right.items left.now right.now }
    ensures all { IfOk result (λ found. IfSome found (FindsMatches (option_copied condition.entry) left.now right.now)) }
    ensures many { IfOk result (λ found. IfNone found (row_limit < length (flat_map (λ row. pairs_with (option_copied condition.entry) row right.now) left.now))) }
{
    let rights = Buckets::new(alloc, right, Some(keys.right.as_slice()))?;
    let mut rows = Vec::new(alloc);
    let mut left_flags = Vec::new(alloc);
    let mut right_flags = unset_flags(alloc, right)?;
    for row in left {
        let before = rows.len();
        let places = candidates(&rights, row, keys.left.as_slice());
        if !add_pairs(
            alloc,
            &mut rows,
            &mut right_flags,
            row,
            right,
            places,
            condition,
        )? {
            return Ok(None);
        }
        left_flags.push(rows.len() > before)?;
    }
    Ok(Some(Matched {
        rows,
        left_flags,
        right_flags,
    }))
}

fn unset_flags(alloc: Global, rows: &[Row]) -> Result<Vec<bool>, OutOfMemory>
    ensures { IfOk result (λ v. v.items ≡ map (λ row. false) rows.now) }
{
    rows.iter().map(|_row| false).collect(alloc)
}

/// For each left row whether it has a match.
pub(crate) fn match_flags(
    alloc: Global,
    left: &[Row],
    right: &[Row],
    condition: Option<&TypedExpr>,
    keys: &Keys,
) -> Result<Vec<bool>, OutOfMemory>
    requires literals { IfSome (option_copied condition) HasLiteralsInRange }
    requires left_dates { All HasDatesInRange left.now }
    requires right_dates { All HasDatesInRange right.now }
    requires keys { AreKeys (option_copied condition) keys.now.left.items keys.now.right.items left.now right.now }
    ensures { IfOk result (λ v. v.items ≡ map (matches_some (option_copied condition.entry) right.now) left.now) }
{
    let rights = Buckets::new(alloc, right, Some(keys.right.as_slice()))?;
    let mut flags = Vec::new(alloc);
    for row in left {
        let places = candidates(&rights, row, keys.left.as_slice());
        flags.push(has_match(alloc, row, right, places, condition)?)?;
    }
    Ok(flags)
}

/// The places of the right rows that a left row may match: none where a value of its key is null.
fn candidates<'b>(rights: &'b Buckets<'_, '_>, left: &Row, columns: &[u32]) -> &'b [usize]
    requires { IsGrouped rights.now }
    ensures { (own : Bor (List ℕ)) → rights.now.columns ≡ Some own → result.now ≡ places_from (is_candidate columns.now own.now left.now) 0 rights.now.rows.now }
{
    let same = rights.same(left, Some(columns));
    if has_null(left, columns) {
        &same[..0]
    } else {
        same
    }
}

fn has_null(row: &Row, columns: &[u32]) -> bool
    ensures { result ≡ has_null_in columns.now row.now }
{
    columns.iter().any(|column| is_null_at(row, *column))
}

fn is_null_at(row: &Row, column: u32) -> bool
    ensures { result ≡ not (is_present (value_at column row.now)) }
{
    match row.0.get(column as usize) {
        None => true,
        Some(value) => matches!(value, Value::Null),
    }
}

/// Adds the pairs of a left row with the right rows at these places that match it, and sets the flags of these. It is false, and stops,
/// where there are too many pairs.
fn add_pairs(
    alloc: Global,
    rows: &mut Vec<Row>,
    flags: &mut Vec<bool>,
    left: &Row,
    right: &[Row],
    places: &[usize],
    condition: Option<&TypedExpr>,
) -> Result<bool, OutOfMemory>
    requires literals { IfSome (option_copied condition) HasLiteralsInRange }
    requires left_dates { HasDatesInRange left.now }
    requires right_dates { All HasDatesInRange right.now }
    requires within { All (λ place. place < length right.now) places.now }
    requires flags { length flags.old.items ≡ length right.now }
    ensures rows { IfOk result (λ all. all ≡ true → rows.new.items ≡ rows.old.items ++ pairs_with (option_copied condition.entry) left.now (rows_at right.now places.now)) }
    ensures flags { IfOk result (λ all. all ≡ true → flags.new.items ≡ marked flags.old.items (match_places (option_copied condition.entry) left.now right.now places.now)) }
    ensures many { IfOk result (λ all. all ≡ false → row_limit < length (rows.old.items ++ pairs_with (option_copied condition.entry) left.now (rows_at right.now places.now))) }
{
    for place in places {
        if rows.len() > ROW_LIMIT {
            return Ok(false);
        }
        if push_match(alloc, rows, left, &right[*place], condition)? {
            flags[*place] = true;
        }
    }
    Ok(true)
}

/// Adds two rows side by side where they match, and tells whether they do.
fn push_match(
    alloc: Global,
    rows: &mut Vec<Row>,
    left: &Row,
    right: &Row,
    condition: Option<&TypedExpr>,
) -> Result<bool, OutOfMemory>
    requires literals { IfSome (option_copied condition) HasLiteralsInRange }
    requires left_dates { HasDatesInRange left.now }
    requires right_dates { HasDatesInRange right.now }
    ensures found { IfOk result (λ is. is ≡ matches (option_copied condition.entry) left.now right.now) }
    ensures rows { IfOk result (λ is. rows.new.items ≡ rows.old.items ++ rows_where is (beside left.now right.now ∷ [])) }
{
    let row = joined_row(alloc, left, right)?;
    if !passes(alloc, condition, &row)? {
        return Ok(false);
    }
    rows.push(row)?;
    Ok(true)
}

/// Whether a left row matches one of the right rows at these places.
fn has_match(
    alloc: Global,
    left: &Row,
    right: &[Row],
    places: &[usize],
    condition: Option<&TypedExpr>,
) -> Result<bool, OutOfMemory>
    requires literals { IfSome (option_copied condition) HasLiteralsInRange }
    requires left_dates { HasDatesInRange left.now }
    requires right_dates { All HasDatesInRange right.now }
    requires within { All (λ place. place < length right.now) places.now }
    ensures { IfOk result (λ is. is ≡ matches_some (option_copied condition.entry) (rows_at right.now places.now) left.now) }
{
    for place in places {
        if is_match(alloc, left, &right[*place], condition)? {
            return Ok(true);
        }
    }
    Ok(false)
}

/// Whether two rows match.
fn is_match(
    alloc: Global,
    left: &Row,
    right: &Row,
    condition: Option<&TypedExpr>,
) -> Result<bool, OutOfMemory>
    requires literals { IfSome (option_copied condition) HasLiteralsInRange }
    requires left_dates { HasDatesInRange left.now }
    requires right_dates { HasDatesInRange right.now }
    ensures { IfOk result (λ is. is ≡ matches (option_copied condition.entry) left.now right.now) }
{
    let row = joined_row(alloc, left, right)?;
    passes(alloc, condition, &row)
}

/// Whether the condition, where there is one, is true of the row.
fn passes(alloc: Global, condition: Option<&TypedExpr>, row: &Row) -> Result<bool, OutOfMemory>
    requires literals { IfSome (option_copied condition) HasLiteralsInRange }
    requires dates { HasDatesInRange row.now }
    ensures { IfOk result (λ is. is ≡ is_passed_by (option_copied condition.entry) row.now) }
{
    match condition {
        None => Ok(true),
        Some(condition) => holds(alloc, condition, row),
    }
}

/// Copies of two rows side by side.
pub(crate) fn joined_row(alloc: Global, left: &Row, right: &Row) -> Result<Row, OutOfMemory>
    ensures { IfOk result (λ row. row ≡ beside left.now right.now) }
{
    let mut values = left.0.copy(alloc)?;
    for value in right.0.as_slice() {
        values.push(value.copy(alloc)?)?;
    }
    Ok(Row(values))
}
