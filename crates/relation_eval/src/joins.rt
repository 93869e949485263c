ghost use Rattle.std.specs.Prelude.{◌≡◌, ◌<◌, ◌*◌, ◌++◌, not, IfOk, IfSome, IsTrue, OnOk, All, length, map, filter};
ghost use Rattle.std.specs.Option.{option_copied};
ghost use Rattle.plan_model.specs.Joins.{joined};
ghost use Rattle.plan_model.specs.Outcomes.{limited, row_limit};
ghost use Rattle.expr_eval.specs.Dated.{HasLiteralsInRange, HasDatesInRange};
ghost use Rattle.relation_eval.specs.Firsts.{flagged};
ghost use Rattle.relation_eval.specs.Given.{rows_of, outcome_of};
ghost use Rattle.relation_eval.specs.Joined.{null_row, widths_joining, rows_where, has_left_alone, has_right_alone, pairs_and_alone, unflagged, before_nulls, behind_nulls};
ghost use Rattle.relation_eval.specs.Matches.{matches_some};

use crate::equalities::key_columns;
use crate::firsts::flagged_rows;
use crate::given::{Given, HeldRows};
use crate::limits::{ROW_LIMIT, limited_rows};
use crate::matches::{Matched, find_matches, joined_row, match_flags};
use cn_base::{Copied, List, OutOfMemory};
use cn_types::{Row, Value};
use plan_model::{JoinKind, TypedExpr};
use std::alloc::Global;

/// The rows of a join: the pairs that match, in the order of the left rows and within them of the right ones; behind them the left rows
/// without a match beside nulls, and then the right ones. A semi and an anti join have the left rows with, and without, a match, which are
/// moved where they are owned. It stops where there are too many pairs.
pub fn join(
    alloc: Global,
    left: HeldRows,
    right: HeldRows,
    kind: JoinKind,
    condition: Option<&TypedExpr>,
    left_width: usize,
    right_width: usize,
) -> Result<Given, OutOfMemory>
    requires literals { IfSome (option_copied condition) HasLiteralsInRange }
    requires left_dates { All HasDatesInRange (rows_of left) }
    requires right_dates { All HasDatesInRange (rows_of right) }
    ensures { IfOk result (λ given. outcome_of given ≡ limited (joined kind (widths_joining (option_copied condition.entry) left_width right_width) (rows_of left) (rows_of right))) }
{
    let a = left.as_slice();
    let b = right.as_slice();
    match kind {
        JoinKind::Inner => both_sides(alloc, a, b, kind, condition, left_width, right_width),
        JoinKind::Cross => both_sides(alloc, a, b, kind, condition, left_width, right_width),
        JoinKind::Left => both_sides(alloc, a, b, kind, condition, left_width, right_width),
        JoinKind::Right => both_sides(alloc, a, b, kind, condition, left_width, right_width),
        JoinKind::Full => both_sides(alloc, a, b, kind, condition, left_width, right_width),
        JoinKind::Semi => semi(alloc, left, b, condition, left_width),
        JoinKind::Anti => anti(alloc, left, b, condition, left_width),
    }
}

/// The left rows that have a match.
fn semi(
    alloc: Global,
    left: HeldRows,
    right: &[Row],
    condition: Option<&TypedExpr>,
    left_width: usize,
) -> Result<Given, OutOfMemory>
    requires literals { IfSome (option_copied condition) HasLiteralsInRange }
    requires left_dates { All HasDatesInRange (rows_of left) }
    requires right_dates { All HasDatesInRange right.now }
    ensures { IfOk result (λ given. outcome_of given ≡ limited (filter (matches_some (option_copied condition.entry) right.now) (rows_of left))) }
{
    let keys = key_columns(alloc, left.as_slice(), right, condition, left_width)?;
    let flags = match_flags(alloc, left.as_slice(), right, condition, &keys)?;
    let list = kept_rows(alloc, left, flags.as_slice())?;
    Ok(limited_rows(HeldRows::Owned(list)))
}

/// The left rows that have no match.
fn anti(
    alloc: Global,
    left: HeldRows,
    right: &[Row],
    condition: Option<&TypedExpr>,
    left_width: usize,
) -> Result<Given, OutOfMemory>
    requires literals { IfSome (option_copied condition) HasLiteralsInRange }
    requires left_dates { All HasDatesInRange (rows_of left) }
    requires right_dates { All HasDatesInRange right.now }
    ensures { IfOk result (λ given. outcome_of given ≡ limited (filter (λ row. not (matches_some (option_copied condition.entry) right.now row)) (rows_of left))) }
{
    let keys = key_columns(alloc, left.as_slice(), right, condition, left_width)?;
    let flags = match_flags(alloc, left.as_slice(), right, condition, &keys)?;
    let others = negated(alloc, flags.as_slice())?;
    let list = kept_rows(alloc, left, others.as_slice())?;
    Ok(limited_rows(HeldRows::Owned(list)))
}

/// The pairs that match and, as the kind says, the rows without a match beside nulls.
fn both_sides(
    alloc: Global,
    left: &[Row],
    right: &[Row],
    kind: JoinKind,
    condition: Option<&TypedExpr>,
    left_width: usize,
    right_width: usize,
) -> Result<Given, OutOfMemory>
    requires literals { IfSome (option_copied condition) HasLiteralsInRange }
    requires left_dates { All HasDatesInRange left.now }
    requires right_dates { All HasDatesInRange right.now }
    ensures { IfOk result (λ given. outcome_of given ≡ limited (pairs_and_alone kind (widths_joining (option_copied condition.entry) left_width right_width) left.now right.now)) }
{
    if condition.is_none() && is_too_many(left.len(), right.len()) {
        return Ok(Given::TooManyRows);
    }
    let keys = key_columns(alloc, left, right, condition, left_width)?;
    match find_matches(alloc, left, right, condition, &keys)? {
        None => Ok(Given::TooManyRows),
        Some(found) => with_rows_alone(alloc, found, left, right, kind, left_width, right_width),
    }
}

/// Whether so many left and so many right rows have too many pairs.
#[tactic(auto, unfolding(plan_model::specs::Outcomes::row_limit))]
fn is_too_many(left: usize, right: usize) -> bool
    ensures { IsTrue result → row_limit < left * right }
{
    match left.checked_mul(right) {
        None => true,
        Some(product) => product > ROW_LIMIT,
    }
}

/// The pairs, and behind them the rows whose flag isn't set beside nulls, as the kind says.
fn with_rows_alone(
    alloc: Global,
    found: Matched,
    left: &[Row],
    right: &[Row],
    kind: JoinKind,
    left_width: usize,
    right_width: usize,
) -> Result<Given, OutOfMemory>
    requires left_flags { length found.left_flags.items ≡ length left.now }
    requires right_flags { length found.right_flags.items ≡ length right.now }
    ensures { IfOk result (λ given. outcome_of given ≡ limited (found.rows.items ++ rows_where (has_left_alone kind) (before_nulls right_width (unflagged found.left_flags.items left.now)) ++ rows_where (has_right_alone kind) (behind_nulls left_width (unflagged found.right_flags.items right.now)))) }
{
    let Matched {
        mut rows,
        left_flags,
        right_flags,
    } = found;
    let wants_left = keeps_left(kind);
    push_left_alone(
        alloc,
        &mut rows,
        left,
        left_flags.as_slice(),
        right_width,
        wants_left,
    )?;
    let wants_right = keeps_right(kind);
    push_right_alone(
        alloc,
        &mut rows,
        right,
        right_flags.as_slice(),
        left_width,
        wants_right,
    )?;
    Ok(limited_rows(HeldRows::Owned(rows)))
}

fn keeps_left(kind: JoinKind) -> bool
    ensures { result ≡ has_left_alone kind }
{
    matches!(kind, JoinKind::Left | JoinKind::Full)
}

fn keeps_right(kind: JoinKind) -> bool
    ensures { result ≡ has_right_alone kind }
{
    matches!(kind, JoinKind::Right | JoinKind::Full)
}

/// Adds the left rows whose flag isn't set, beside so many nulls, where they are wanted.
fn push_left_alone(
    alloc: Global,
    list: &mut Vec<Row>,
    rows: &[Row],
    flags: &[bool],
    width: usize,
    wanted: bool,
) -> Result<(), OutOfMemory>
    requires { length flags.now ≡ length rows.now }
    ensures { OnOk result (list.new.items ≡ list.old.items ++ rows_where wanted (before_nulls width (unflagged flags.now rows.now))) }
{
    if !wanted {
        return Ok(());
    }
    let nulls = nulls_of(alloc, width)?;
    for (place, row) in rows.iter().enumerate() {
        if !flags[place] {
            list.push(joined_row(alloc, row, &nulls)?)?;
        }
    }
    Ok(())
}

/// Adds the right rows whose flag isn't set, behind so many nulls, where they are wanted.
fn push_right_alone(
    alloc: Global,
    list: &mut Vec<Row>,
    rows: &[Row],
    flags: &[bool],
    width: usize,
    wanted: bool,
) -> Result<(), OutOfMemory>
    requires { length flags.now ≡ length rows.now }
    ensures { OnOk result (list.new.items ≡ list.old.items ++ rows_where wanted (behind_nulls width (unflagged flags.now rows.now))) }
{
    if !wanted {
        return Ok(());
    }
    let nulls = nulls_of(alloc, width)?;
    for (place, row) in rows.iter().enumerate() {
        if !flags[place] {
            list.push(joined_row(alloc, &nulls, row)?)?;
        }
    }
    Ok(())
}

/// A row of so many nulls.
fn nulls_of(alloc: Global, width: usize) -> Result<Row, OutOfMemory>
    ensures { IfOk result (λ row. row ≡ null_row width) }
{
    let mut values = List::new(alloc);
    for _ in 0..width {
        values.push(Value::Null)?;
    }
    Ok(Row(values))
}

/// The rows whose flag is set. Owned rows are moved.
fn kept_rows(alloc: Global, rows: HeldRows, flags: &[bool]) -> Result<Vec<Row>, OutOfMemory>
    requires { length flags.now ≡ length (rows_of rows) }
    ensures { IfOk result (λ v. v.items ≡ flagged flags.now (rows_of rows)) }
{
    match rows {
        HeldRows::Shared(shared) => copies_of_flagged(alloc, shared.as_slice(), flags),
        HeldRows::Owned(owned) => flagged_rows(alloc, owned, flags),
    }
}

fn copies_of_flagged(alloc: Global, rows: &[Row], flags: &[bool]) -> Result<Vec<Row>, OutOfMemory>
    requires { length flags.now ≡ length rows.now }
    ensures { IfOk result (λ v. v.items ≡ flagged flags.now rows.now) }
{
    let mut kept = Vec::new(alloc);
    for (place, row) in rows.iter().enumerate() {
        if flags[place] {
            kept.push(row.copy(alloc)?)?;
        }
    }
    Ok(kept)
}

fn negated(alloc: Global, flags: &[bool]) -> Result<Vec<bool>, OutOfMemory>
    ensures { IfOk result (λ v. v.items ≡ map not flags.now) }
{
    flags.iter().map(|flag| !*flag).collect(alloc)
}
