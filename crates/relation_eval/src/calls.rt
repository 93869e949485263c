ghost use Rattle.std.specs.Prelude.{◌≡◌, ◌≤◌, ◌<◌, ◌+◌, IfOk, IfSome, All, length, map, drop, option_map, unwrap_or, slice_index_or, IsPermutation};
ghost use Rattle.std.specs.List.{list_any};
ghost use Rattle.std.specs.List.Sorted.{IsSortedBy};
ghost use Rattle.cn_types.specs.declared.value.Value.TheVariants.{Null};
ghost use Rattle.cn_types.specs.Fit.{HasDateInRange};
ghost use Rattle.cn_types.specs.Order.{value_eq};
ghost use Rattle.plan_model.specs.Aggregates.{call_value, aggregate_of, rows_aggregate_of, count_of, sum_of, different, present};
ghost use Rattle.plan_model.specs.Truth.{is_present};
ghost use Rattle.plan_model.specs.Val.{val};
ghost use Rattle.expr_eval.specs.Dated.{HasLiteralsInRange, HasDatesInRange};
ghost use Rattle.expr_eval.specs.Operands.{operand_value};
ghost use Rattle.relation_eval.specs.Calls.{HasArgumentInRange, term_of, sum_with, sum_there, long_of, better, best_with, best_there, operand_before};
ghost use Rattle.relation_eval.specs.Members.{rows_at, values_at};

use crate::sorting::is_value;
use cn_base::OutOfMemory;
use cn_types::{Row, Value, order};
use expr_eval::{Operand, operand_of};
use plan_model::{AggregateCall, Function, TypedExpr};
use std::alloc::Global;

/// The value of an aggregate call over the rows at these places, each of which is visited once.
pub(crate) fn call_over(
    alloc: Global,
    call: &AggregateCall,
    rows: &[Row],
    places: &[usize],
) -> Result<Value, OutOfMemory>
    requires argument { HasArgumentInRange call.now }
    requires dates { All HasDatesInRange rows.now }
    requires within { All (λ place. place < length rows.now) places.now }
    ensures value { IfOk result (λ v. v ≡ call_value call.now (rows_at rows.now places.now)) }
    ensures dated { IfOk result HasDateInRange }
{
    match &call.argument {
        None => Ok(of_rows(call.function, rows, places)),
        Some(argument) => of_values(alloc, call.function, call.distinct, argument, rows, places),
    }
}

/// `count(*)`; another function of whole rows has no value.
fn of_rows(function: Function, rows: &[Row], places: &[usize]) -> Value
    ensures value { result ≡ rows_aggregate_of function (rows_at rows.now places.now) }
    ensures dated { HasDateInRange result }
{
    match function {
        Function::Count => Value::Long(places.len() as i64),
        _ => Value::Null,
    }
}

fn of_values(
    alloc: Global,
    function: Function,
    distinct: bool,
    argument: &TypedExpr,
    rows: &[Row],
    places: &[usize],
) -> Result<Value, OutOfMemory>
    requires literals { HasLiteralsInRange argument.now }
    requires dates { All HasDatesInRange rows.now }
    requires within { All (λ place. place < length rows.now) places.now }
    ensures value { IfOk result (λ v. v ≡ aggregate_of function distinct (values_at argument.now rows.now places.now)) }
    ensures dated { IfOk result HasDateInRange }
{
    match function {
        Function::Count => count(alloc, argument, rows, places, distinct),
        Function::Sum => sum(alloc, argument, rows, places),
        Function::Min => extreme(alloc, argument, rows, places, false),
        Function::Max => extreme(alloc, argument, rows, places, true),
        _ => Ok(Value::Null),
    }
}

fn count(
    alloc: Global,
    argument: &TypedExpr,
    rows: &[Row],
    places: &[usize],
    distinct: bool,
) -> Result<Value, OutOfMemory>
    requires literals { HasLiteralsInRange argument.now }
    requires dates { All HasDatesInRange rows.now }
    requires within { All (λ place. place < length rows.now) places.now }
    ensures value { IfOk result (λ v. v ≡ count_of distinct (values_at argument.now rows.now places.now)) }
    ensures dated { IfOk result HasDateInRange }
{
    let number = if distinct {
        count_different(alloc, argument, rows, places)?
    } else {
        count_present(alloc, argument, rows, places)?
    };
    Ok(Value::Long(number as i64))
}

/// How many values are not null.
fn count_present(
    alloc: Global,
    argument: &TypedExpr,
    rows: &[Row],
    places: &[usize],
) -> Result<usize, OutOfMemory>
    requires literals { HasLiteralsInRange argument.now }
    requires dates { All HasDatesInRange rows.now }
    requires within { All (λ place. place < length rows.now) places.now }
    ensures number { IfOk result (λ n. n ≡ length (present (values_at argument.now rows.now places.now))) }
    ensures bound { IfOk result (λ n. n ≤ length places.now) }
{
    let mut number = 0;
    for place in places {
        if has_value(alloc, argument, &rows[*place])? {
            number += 1;
        }
    }
    Ok(number)
}

fn has_value(alloc: Global, argument: &TypedExpr, row: &Row) -> Result<bool, OutOfMemory>
    requires literals { HasLiteralsInRange argument.now }
    requires dates { HasDatesInRange row.now }
    ensures { IfOk result (λ b. b ≡ is_present (val argument.now row.now)) }
{
    let found = operand_of(alloc, argument, row)?;
    Ok(is_value(found.value()))
}

/// How many different values are not null. The values are lent and not copied.
fn count_different(
    alloc: Global,
    argument: &TypedExpr,
    rows: &[Row],
    places: &[usize],
) -> Result<usize, OutOfMemory>
    requires literals { HasLiteralsInRange argument.now }
    requires dates { All HasDatesInRange rows.now }
    requires within { All (λ place. place < length rows.now) places.now }
    ensures number { IfOk result (λ n. n ≡ length (different (present (values_at argument.now rows.now places.now)))) }
    ensures bound { IfOk result (λ n. n ≤ length places.now) }
{
    let found = present_operands(alloc, argument, rows, places)?;
    let ordered = in_order(found)?;
    Ok(number_of_different(ordered.as_slice()))
}

fn present_operands<'a>(
    alloc: Global,
    argument: &'a TypedExpr,
    rows: &'a [Row],
    places: &[usize],
) -> Result<Vec<Operand<'a>>, OutOfMemory>
    requires literals { HasLiteralsInRange argument.now }
    requires dates { All HasDatesInRange rows.now }
    requires within { All (λ place. place < length rows.now) places.now }
    ensures present { IfOk result (λ v. map operand_value v.items ≡ present (values_at argument.now rows.now places.now)) }
    ensures bound { IfOk result (λ v. length v.items ≤ length places.now) }
{
    let mut operands = Vec::new(alloc);
    for place in places {
        let found = operand_of(alloc, argument, &rows[*place])?;
        if is_value(found.value()) {
            operands.push(found)?;
        }
    }
    Ok(operands)
}

fn in_order<'a>(mut operands: Vec<Operand<'a>>) -> Result<Vec<Operand<'a>>, OutOfMemory>
    ensures permuted { IfOk result (λ v. IsPermutation operands.entry.items v.items) }
    ensures ordered { IfOk result (λ v. IsSortedBy operand_before v.items) }
{
    operands.sort_by(|left, right| order(left.value(), right.value()))?;
    Ok(operands)
}

/// How many different values there are among values in order.
fn number_of_different(operands: &[Operand<'_>]) -> usize
    requires { IsSortedBy operand_before operands.now }
    ensures number { result ≡ length (different (map operand_value operands.now)) }
    ensures bound { result ≤ length operands.now }
{
    let mut number = 0;
    for place in 0..operands.len() {
        if !stands_again(operands, place) {
            number += 1;
        }
    }
    number
}

/// Whether the value at a place stands again behind it: where the values are in order, at the next place.
fn stands_again(operands: &[Operand<'_>], place: usize) -> bool
    requires ordered { IsSortedBy operand_before operands.now }
    requires there { place < length operands.now }
    ensures { result ≡ list_any (value_eq (slice_index_or (map operand_value operands.now) place Null)) (drop (place + 1) (map operand_value operands.now)) }
{
    match operands.get(place + 1) {
        Some(next) => order(operands[place].value(), next.value()).is_eq(),
        None => false,
    }
}

/// The sum of the numbers, which wraps; null of no value.
fn sum(
    alloc: Global,
    argument: &TypedExpr,
    rows: &[Row],
    places: &[usize],
) -> Result<Value, OutOfMemory>
    requires literals { HasLiteralsInRange argument.now }
    requires dates { All HasDatesInRange rows.now }
    requires within { All (λ place. place < length rows.now) places.now }
    ensures value { IfOk result (λ v. v ≡ sum_of (values_at argument.now rows.now places.now)) }
    ensures dated { IfOk result HasDateInRange }
{
    let mut sum = None;
    for place in places {
        let term = term_at(alloc, argument, &rows[*place])?;
        sum = with_term(sum, term);
    }
    Ok(long_or_null(sum))
}

/// What a row's value adds to a sum: nothing where it is null.
fn term_at(alloc: Global, argument: &TypedExpr, row: &Row) -> Result<Option<i64>, OutOfMemory>
    requires literals { HasLiteralsInRange argument.now }
    requires dates { HasDatesInRange row.now }
    ensures { IfOk result (λ term. term ≡ term_of (val argument.now row.now)) }
{
    let found = operand_of(alloc, argument, row)?;
    Ok(term(found.value()))
}

fn term(value: &Value) -> Option<i64>
    ensures { result ≡ term_of value.now }
{
    match value {
        Value::Null => None,
        Value::Integer(number) => Some(i64::from(*number)),
        Value::Long(number) => Some(*number),
        Value::Boolean(_) => Some(0),
        Value::Text(_) => Some(0),
        Value::Date(_) => Some(0),
    }
}

fn with_term(sum: Option<i64>, term: Option<i64>) -> Option<i64>
    ensures { result ≡ sum_with sum term }
{
    match term {
        Some(term) => Some(sum.unwrap_or(0).wrapping_add(term)),
        None => sum,
    }
}

fn long_or_null(number: Option<i64>) -> Value
    ensures value { result ≡ long_of number }
    ensures dated { HasDateInRange result }
{
    match number {
        Some(number) => Value::Long(number),
        None => Value::Null,
    }
}

/// The greatest or the least value that is not null; null of no value. Only the value that is found is copied.
fn extreme(
    alloc: Global,
    argument: &TypedExpr,
    rows: &[Row],
    places: &[usize],
    greatest: bool,
) -> Result<Value, OutOfMemory>
    requires literals { HasLiteralsInRange argument.now }
    requires dates { All HasDatesInRange rows.now }
    requires within { All (λ place. place < length rows.now) places.now }
    ensures value { IfOk result (λ v. v ≡ unwrap_or (best_there greatest (values_at argument.now rows.now places.now)) Null) }
    ensures dated { IfOk result HasDateInRange }
{
    let mut best = None;
    for place in places {
        let found = operand_of(alloc, argument, &rows[*place])?;
        best = with_operand(best, found, greatest);
    }
    match best {
        Some(found) => found.into_value(alloc),
        None => Ok(Value::Null),
    }
}

fn with_operand<'a>(
    best: Option<Operand<'a>>,
    found: Operand<'a>,
    greatest: bool,
) -> Option<Operand<'a>>
    requires best { IfSome best (λ held. HasDateInRange (operand_value held)) }
    requires found { HasDateInRange (operand_value found) }
    ensures value { option_map operand_value result ≡ best_with greatest (option_map operand_value best.entry) (operand_value found.entry) }
    ensures dated { IfSome result (λ held. HasDateInRange (operand_value held)) }
{
    if !is_value(found.value()) {
        return best;
    }
    match best {
        Some(held) => Some(better_operand(held, found, greatest)),
        None => Some(found),
    }
}

fn better_operand<'a>(held: Operand<'a>, found: Operand<'a>, greatest: bool) -> Operand<'a>
    requires held { HasDateInRange (operand_value held) }
    requires found { HasDateInRange (operand_value found) }
    ensures value { operand_value result ≡ better greatest (operand_value held.entry) (operand_value found.entry) }
    ensures dated { HasDateInRange (operand_value result) }
{
    let found_first = order(found.value(), held.value()).is_lt();
    if found_first == greatest { held } else { found }
}
