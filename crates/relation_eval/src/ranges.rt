ghost use Rattle.std.specs.Prelude.{◌≡◌, ◌≢◌, ◌<◌, pos, IfOk, OnOk, IsTrue, ◌++◌, [], length};
ghost use Rattle.plan_model.specs.Chosen.{range_rows};
ghost use Rattle.plan_model.specs.Outcomes.{Bounded, row_limit};
ghost use Rattle.plan_model.specs.Ranges.{IsRange, row_of};
ghost use Rattle.relation_eval.specs.Given.{outcome_of};
ghost use Rattle.relation_eval.specs.RangeRows.{goes_on};

use crate::given::{Given, HeldRows};
use crate::limits::{ROW_LIMIT, limited_rows};
use cn_base::{List, OutOfMemory};
use cn_types::{Row, Value};
use std::alloc::Global;

/// The longs from the start by the step before the end, in this order. A range of too many rows is refused without being built.
pub fn range(alloc: Global, start: i64, end: i64, step: i64) -> Result<Given, OutOfMemory>
    requires { step ≢ pos 0 }
    ensures { IfOk result (λ given. Bounded (IsRange start end step) (outcome_of given)) }
{
    if is_too_long(start, end, step) {
        return Ok(Given::TooManyRows);
    }
    let rows = rows_of_range(alloc, start, end, step)?;
    Ok(limited_rows(HeldRows::Owned(rows)))
}

/// Whether a range has more rows than the limit: as many steps as the limit lead to a number before its end.
fn is_too_long(start: i64, end: i64, step: i64) -> bool
    requires { step ≢ pos 0 }
    ensures { IsTrue result → row_limit < length (range_rows start end step) }
{
    if !is_before(start, end, step) {
        return false;
    }
    step.unsigned_abs() <= (end.abs_diff(start) - 1) / ROW_LIMIT as u64
}

fn is_before(number: i64, end: i64, step: i64) -> bool
    ensures { result ≡ goes_on step number end }
{
    if step > 0 { number < end } else { end < number }
}

fn rows_of_range(alloc: Global, start: i64, end: i64, step: i64) -> Result<Vec<Row>, OutOfMemory>
    requires { step ≢ pos 0 }
    ensures { IfOk result (λ v. v.items ≡ range_rows start end step) }
{
    let mut rows = Vec::new(alloc);
    let mut number = start;
    'numbers: while is_before(number, end, step) {
        rows.push(row_of_number(alloc, number)?)?;
        match number.checked_add(step) {
            Some(next) => number = next,
            None => return Ok(rows),
        }
    }
    Ok(rows)
}

fn row_of_number(alloc: Global, number: i64) -> Result<Row, OutOfMemory>
    ensures { IfOk result (λ r. r ≡ row_of number) }
{
    let mut values = List::new(alloc);
    values.push(Value::Long(number))?;
    Ok(Row(values))
}
