ghost use Rattle.std.specs.Prelude.{◌≡◌, ◌≢◌, ◌↔◌, pos, ◌<ℤ◌, IsTrue, IfOk};
ghost use Rattle.connect_replay.specs.Range.{IsBefore, IsRange, row_of};

use cn_base::{List, OutOfMemory};
use cn_types::{Row, Value};
use std::alloc::Global;

/// Whether a number is before the end of a range with this step, which isn't 0.
pub fn is_before(step: i64, number: i64, end: i64) -> bool
    requires { step ≢ pos 0 }
    ensures { IsTrue result ↔ IsBefore step number end }
{
    if step > 0 { number < end } else { end < number }
}

/// The numbers from `start` by `step` before `end`, in this order.
pub fn range_numbers(
    alloc: Global,
    start: i64,
    end: i64,
    step: i64,
) -> Result<List<i64>, OutOfMemory>
    requires { step ≢ pos 0 }
    ensures { IfOk result (IsRange start end step) }
{
    let mut numbers = List::new(alloc);
    let mut number = start;
    while is_before(step, number, end) {
        numbers.push(number)?;
        number = number.saturating_add(step);
    }
    Ok(numbers)
}

/// The row of a number.
pub fn number_row(alloc: Global, number: i64) -> Result<Row, OutOfMemory>
    ensures { IfOk result (λ row. row ≡ row_of number) }
{
    let mut values = List::new(alloc);
    values.push(Value::Long(number))?;
    Ok(Row(values))
}
