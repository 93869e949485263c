ghost use Rattle.std.specs.Prelude.{◌≡◌, ◌≤ℤ◌, ◌+ℤ◌, ◌-ℤ◌, negsuc, pos, IfOk};
ghost use Rattle.std.specs.String.{string_bytes};
ghost use Rattle.jiff_core.specs.Date.{epoch_day};
ghost use Rattle.cn_types.specs.Dates.{year_of, month_of, month_day_of, date_text};
ghost use Rattle.cn_types.specs.Fit.{IsDay, HasDateInRange};
ghost use Rattle.plan_model.specs.DateFunctions.{date_in_range, date_moved, date_difference, date_part};

use cn_base::{OutOfMemory, Text};
use cn_types::Value;
use jiff_core::civil::Date;
use std::alloc::Global;

/// `date_add`: null out of range.
pub(crate) fn later(left: &Value, right: &Value) -> Value
    ensures value { result ≡ date_moved (λ day days. day +ℤ days) left.now right.now }
    ensures dated { HasDateInRange result }
{
    match (left, right) {
        (Value::Date(day), Value::Integer(days)) => day_after(*day, *days),
        _ => Value::Null,
    }
}

/// `date_sub`: null out of range.
pub(crate) fn earlier(left: &Value, right: &Value) -> Value
    ensures value { result ≡ date_moved (λ day days. day -ℤ days) left.now right.now }
    ensures dated { HasDateInRange result }
{
    match (left, right) {
        (Value::Date(day), Value::Integer(days)) => day_before(*day, *days),
        _ => Value::Null,
    }
}

fn day_after(day: i32, days: i32) -> Value
    ensures value { result ≡ date_in_range (day +ℤ days) }
    ensures dated { HasDateInRange result }
{
    checked_date(i64::from(day) + i64::from(days))
}

fn day_before(day: i32, days: i32) -> Value
    ensures value { result ≡ date_in_range (day -ℤ days) }
    ensures dated { HasDateInRange result }
{
    checked_date(i64::from(day) - i64::from(days))
}

/// The date of a day, or null out of range.
fn checked_date(day: i64) -> Value
    ensures value { result ≡ date_in_range day }
    ensures dated { HasDateInRange result }
{
    if day >= -719_162 && day <= 2_932_896 {
        Value::Date(day as i32)
    } else {
        Value::Null
    }
}

/// `datediff`: the days from the second date to the first.
pub(crate) fn days_between(left: &Value, right: &Value) -> Value
    requires left { HasDateInRange left.now }
    requires right { HasDateInRange right.now }
    ensures value { result ≡ date_difference left.now right.now }
    ensures dated { HasDateInRange result }
{
    match (left, right) {
        (Value::Date(left), Value::Date(right)) => Value::Integer(*left - *right),
        _ => Value::Null,
    }
}

/// `year`.
pub(crate) fn year(value: &Value) -> Value
    requires { HasDateInRange value.now }
    ensures value { result ≡ date_part year_of value.now }
    ensures dated { HasDateInRange result }
{
    match value {
        Value::Date(day) => Value::Integer(i32::from(calendar_date(*day).year)),
        _ => Value::Null,
    }
}

/// `month`.
pub(crate) fn month(value: &Value) -> Value
    requires { HasDateInRange value.now }
    ensures value { result ≡ date_part month_of value.now }
    ensures dated { HasDateInRange result }
{
    match value {
        Value::Date(day) => Value::Integer(i32::from(calendar_date(*day).month)),
        _ => Value::Null,
    }
}

/// `dayofmonth`.
pub(crate) fn day_of_month(value: &Value) -> Value
    requires { HasDateInRange value.now }
    ensures value { result ≡ date_part month_day_of value.now }
    ensures dated { HasDateInRange result }
{
    match value {
        Value::Date(day) => Value::Integer(i32::from(calendar_date(*day).day)),
        _ => Value::Null,
    }
}

/// The date as YYYY-MM-DD.
pub(crate) fn printed_date(alloc: Global, day: i32) -> Result<Text, OutOfMemory>
    requires { IsDay day }
    ensures { IfOk result (λ text. text ≡ date_text day) }
{
    let text = jiff::civil::Date::from_plain(calendar_date(day)).to_string(alloc)?;
    Ok(Text::from_string(text))
}

fn calendar_date(day: i32) -> Date
    requires { IsDay day }
    ensures days { epoch_day result ≡ day }
    ensures year { result.year ≡ pos (year_of day) }
    ensures month { result.month ≡ month_of day }
    ensures day { result.day ≡ month_day_of day }
{
    let Ok(date) = Date::from_unix_epoch_day(i64::from(day)) else {
        unreachable!()
    };
    date
}
