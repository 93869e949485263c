ghost use Rattle.std.specs.Prelude.{◌≡◌, IfOk};
ghost use Rattle.cn_types.specs.Fit.{HasDateInRange};
ghost use Rattle.cn_types.specs.Printed.{printed};
ghost use Rattle.plan_model.specs.Casts.{cast_to};

use crate::arithmetic::low_integer;
use crate::dates::printed_date;
use cn_base::{Copied, OutOfMemory, Text};
use cn_types::{DataType, Value};
use std::alloc::Global;

/// The value in another type. A null stays null, and so becomes what no cast takes.
pub(crate) fn cast(alloc: Global, kind: DataType, value: &Value) -> Result<Value, OutOfMemory>
    requires { HasDateInRange value.now }
    ensures value { IfOk result (λ v. v ≡ cast_to kind value.now) }
    ensures dated { IfOk result HasDateInRange }
{
    match kind {
        DataType::Boolean => Ok(as_boolean(value)),
        DataType::Integer => Ok(as_integer(value)),
        DataType::Long => Ok(as_long(value)),
        DataType::Text => as_text(alloc, value),
        DataType::Date => Ok(as_date(value)),
    }
}

fn as_boolean(value: &Value) -> Value
    ensures value { result ≡ cast_to DataType.Boolean value.now }
    ensures dated { HasDateInRange result }
{
    match value {
        Value::Boolean(truth) => Value::Boolean(*truth),
        Value::Integer(number) => Value::Boolean(*number != 0),
        Value::Long(number) => Value::Boolean(*number != 0),
        _ => Value::Null,
    }
}

fn as_integer(value: &Value) -> Value
    ensures value { result ≡ cast_to DataType.Integer value.now }
    ensures dated { HasDateInRange result }
{
    match value {
        Value::Boolean(truth) => Value::Integer(i32::from(*truth)),
        Value::Integer(number) => Value::Integer(*number),
        Value::Long(number) => Value::Integer(low_integer(*number)),
        _ => Value::Null,
    }
}

fn as_long(value: &Value) -> Value
    ensures value { result ≡ cast_to DataType.Long value.now }
    ensures dated { HasDateInRange result }
{
    match value {
        Value::Boolean(truth) => Value::Long(i64::from(*truth)),
        Value::Integer(number) => Value::Long(i64::from(*number)),
        Value::Long(number) => Value::Long(*number),
        _ => Value::Null,
    }
}

fn as_date(value: &Value) -> Value
    requires { HasDateInRange value.now }
    ensures value { result ≡ cast_to DataType.Date value.now }
    ensures dated { HasDateInRange result }
{
    match value {
        Value::Date(day) => Value::Date(*day),
        _ => Value::Null,
    }
}

/// A text stays as it is, and other values become what is printed for them.
fn as_text(alloc: Global, value: &Value) -> Result<Value, OutOfMemory>
    requires { HasDateInRange value.now }
    ensures value { IfOk result (λ v. v ≡ cast_to DataType.Text value.now) }
    ensures dated { IfOk result HasDateInRange }
{
    match value {
        Value::Null => Ok(Value::Null),
        Value::Boolean(truth) => Ok(Value::Text(truth_text(alloc, *truth)?)),
        Value::Integer(number) => Ok(Value::Text(integer_text(alloc, *number)?)),
        Value::Long(number) => Ok(Value::Text(long_text(alloc, *number)?)),
        Value::Text(text) => Ok(Value::Text(text.copy(alloc)?)),
        Value::Date(day) => Ok(Value::Text(printed_date(alloc, *day)?)),
    }
}

fn truth_text(alloc: Global, truth: bool) -> Result<Text, OutOfMemory>
    ensures { IfOk result (λ text. text ≡ printed (Value.Boolean truth)) }
{
    if truth {
        Text::of(alloc, "true")
    } else {
        Text::of(alloc, "false")
    }
}

fn integer_text(alloc: Global, number: i32) -> Result<Text, OutOfMemory>
    ensures { IfOk result (λ text. text ≡ printed (Value.Integer number)) }
{
    let text = number.to_string(alloc)?;
    Ok(Text::from_string(text))
}

fn long_text(alloc: Global, number: i64) -> Result<Text, OutOfMemory>
    ensures { IfOk result (λ text. text ≡ printed (Value.Long number)) }
{
    let text = number.to_string(alloc)?;
    Ok(Text::from_string(text))
}
