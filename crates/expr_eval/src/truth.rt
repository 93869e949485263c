ghost use Rattle.std.specs.Prelude.{◌≡◌};
ghost use Rattle.cn_types.specs.Fit.{HasDateInRange};
ghost use Rattle.plan_model.specs.Truth.{and_value, or_value, not_value, is_true, is_present, is_null, is_not_null};

use cn_types::Value;

/// `and` of three-valued logic.
pub(crate) fn both(left: &Value, right: &Value) -> Value
    ensures value { result ≡ and_value left.now right.now }
    ensures dated { HasDateInRange result }
{
    match (left, right) {
        (Value::Boolean(false), _) => Value::Boolean(false),
        (_, Value::Boolean(false)) => Value::Boolean(false),
        (Value::Boolean(true), Value::Boolean(true)) => Value::Boolean(true),
        _ => Value::Null,
    }
}

/// `or` of three-valued logic.
pub(crate) fn either(left: &Value, right: &Value) -> Value
    ensures value { result ≡ or_value left.now right.now }
    ensures dated { HasDateInRange result }
{
    match (left, right) {
        (Value::Boolean(true), _) => Value::Boolean(true),
        (_, Value::Boolean(true)) => Value::Boolean(true),
        (Value::Boolean(false), Value::Boolean(false)) => Value::Boolean(false),
        _ => Value::Null,
    }
}

/// `not`: null of null.
pub(crate) fn opposite(value: &Value) -> Value
    ensures value { result ≡ not_value value.now }
    ensures dated { HasDateInRange result }
{
    match value {
        Value::Boolean(truth) => Value::Boolean(!*truth),
        _ => Value::Null,
    }
}

/// Whether a condition holds: its value is true, and neither false nor null.
pub(crate) fn is_true_value(value: &Value) -> bool
    ensures { result ≡ is_true value.now }
{
    match value {
        Value::Boolean(truth) => *truth,
        _ => false,
    }
}

/// Whether the value is not null.
pub(crate) fn is_some_value(value: &Value) -> bool
    ensures { result ≡ is_present value.now }
{
    match value {
        Value::Null => false,
        _ => true,
    }
}

/// `isnull`.
pub(crate) fn null_test(value: &Value) -> Value
    ensures value { result ≡ is_null value.now }
    ensures dated { HasDateInRange result }
{
    Value::Boolean(!is_some_value(value))
}

/// `isnotnull`.
pub(crate) fn presence_test(value: &Value) -> Value
    ensures value { result ≡ is_not_null value.now }
    ensures dated { HasDateInRange result }
{
    Value::Boolean(is_some_value(value))
}
