ghost use Rattle.std.specs.Prelude.{◌≡◌, ◌≢◌, pos, neg_ℤ, int_div, unsigned_abs};
ghost use Rattle.std.specs.Int.{w32, w64, int_wrap};
ghost use Rattle.cn_types.specs.Fit.{HasDateInRange};
ghost use Rattle.plan_model.specs.Arithmetic.{number, arithmetic, remainder, integral_divide, negative, absolute};
ghost use Rattle.expr_eval.specs.Operations.{operation_of};

use cn_types::Value;

/// An operation on two numbers, which wraps.
#[derive(Clone, Copy, Debug, PartialEq, Eq)]
pub(crate) enum Operation {
    Add,
    Subtract,
    Multiply,
}

/// `+`, `-` or `*`: a long where one of the numbers is long; null where one is no number.
pub(crate) fn calculated(operation: Operation, left: &Value, right: &Value) -> Value
    ensures value { result ≡ arithmetic (operation_of operation) left.now right.now }
    ensures dated { HasDateInRange result }
{
    match (left, right) {
        (Value::Integer(left), Value::Integer(right)) => {
            Value::Integer(on_integers(operation, *left, *right))
        }
        (Value::Integer(left), Value::Long(right)) => {
            Value::Long(on_longs(operation, i64::from(*left), *right))
        }
        (Value::Long(left), Value::Integer(right)) => {
            Value::Long(on_longs(operation, *left, i64::from(*right)))
        }
        (Value::Long(left), Value::Long(right)) => {
            Value::Long(on_longs(operation, *left, *right))
        }
        _ => Value::Null,
    }
}

fn on_integers(operation: Operation, left: i32, right: i32) -> i32
    ensures { result ≡ int_wrap w32 (operation_of operation left right) }
{
    match operation {
        Operation::Add => left.wrapping_add(right),
        Operation::Subtract => left.wrapping_sub(right),
        Operation::Multiply => left.wrapping_mul(right),
    }
}

fn on_longs(operation: Operation, left: i64, right: i64) -> i64
    ensures { result ≡ int_wrap w64 (operation_of operation left right) }
{
    match operation {
        Operation::Add => left.wrapping_add(right),
        Operation::Subtract => left.wrapping_sub(right),
        Operation::Multiply => left.wrapping_mul(right),
    }
}

/// `%`, with the sign of the left; null by zero.
pub(crate) fn rest_of(left: &Value, right: &Value) -> Value
    ensures value { result ≡ remainder left.now right.now }
    ensures dated { HasDateInRange result }
{
    match (left, right) {
        (_, Value::Integer(0) | Value::Long(0)) => Value::Null,
        (Value::Integer(left), Value::Integer(right)) => {
            Value::Integer(left.wrapping_rem(*right))
        }
        (Value::Integer(left), Value::Long(right)) => {
            Value::Long(i64::from(*left).wrapping_rem(*right))
        }
        (Value::Long(left), Value::Integer(right)) => {
            Value::Long(left.wrapping_rem(i64::from(*right)))
        }
        (Value::Long(left), Value::Long(right)) => Value::Long(left.wrapping_rem(*right)),
        _ => Value::Null,
    }
}

/// `div`, towards zero; null by zero.
pub(crate) fn quotient_of(left: &Value, right: &Value) -> Value
    ensures value { result ≡ integral_divide left.now right.now }
    ensures dated { HasDateInRange result }
{
    match (number_of(left), number_of(right)) {
        (Some(left), Some(right)) if right != 0 => Value::Long(long_quotient(left, right)),
        _ => Value::Null,
    }
}

fn long_quotient(left: i64, right: i64) -> i64
    requires { right ≢ pos 0 }
    ensures { result ≡ int_wrap w64 (int_div left right) }
{
    left.wrapping_div(right)
}

fn number_of(value: &Value) -> Option<i64>
    ensures { result ≡ number value.now }
{
    match value {
        Value::Integer(number) => Some(i64::from(*number)),
        Value::Long(number) => Some(*number),
        _ => None,
    }
}

/// `negative`, which wraps.
pub(crate) fn negated(value: &Value) -> Value
    ensures value { result ≡ negative value.now }
    ensures dated { HasDateInRange result }
{
    match value {
        Value::Integer(number) => Value::Integer(negated_integer(*number)),
        Value::Long(number) => Value::Long(negated_long(*number)),
        _ => Value::Null,
    }
}

fn negated_integer(number: i32) -> i32
    ensures { result ≡ int_wrap w32 (neg_ℤ number) }
{
    number.wrapping_neg()
}

fn negated_long(number: i64) -> i64
    ensures { result ≡ int_wrap w64 (neg_ℤ number) }
{
    number.wrapping_neg()
}

/// `abs`, which wraps.
pub(crate) fn magnitude(value: &Value) -> Value
    ensures value { result ≡ absolute value.now }
    ensures dated { HasDateInRange result }
{
    match value {
        Value::Integer(number) => Value::Integer(integer_magnitude(*number)),
        Value::Long(number) => Value::Long(long_magnitude(*number)),
        _ => Value::Null,
    }
}

fn integer_magnitude(number: i32) -> i32
    ensures { result ≡ int_wrap w32 (pos (unsigned_abs number)) }
{
    number.wrapping_abs()
}

fn long_magnitude(number: i64) -> i64
    ensures { result ≡ int_wrap w64 (pos (unsigned_abs number)) }
{
    number.wrapping_abs()
}

/// The integer of a long's lowest 32 bits.
pub(crate) fn low_integer(number: i64) -> i32
    ensures { result ≡ int_wrap w32 number }
{
    (number.rem_euclid(1 << 32) as u32).cast_signed()
}
