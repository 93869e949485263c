ghost use Rattle.std.specs.Prelude.{◌≡◌};
ghost use Rattle.cn_types.specs.Order.{value_cmp, class_of};
ghost use Rattle.cn_types.specs.OrderLaws.{ValuesAreOrdered, EqualValuesAreTheSame, RowsAreOrdered, EqualRowsAreTheSame};

use crate::Value;
use std::cmp::Ordering;

/// The order of two values of one type, or of which one is null: null comes first, then false before true, numbers by size, texts by
/// their UTF-8 bytes, dates by their days. It takes no memory.
pub fn order(left: &Value, right: &Value) -> Ordering
    ensures { result ≡ value_cmp left.now right.now }
{
    match (left, right) {
        (Value::Boolean(left), Value::Boolean(right)) => left.cmp(right),
        (Value::Integer(left), Value::Integer(right)) => left.cmp(right),
        (Value::Long(left), Value::Long(right)) => left.cmp(right),
        (Value::Text(left), Value::Text(right)) => left.as_str().cmp(right.as_str()),
        (Value::Date(left), Value::Date(right)) => left.cmp(right),
        _ => class(left).cmp(&class(right)),
    }
}

/// Where a value's type stands: null comes first.
fn class(value: &Value) -> u8
    ensures { result ≡ class_of value.now }
{
    match value {
        Value::Null => 0,
        Value::Boolean(_) => 1,
        Value::Integer(_) => 2,
        Value::Long(_) => 3,
        Value::Text(_) => 4,
        Value::Date(_) => 5,
    }
}

/// Law: the order of values is total.
pub fn values_are_ordered()
    ensures { ValuesAreOrdered }
{}

/// Law: values are equal in the order exactly where they are the same, and null is the same as null.
pub fn equal_values_are_the_same()
    ensures { EqualValuesAreTheSame }
{}

/// Law: the order of rows, by their first two values that differ, is total.
pub fn rows_are_ordered()
    ensures { RowsAreOrdered }
{}

/// Law: a list's count of a row counts the rows that are the same as that row.
pub fn equal_rows_are_the_same()
    ensures { EqualRowsAreTheSame }
{}
