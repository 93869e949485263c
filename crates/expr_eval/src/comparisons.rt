ghost use Rattle.std.specs.Prelude.{◌≡◌};
ghost use Rattle.cn_types.specs.Fit.{HasDateInRange};
ghost use Rattle.plan_model.specs.Comparisons.{comparison, judged, compared, equal_null_safe, is_not_distinct};
ghost use Rattle.expr_eval.specs.Operations.{test_of};

use cn_types::Value;
use std::cmp::Ordering;

/// What a comparison tests of the order of two values.
#[derive(Clone, Copy, Debug, PartialEq, Eq)]
pub(crate) enum Test {
    Equal,
    NotEqual,
    Less,
    LessOrEqual,
    Greater,
    GreaterOrEqual,
}

/// A comparison of SQL: null where one side is null.
pub(crate) fn tested(test: Test, left: &Value, right: &Value) -> Value
    ensures value { result ≡ compared (test_of test) left.now right.now }
    ensures dated { HasDateInRange result }
{
    match order_of(left, right) {
        None => Value::Null,
        Some(ordering) => Value::Boolean(passes(test, ordering)),
    }
}

/// `<=>`, which is never null.
pub(crate) fn same(left: &Value, right: &Value) -> Value
    ensures value { result ≡ equal_null_safe left.now right.now }
    ensures dated { HasDateInRange result }
{
    Value::Boolean(are_same(left, right))
}

fn are_same(left: &Value, right: &Value) -> bool
    ensures { result ≡ is_not_distinct left.now right.now }
{
    match (left, right) {
        (Value::Null, Value::Null) => true,
        _ => matches!(order_of(left, right), Some(Ordering::Equal)),
    }
}

fn order_of(left: &Value, right: &Value) -> Option<Ordering>
    ensures { result ≡ comparison left.now right.now }
{
    match (left, right) {
        (Value::Boolean(left), Value::Boolean(right)) => Some(left.cmp(right)),
        (Value::Integer(left), Value::Integer(right)) => Some(left.cmp(right)),
        (Value::Integer(left), Value::Long(right)) => Some(i64::from(*left).cmp(right)),
        (Value::Long(left), Value::Integer(right)) => Some(left.cmp(&i64::from(*right))),
        (Value::Long(left), Value::Long(right)) => Some(left.cmp(right)),
        (Value::Text(left), Value::Text(right)) => Some(left.as_str().cmp(right.as_str())),
        (Value::Date(left), Value::Date(right)) => Some(left.cmp(right)),
        _ => None,
    }
}

fn passes(test: Test, ordering: Ordering) -> bool
    ensures { result ≡ test_of test ordering }
{
    match test {
        Test::Equal => ordering.is_eq(),
        Test::NotEqual => ordering.is_ne(),
        Test::Less => ordering.is_lt(),
        Test::LessOrEqual => ordering.is_le(),
        Test::Greater => ordering.is_gt(),
        Test::GreaterOrEqual => ordering.is_ge(),
    }
}
