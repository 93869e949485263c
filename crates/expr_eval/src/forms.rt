ghost use Rattle.std.specs.Prelude.{◌≡◌};
ghost use Rattle.cn_types.specs.Fit.{HasDateInRange};
ghost use Rattle.plan_model.specs.Functions.{call};
ghost use Rattle.expr_eval.specs.Forms.{form_value};
ghost use Rattle.expr_eval.specs.Operations.{unary_of, binary_of};

use crate::arithmetic::{Operation, calculated, magnitude, negated, quotient_of, rest_of};
use crate::comparisons::{Test, same, tested};
use crate::dates::{day_of_month, days_between, earlier, later, month, year};
use crate::texts::{character_count, end_test, part_test, start_test};
use crate::truth::{both, either, null_test, opposite, presence_test};
use cn_types::Value;
use plan_model::Function;

/// A function of one value.
#[derive(Clone, Copy, Debug, PartialEq, Eq)]
pub(crate) enum Unary {
    Negative,
    Abs,
    Not,
    IsNull,
    IsNotNull,
    Length,
    Year,
    Month,
    DayOfMonth,
}

/// A function of two values.
#[derive(Clone, Copy, Debug, PartialEq, Eq)]
pub(crate) enum Binary {
    Arithmetic(Operation),
    Remainder,
    IntegralDivide,
    Compare(Test),
    EqualNullSafe,
    And,
    Or,
    StartsWith,
    EndsWith,
    Contains,
    DateAdd,
    DateSub,
    DateDiff,
}

/// How a function is evaluated.
#[derive(Clone, Copy, Debug, PartialEq, Eq)]
pub(crate) enum Form {
    One(Unary),
    Two(Binary),
    Coalesce,
    When,
    In,
    Concat,
    /// An aggregate, which has no value over one row.
    Aggregate,
}

#[tactic(auto, unfolding(plan_model::specs::Functions::call))]
pub(crate) fn form_of(function: Function) -> Form
    ensures { form_value result ≡ call function }
{
    match function {
        Function::Add => Form::Two(Binary::Arithmetic(Operation::Add)),
        Function::Subtract => Form::Two(Binary::Arithmetic(Operation::Subtract)),
        Function::Multiply => Form::Two(Binary::Arithmetic(Operation::Multiply)),
        Function::Remainder => Form::Two(Binary::Remainder),
        Function::IntegralDivide => Form::Two(Binary::IntegralDivide),
        Function::Negative => Form::One(Unary::Negative),
        Function::Abs => Form::One(Unary::Abs),
        Function::EqualTo => Form::Two(Binary::Compare(Test::Equal)),
        Function::NotEqualTo => Form::Two(Binary::Compare(Test::NotEqual)),
        Function::LessThan => Form::Two(Binary::Compare(Test::Less)),
        Function::LessThanOrEqual => Form::Two(Binary::Compare(Test::LessOrEqual)),
        Function::GreaterThan => Form::Two(Binary::Compare(Test::Greater)),
        Function::GreaterThanOrEqual => Form::Two(Binary::Compare(Test::GreaterOrEqual)),
        Function::EqualNullSafe => Form::Two(Binary::EqualNullSafe),
        Function::And => Form::Two(Binary::And),
        Function::Or => Form::Two(Binary::Or),
        Function::Not => Form::One(Unary::Not),
        Function::IsNull => Form::One(Unary::IsNull),
        Function::IsNotNull => Form::One(Unary::IsNotNull),
        Function::Coalesce => Form::Coalesce,
        Function::When => Form::When,
        Function::In => Form::In,
        Function::Concat => Form::Concat,
        Function::Length => Form::One(Unary::Length),
        Function::StartsWith => Form::Two(Binary::StartsWith),
        Function::EndsWith => Form::Two(Binary::EndsWith),
        Function::Contains => Form::Two(Binary::Contains),
        Function::Year => Form::One(Unary::Year),
        Function::Month => Form::One(Unary::Month),
        Function::DayOfMonth => Form::One(Unary::DayOfMonth),
        Function::DateAdd => Form::Two(Binary::DateAdd),
        Function::DateSub => Form::Two(Binary::DateSub),
        Function::DateDiff => Form::Two(Binary::DateDiff),
        Function::Count => Form::Aggregate,
        Function::Sum => Form::Aggregate,
        Function::Min => Form::Aggregate,
        Function::Max => Form::Aggregate,
    }
}

pub(crate) fn of_value(function: Unary, value: &Value) -> Value
    requires { HasDateInRange value.now }
    ensures value { result ≡ unary_of function value.now }
    ensures dated { HasDateInRange result }
{
    match function {
        Unary::Negative => negated(value),
        Unary::Abs => magnitude(value),
        Unary::Not => opposite(value),
        Unary::IsNull => null_test(value),
        Unary::IsNotNull => presence_test(value),
        Unary::Length => character_count(value),
        Unary::Year => year(value),
        Unary::Month => month(value),
        Unary::DayOfMonth => day_of_month(value),
    }
}

pub(crate) fn of_values(function: Binary, left: &Value, right: &Value) -> Value
    requires left { HasDateInRange left.now }
    requires right { HasDateInRange right.now }
    ensures value { result ≡ binary_of function left.now right.now }
    ensures dated { HasDateInRange result }
{
    match function {
        Binary::Arithmetic(operation) => calculated(operation, left, right),
        Binary::Remainder => rest_of(left, right),
        Binary::IntegralDivide => quotient_of(left, right),
        Binary::Compare(test) => tested(test, left, right),
        Binary::EqualNullSafe => same(left, right),
        Binary::And => both(left, right),
        Binary::Or => either(left, right),
        Binary::StartsWith => start_test(left, right),
        Binary::EndsWith => end_test(left, right),
        Binary::Contains => part_test(left, right),
        Binary::DateAdd => later(left, right),
        Binary::DateSub => earlier(left, right),
        Binary::DateDiff => days_between(left, right),
    }
}
