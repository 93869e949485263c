ghost use Rattle.std.specs.Prelude.{◌≡◌};
ghost use Rattle.resolve_functions.specs.Arguments as arguments;

use crate::kinds::same_kind;
use cn_types::DataType;
use plan_model::Function;

/// What a function asks of an argument.
#[derive(Clone, Copy, Debug, PartialEq, Eq)]
pub enum Asked {
    /// A type, whichever.
    AnyKind,
    /// An integer or a long.
    Number,
    /// This type.
    Only(DataType),
    /// A type that all of the arguments have together. A null without a type takes it.
    Same,
    /// Conditions and values in turn, and then perhaps a value. The values have one type together, which a null without a type takes.
    When,
}

/// Whether the function is an aggregate. It takes no memory.
pub fn is_aggregate(function: Function) -> bool
    ensures { result ≡ arguments.is_aggregate function }
{
    match function {
        Function::Count | Function::Sum | Function::Min | Function::Max => true,
        Function::Add
        | Function::Subtract
        | Function::Multiply
        | Function::Remainder
        | Function::IntegralDivide
        | Function::EqualTo
        | Function::NotEqualTo
        | Function::LessThan
        | Function::LessThanOrEqual
        | Function::GreaterThan
        | Function::GreaterThanOrEqual
        | Function::EqualNullSafe
        | Function::And
        | Function::Or
        | Function::StartsWith
        | Function::EndsWith
        | Function::Contains
        | Function::DateAdd
        | Function::DateSub
        | Function::DateDiff
        | Function::Negative
        | Function::Abs
        | Function::Not
        | Function::IsNull
        | Function::IsNotNull
        | Function::Length
        | Function::Year
        | Function::Month
        | Function::DayOfMonth
        | Function::Coalesce
        | Function::When
        | Function::In
        | Function::Concat => false,
    }
}

/// Whether the function takes so many arguments. It takes no memory.
#[tactic(auto, unfolding(crate::specs::Arguments::takes))]
pub fn takes(function: Function, count: usize) -> bool
    ensures { result ≡ arguments.takes function count }
{
    match function {
        Function::Add
        | Function::Subtract
        | Function::Multiply
        | Function::Remainder
        | Function::IntegralDivide
        | Function::EqualTo
        | Function::NotEqualTo
        | Function::LessThan
        | Function::LessThanOrEqual
        | Function::GreaterThan
        | Function::GreaterThanOrEqual
        | Function::EqualNullSafe
        | Function::And
        | Function::Or
        | Function::StartsWith
        | Function::EndsWith
        | Function::Contains
        | Function::DateAdd
        | Function::DateSub
        | Function::DateDiff => count == 2,
        Function::Negative
        | Function::Abs
        | Function::Not
        | Function::IsNull
        | Function::IsNotNull
        | Function::Length
        | Function::Year
        | Function::Month
        | Function::DayOfMonth
        | Function::Count
        | Function::Sum
        | Function::Min
        | Function::Max => count == 1,
        Function::Coalesce | Function::Concat => count >= 1,
        Function::When | Function::In => count >= 2,
    }
}

/// What the function asks of its first argument.
#[tactic(auto, unfolding(crate::specs::Arguments::asked_first))]
pub(crate) fn asked_first(function: Function) -> Asked
    ensures { result ≡ arguments.asked_first function }
{
    match function {
        Function::Add
        | Function::Subtract
        | Function::Multiply
        | Function::Remainder
        | Function::IntegralDivide
        | Function::Negative
        | Function::Abs
        | Function::Sum => Asked::Number,
        Function::EqualTo
        | Function::NotEqualTo
        | Function::LessThan
        | Function::LessThanOrEqual
        | Function::GreaterThan
        | Function::GreaterThanOrEqual
        | Function::EqualNullSafe
        | Function::Coalesce
        | Function::In => Asked::Same,
        Function::And | Function::Or | Function::Not => Asked::Only(DataType::Boolean),
        Function::IsNull | Function::IsNotNull | Function::Count | Function::Min | Function::Max =>
            Asked::AnyKind,
        Function::When => Asked::When,
        Function::Concat
        | Function::Length
        | Function::StartsWith
        | Function::EndsWith
        | Function::Contains => Asked::Only(DataType::Text),
        Function::Year
        | Function::Month
        | Function::DayOfMonth
        | Function::DateAdd
        | Function::DateSub
        | Function::DateDiff => Asked::Only(DataType::Date),
    }
}

/// What the function asks of each other argument.
#[tactic(auto, unfolding(crate::specs::Arguments::asked_first))]
pub(crate) fn asked_later(function: Function) -> Asked
    ensures { result ≡ arguments.asked_later function }
{
    match function {
        Function::DateAdd | Function::DateSub => Asked::Only(DataType::Integer),
        Function::Add
        | Function::Subtract
        | Function::Multiply
        | Function::Remainder
        | Function::IntegralDivide
        | Function::EqualTo
        | Function::NotEqualTo
        | Function::LessThan
        | Function::LessThanOrEqual
        | Function::GreaterThan
        | Function::GreaterThanOrEqual
        | Function::EqualNullSafe
        | Function::And
        | Function::Or
        | Function::StartsWith
        | Function::EndsWith
        | Function::Contains
        | Function::DateDiff
        | Function::Negative
        | Function::Abs
        | Function::Not
        | Function::IsNull
        | Function::IsNotNull
        | Function::Length
        | Function::Year
        | Function::Month
        | Function::DayOfMonth
        | Function::Count
        | Function::Sum
        | Function::Min
        | Function::Max
        | Function::Coalesce
        | Function::When
        | Function::In
        | Function::Concat => asked_first(function),
    }
}

/// Whether a type meets what is asked of one argument alone.
pub(crate) fn meets(asked: Asked, kind: DataType) -> bool
    ensures { result ≡ arguments.meets asked kind }
{
    match asked {
        Asked::Number => is_number(kind),
        Asked::Only(wanted) => same_kind(wanted, kind),
        Asked::AnyKind | Asked::Same | Asked::When => true,
    }
}

fn is_number(kind: DataType) -> bool
    ensures { result ≡ arguments.meets Asked.Number kind }
{
    match kind {
        DataType::Integer | DataType::Long => true,
        DataType::Boolean | DataType::Text | DataType::Date => false,
    }
}
