ghost use Rattle.std.specs.Prelude.{◌≡◌, IfOk};

use cn_base::{Copied, OutOfMemory};
use std::alloc::Global;

/// A built-in function, named as in Spark SQL. Two spellings of one function are one variant.
#[derive(Clone, Copy, Debug, PartialEq, Eq)]
pub enum Function {
    /// `+`
    Add,
    /// `-` between two numbers
    Subtract,
    /// `*`
    Multiply,
    /// `%`
    Remainder,
    /// `div`
    IntegralDivide,
    /// `negative`
    Negative,
    /// `abs`
    Abs,
    /// `=` and `==`
    EqualTo,
    /// `!=` and `<>`
    NotEqualTo,
    /// `<`
    LessThan,
    /// `<=`
    LessThanOrEqual,
    /// `>`
    GreaterThan,
    /// `>=`
    GreaterThanOrEqual,
    /// `<=>`
    EqualNullSafe,
    /// `and`
    And,
    /// `or`
    Or,
    /// `not` and `!`
    Not,
    /// `isnull`
    IsNull,
    /// `isnotnull`
    IsNotNull,
    /// `coalesce`
    Coalesce,
    /// `when`: a condition and a value in turn, then perhaps a value
    When,
    /// `in`
    In,
    /// `concat`
    Concat,
    /// `length`
    Length,
    /// `startswith`
    StartsWith,
    /// `endswith`
    EndsWith,
    /// `contains`
    Contains,
    /// `year`
    Year,
    /// `month`
    Month,
    /// `dayofmonth`
    DayOfMonth,
    /// `date_add`
    DateAdd,
    /// `date_sub`
    DateSub,
    /// `datediff`
    DateDiff,
    /// `count`, an aggregate
    Count,
    /// `sum`, an aggregate
    Sum,
    /// `min`, an aggregate
    Min,
    /// `max`, an aggregate
    Max,
}

impl Copied for Function {
    fn copy(&self, _alloc: Global) -> Result<Function, OutOfMemory> {
        Ok(*self)
    }
}
