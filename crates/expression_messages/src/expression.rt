use crate::{Literal, TypeMessage};
use cn_base::{Boxed, List, Text};

/// A column, by its name (`expressions.proto`, Expression.UnresolvedAttribute).
#[derive(Debug, Drop)]
pub struct UnresolvedAttribute {
    /// The parts of the name, joined by dots.
    pub unparsed_identifier: Text,
    /// The relation whose column it is, by its plan id.
    pub plan_id: Option<i64>,
}

/// A call of a function, by its name (`expressions.proto`, Expression.UnresolvedFunction). `E` is an expression, or what stands for one.
#[derive(Debug, Drop)]
pub struct UnresolvedFunction<E = Expr> {
    pub function_name: Text,
    pub arguments: List<E>,
    /// Whether an aggregate function takes each different value once.
    pub is_distinct: bool,
}

/// All columns (`expressions.proto`, Expression.UnresolvedStar).
#[derive(Debug, Drop)]
pub struct UnresolvedStar {
    /// Whose columns: a name as it was written, a final `.*` too.
    pub unparsed_target: Option<Text>,
}

/// An expression under another name (`expressions.proto`, Expression.Alias). `E` is an expression, or what stands for one.
#[derive(Debug, Drop)]
pub struct Alias<E = Expr> {
    /// `Other(0)` where no expression is there.
    pub expr: Boxed<E>,
    /// The names; one where the expression has one column.
    pub name: List<Text>,
}

/// What an expression is cast to.
#[derive(Debug, Drop)]
pub enum CastTarget {
    /// A type.
    Kind(TypeMessage),
    /// A type by its text.
    KindText(Text),
    /// Nothing of both.
    Absent,
}

/// An expression in another type (`expressions.proto`, Expression.Cast). `E` is an expression, or what stands for one.
#[derive(Debug, Drop)]
pub struct Cast<E = Expr> {
    /// `Other(0)` where no expression is there.
    pub expr: Boxed<E>,
    pub target: CastTarget,
}

/// A key of a sort (`expressions.proto`, Expression.SortOrder). `E` is an expression, or what stands for one.
#[derive(Debug, Drop)]
pub struct SortOrder<E = Expr> {
    /// `Other(0)` where no expression is there.
    pub child: Boxed<E>,
    /// 2 is descending, any other number ascending.
    pub direction: i32,
    /// 1 is nulls first, 2 nulls last, any other number the default of the direction.
    pub null_ordering: i32,
}

/// An expression as it was sent, not resolved (`expressions.proto`, Expression).
#[derive(Debug, Drop)]
pub enum Expr {
    Literal(Literal),
    UnresolvedAttribute(UnresolvedAttribute),
    UnresolvedFunction(UnresolvedFunction<Expr>),
    UnresolvedStar(UnresolvedStar),
    Alias(Alias<Expr>),
    Cast(Cast<Expr>),
    SortOrder(SortOrder<Expr>),
    /// An expression outside the profile, by its field number; 0 where no expression is there.
    Other(u32),
}
