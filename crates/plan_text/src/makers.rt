ghost use Rattle.std.specs.Prelude.{◌≡◌, ℕ, ◌∷◌, [], pos, min, neg_ℤ, IfOk};
ghost use Rattle.plan_text.specs.Drafts as drafts;

use cn_base::{Boxed, List, OutOfMemory, Text};
use cn_types::DataType;
use plan_grammar::{Binary, Unary};
use plan_messages::{
    Alias, Expr, Range, Relation, RelationMember, TypeMessage, UnresolvedAttribute,
    UnresolvedFunction, UnresolvedStar,
};
use std::alloc::Global;

/// All columns, which stands where an expression lacks.
pub fn star() -> Expr
    ensures { result ≡ drafts.star }
{
    Expr::UnresolvedStar(UnresolvedStar {
        unparsed_target: None,
    })
}

/// A relation that was given no plan id.
pub fn relation(member: RelationMember<Relation>) -> Relation
    ensures { result ≡ drafts.relation member }
{
    Relation {
        common: None,
        member,
    }
}

/// No rows, which stands where a relation lacks.
pub fn no_relation() -> Relation
    ensures { result ≡ drafts.no_relation }
{
    relation(RelationMember::Range(Range {
        start: None,
        end: 0,
        step: 0,
        num_partitions: None,
    }))
}

/// A call of a function.
pub fn call(
    alloc: Global,
    name: &str,
    arguments: List<Expr>,
    distinct: bool,
) -> Result<Expr, OutOfMemory>
    ensures { IfOk result (λ e. e ≡ drafts.call name.now arguments distinct) }
{
    Ok(Expr::UnresolvedFunction(UnresolvedFunction {
        function_name: Text::of(alloc, name)?,
        arguments,
        is_distinct: distinct,
    }))
}

/// A column by its identifier.
pub fn attribute(identifier: Text, plan_id: Option<i64>) -> Expr
    ensures { result ≡ drafts.attribute identifier plan_id }
{
    Expr::UnresolvedAttribute(UnresolvedAttribute {
        unparsed_identifier: identifier,
        plan_id,
    })
}

/// An expression under a name.
pub fn alias(alloc: Global, name: Text, expression: Expr) -> Result<Alias, OutOfMemory>
    ensures { IfOk result (λ a. a ≡ drafts.alias name expression) }
{
    let mut names = List::new(alloc);
    names.push(name)?;
    Ok(Alias {
        expr: Boxed::new(alloc, expression)?,
        name: names,
    })
}

/// The message of a type.
pub fn type_of(kind: DataType) -> TypeMessage
    ensures { result ≡ drafts.type_of kind }
{
    match kind {
        DataType::Boolean => TypeMessage::Boolean,
        DataType::Integer => TypeMessage::Integer,
        DataType::Long => TypeMessage::Long,
        DataType::Text => TypeMessage::String,
        DataType::Date => TypeMessage::Date,
    }
}

/// The function of an operator of two units.
pub fn binary_name(operator: Binary) -> &'static str
    ensures { result.now ≡ drafts.binary_name operator }
{
    match operator {
        Binary::Or => "or",
        Binary::And => "and",
        Binary::Equal => "=",
        Binary::NotEqual => "!=",
        Binary::Less => "<",
        Binary::LessEqual => "<=",
        Binary::Greater => ">",
        Binary::GreaterEqual => ">=",
        Binary::SameOrNull => "<=>",
        Binary::Plus => "+",
        Binary::Minus => "-",
        Binary::Times => "*",
        Binary::Remainder => "%",
        Binary::Div => "div",
    }
}

/// The function of an operator of one unit.
pub fn unary_name(operator: Unary) -> &'static str
    ensures { result.now ≡ drafts.unary_name operator }
{
    match operator {
        Unary::Not => "not",
        Unary::IsNull => "isnull",
        Unary::IsNotNull => "isnotnull",
        Unary::Negative => "negative",
    }
}

/// A number as a long, which it fits.
pub fn long_of(number: u64) -> i64
    ensures { result ≡ drafts.long_of number }
{
    number.min(9_223_372_036_854_775_807) as i64
}

/// A number behind `-` as a long, which it fits.
pub fn negative_long_of(number: u64) -> i64
    ensures { result ≡ drafts.negative_long_of number }
{
    if number >= 9_223_372_036_854_775_808 {
        return i64::MIN;
    }
    -(number as i64)
}

/// A long as an integer, which it fits.
pub fn as_integer(number: i64) -> i32
    ensures { result ≡ drafts.as_integer number }
{
    number.clamp(-2_147_483_648, 2_147_483_647) as i32
}
