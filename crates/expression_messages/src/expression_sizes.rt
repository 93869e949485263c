ghost use Rattle.std.specs.Prelude.{◌≡◌, ◌≤◌};
ghost use Rattle.proto_fields.specs.Sizes.{size_of};
ghost use Rattle.expression_messages.specs.Messages.{messages_fields};
ghost use Rattle.expression_messages.specs.Spelled as spelled;

use crate::texts::texts_size;
use crate::type_sizes::type_size;
use crate::{
    Alias, Cast, CastTarget, Expr, Literal, SortOrder, UnresolvedAttribute, UnresolvedStar,
};
use proto_fields::{
    bool_size, int_size, message_size, optional_bool_size, optional_int32_size,
    optional_int64_size, optional_text_size, payload_size, text_size,
};

/// How many bytes the literal's message takes; 2^64 - 1 where it is above that.
#[tactic(auto, using(crate::proofs::Measured::size_of_nil))]
fn literal_size(literal: &Literal) -> u64
    ensures { result ≡ size_of (spelled.literal_fields literal.now) }
{
    match literal {
        Literal::Null(kind) => message_size(1, type_size(kind)),
        Literal::Boolean(value) => optional_bool_size(3, Some(*value)),
        Literal::Integer(value) => optional_int32_size(6, Some(*value)),
        Literal::Long(value) => optional_int64_size(7, Some(*value)),
        Literal::String(text) => payload_size(13, text.as_str().len()),
        Literal::Date(days) => optional_int32_size(16, Some(*days)),
        Literal::Absent => 0,
    }
}

/// How many bytes the column's message takes; 2^64 - 1 where it is above that.
#[tactic(auto, using(crate::proofs::Measured::sized_two))]
fn attribute_size(attribute: &UnresolvedAttribute) -> u64
    ensures { result ≡ size_of (spelled.attribute_fields attribute.now) }
{
    text_size(1, attribute.unparsed_identifier.as_str()).saturating_add(optional_int64_size(
        2,
        attribute.plan_id,
    ))
}

/// How many bytes the star's message takes; 2^64 - 1 where it is above that.
fn star_size(star: &UnresolvedStar) -> u64
    ensures { result ≡ size_of (spelled.star_fields star.now) }
{
    optional_text_size(1, &star.unparsed_target)
}

/// How many bytes the fields of a cast's target take; 2^64 - 1 where it is above that.
#[tactic(auto, using(crate::proofs::Measured::size_of_nil))]
fn target_size(target: &CastTarget) -> u64
    ensures { result ≡ size_of (spelled.target_fields target.now) }
{
    match target {
        CastTarget::Kind(kind) => message_size(2, type_size(kind)),
        CastTarget::KindText(text) => payload_size(3, text.as_str().len()),
        CastTarget::Absent => 0,
    }
}

/// How many bytes the expression's message takes; 2^64 - 1 where it is above that. It takes no memory.
#[cycle(expression_sizes)]
#[tactic(auto, using(crate::proofs::ExprCases::expr_spellings, crate::proofs::Measured::size_of_nil))]
pub fn expr_size(expr: &Expr) -> u64
    ensures { result ≡ size_of (spelled.expr_fields expr.now) }
{
    match expr {
        Expr::Literal(literal) => message_size(1, literal_size(literal)),
        Expr::UnresolvedAttribute(attribute) => message_size(2, attribute_size(attribute)),
        Expr::UnresolvedFunction(function) => {
            let name = text_size(1, function.function_name.as_str());
            let arguments = exprs_size(2, function.arguments.as_slice());
            let size = name.saturating_add(arguments);
            message_size(3, size.saturating_add(bool_size(3, function.is_distinct)))
        }
        Expr::UnresolvedStar(star) => message_size(5, star_size(star)),
        Expr::Alias(alias) => message_size(6, alias_size(alias)),
        Expr::Cast(cast) => message_size(7, cast_size(cast)),
        Expr::SortOrder(order) => message_size(9, sort_order_size(order)),
        Expr::Other(_) => 0,
    }
}

/// How many bytes the expressions of a repeated field of this number take; 2^64 - 1 where it is above that. It takes no memory.
#[cycle(expression_sizes)]
pub fn exprs_size(number: u32, exprs: &[Expr]) -> u64
    requires low { 1 ≤ number }
    requires high { number ≤ 536870911 }
    ensures { result ≡ size_of (messages_fields spelled.expr_fields number exprs.now) }
{
    let mut total = 0u64;
    for expr in exprs {
        total = total.saturating_add(message_size(number, expr_size(expr)));
    }
    total
}

/// How many bytes the alias's message takes; 2^64 - 1 where it is above that. It takes no memory.
#[cycle(expression_sizes)]
pub fn alias_size(alias: &Alias) -> u64
    ensures { result ≡ size_of (spelled.alias_fields alias.now) }
{
    let expr = message_size(1, expr_size(alias.expr.get()));
    expr.saturating_add(texts_size(2, alias.name.as_slice()))
}

/// How many bytes the cast's message takes; 2^64 - 1 where it is above that.
#[cycle(expression_sizes)]
fn cast_size(cast: &Cast) -> u64
    ensures { result ≡ size_of (spelled.cast_fields spelled.expr_fields cast.now) }
{
    let expr = message_size(1, expr_size(cast.expr.get()));
    expr.saturating_add(target_size(&cast.target))
}

/// How many bytes the sort order's message takes; 2^64 - 1 where it is above that. It takes no memory.
#[cycle(expression_sizes)]
pub fn sort_order_size(order: &SortOrder) -> u64
    ensures { result ≡ size_of (spelled.sort_order_fields order.now) }
{
    let child = message_size(1, expr_size(order.child.get()));
    let direction = int_size(2, i64::from(order.direction));
    let null_ordering = int_size(3, i64::from(order.null_ordering));
    child
        .saturating_add(direction)
        .saturating_add(null_ordering)
}
