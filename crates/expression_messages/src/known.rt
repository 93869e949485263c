ghost use Rattle.std.specs.Prelude.{◌≡◌};
ghost use Rattle.std.specs.List.{list_all};
ghost use Rattle.expression_messages.specs.Known as known;

use crate::{CastTarget, Expr, Literal, StructField, TypeMessage};

/// Whether the type has a spelling: neither it nor a type in it is outside the profile. It takes no memory.
#[cycle(known_types)]
#[tactic(auto, using(crate::proofs::TypeCases::known_types))]
pub fn is_known_type(kind: &TypeMessage) -> bool
    ensures { result ≡ known.is_known_type kind.now }
{
    match kind {
        TypeMessage::Struct(fields) => are_known_fields(fields.as_slice()),
        TypeMessage::Other(_) => false,
        TypeMessage::Null
        | TypeMessage::Boolean
        | TypeMessage::Byte
        | TypeMessage::Short
        | TypeMessage::Integer
        | TypeMessage::Long
        | TypeMessage::String
        | TypeMessage::Date => true,
    }
}

/// Whether the types of these fields have a spelling.
#[cycle(known_types)]
fn are_known_fields(fields: &[StructField]) -> bool
    ensures { result ≡ list_all (λ field. known.is_known_type field.data_type) fields.now }
{
    for field in fields {
        if !is_known_type(&field.data_type) {
            return false;
        }
    }
    true
}

/// Whether the literal has a spelling.
fn is_known_literal(literal: &Literal) -> bool
    ensures { result ≡ known.is_known_literal literal.now }
{
    match literal {
        Literal::Null(kind) => is_known_type(kind),
        Literal::Boolean(_)
        | Literal::Integer(_)
        | Literal::Long(_)
        | Literal::String(_)
        | Literal::Date(_)
        | Literal::Absent => true,
    }
}

/// Whether the target of a cast has a spelling.
fn is_known_target(target: &CastTarget) -> bool
    ensures { result ≡ known.is_known_target target.now }
{
    match target {
        CastTarget::Kind(kind) => is_known_type(kind),
        CastTarget::KindText(_) | CastTarget::Absent => true,
    }
}

/// Whether the expression has a spelling: neither it nor an expression or a type in it is outside the profile. It takes no memory.
#[cycle(known_expressions)]
#[tactic(auto, using(crate::proofs::ExprCases::known_exprs))]
pub fn is_known_expr(expr: &Expr) -> bool
    ensures { result ≡ known.is_known_expr expr.now }
{
    match expr {
        Expr::Literal(literal) => is_known_literal(literal),
        Expr::UnresolvedAttribute(_) | Expr::UnresolvedStar(_) => true,
        Expr::UnresolvedFunction(function) => are_known(function.arguments.as_slice()),
        Expr::Alias(alias) => is_known_expr(alias.expr.get()),
        Expr::Cast(cast) => is_known_expr(cast.expr.get()) && is_known_target(&cast.target),
        Expr::SortOrder(order) => is_known_expr(order.child.get()),
        Expr::Other(_) => false,
    }
}

/// Whether all of these expressions have a spelling. It takes no memory.
#[cycle(known_expressions)]
pub fn are_known(exprs: &[Expr]) -> bool
    ensures { result ≡ list_all known.is_known_expr exprs.now }
{
    for expr in exprs {
        if !is_known_expr(expr) {
            return false;
        }
    }
    true
}
