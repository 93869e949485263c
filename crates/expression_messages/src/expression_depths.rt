ghost use Rattle.std.specs.Prelude.{◌≡◌, map};
ghost use Rattle.expression_messages.specs.Depths as depths;

use crate::type_depths::type_depth;
use crate::{Alias, CastTarget, Expr, Literal, SortOrder};

/// How many messages are nested in the literal's message, itself among them; 2^32 - 1 where there are more.
fn literal_depth(literal: &Literal) -> u32
    ensures { result ≡ depths.told (depths.literal_depth literal.now) }
{
    match literal {
        Literal::Null(kind) => type_depth(kind).saturating_add(1),
        Literal::Boolean(_)
        | Literal::Integer(_)
        | Literal::Long(_)
        | Literal::String(_)
        | Literal::Date(_)
        | Literal::Absent => 1,
    }
}

/// How many messages a cast's target nests; 2^32 - 1 where there are more.
fn target_depth(target: &CastTarget) -> u32
    ensures { result ≡ depths.told (depths.target_depth target.now) }
{
    match target {
        CastTarget::Kind(kind) => type_depth(kind),
        CastTarget::KindText(_) | CastTarget::Absent => 0,
    }
}

/// How many messages are nested in the expression's message, itself among them; 2^32 - 1 where there are more. It takes no memory.
#[cycle(expression_depths)]
#[tactic(auto, using(crate::proofs::ExprCases::expr_depths))]
pub fn expr_depth(expr: &Expr) -> u32
    ensures { result ≡ depths.told (depths.expr_depth expr.now) }
{
    match expr {
        Expr::Literal(literal) => literal_depth(literal).saturating_add(1),
        Expr::UnresolvedAttribute(_) | Expr::UnresolvedStar(_) => 2,
        Expr::UnresolvedFunction(function) => {
            deepest(function.arguments.as_slice()).saturating_add(2)
        }
        Expr::Alias(alias) => expr_depth(alias.expr.get()).saturating_add(2),
        Expr::Cast(cast) => expr_depth(cast.expr.get())
            .max(target_depth(&cast.target))
            .saturating_add(2),
        Expr::SortOrder(order) => expr_depth(order.child.get()).saturating_add(2),
        Expr::Other(_) => 1,
    }
}

/// How deep the deepest of these expressions is; 0 where there is none, 2^32 - 1 where it is above that. It takes no memory.
#[cycle(expression_depths)]
pub fn deepest(exprs: &[Expr]) -> u32
    ensures { result ≡ depths.told (depths.largest (map depths.expr_depth exprs.now)) }
{
    let mut deepest = 0u32;
    for expr in exprs {
        deepest = deepest.max(expr_depth(expr));
    }
    deepest
}

/// How many messages are nested in the alias's message, itself among them; 2^32 - 1 where there are more. It takes no memory.
pub fn alias_depth(alias: &Alias) -> u32
    ensures { result ≡ depths.told (depths.alias_depth alias.now) }
{
    expr_depth(alias.expr.get()).saturating_add(1)
}

/// How many messages are nested in the sort order's message, itself among them; 2^32 - 1 where there are more. It takes no memory.
pub fn sort_order_depth(order: &SortOrder) -> u32
    ensures { result ≡ depths.told (depths.sort_order_depth order.now) }
{
    expr_depth(order.child.get()).saturating_add(1)
}
