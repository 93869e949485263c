ghost use Rattle.std.specs.Prelude.{◌≡◌, map};
ghost use Rattle.cn_types.specs.Order as orders;
ghost use Rattle.plan_model.specs.declared.expression.TypedExpr.TheViews.{out-TypedExpr};
ghost use Rattle.plan_model.specs.FunctionTypes as types;
ghost use Rattle.resolve_expressions.specs.Same as same;

use cn_types::{DataType, Value, order};
use plan_model::{Function, TypedExpr};

/// Whether two expressions are the same. It takes no memory.
#[cycle(same)]
#[tactic(auto, using(crate::proofs::SameForms::same_forms))]
pub fn same_expr(expr: &TypedExpr, other: &TypedExpr) -> bool
    ensures { result ≡ same.same_expr expr.now other.now }
{
    match expr {
        TypedExpr::Column { place, kind } => is_column(*place, *kind, other),
        TypedExpr::Literal { value, kind } => is_literal(value, *kind, other),
        TypedExpr::Call {
            function,
            arguments,
            kind,
        } => is_call(arguments.as_slice(), *function, *kind, other),
        TypedExpr::Cast { child, kind } => is_cast(child.get(), *kind, other),
    }
}

#[tactic(auto, using(crate::proofs::ExprForms::typed_forms))]
fn is_column(place: u32, kind: DataType, other: &TypedExpr) -> bool
    ensures { result ≡ same.same_column place kind (out-TypedExpr other.now) }
{
    match other {
        TypedExpr::Column {
            place: own,
            kind: own_kind,
        } => place == *own && same_kind(kind, *own_kind),
        TypedExpr::Literal { .. } | TypedExpr::Call { .. } | TypedExpr::Cast { .. } => false,
    }
}

#[tactic(auto, using(crate::proofs::ExprForms::typed_forms))]
fn is_literal(value: &Value, kind: DataType, other: &TypedExpr) -> bool
    ensures { result ≡ same.same_literal value.now kind (out-TypedExpr other.now) }
{
    match other {
        TypedExpr::Literal {
            value: own,
            kind: own_kind,
        } => same_value(value, own) && same_kind(kind, *own_kind),
        TypedExpr::Column { .. } | TypedExpr::Call { .. } | TypedExpr::Cast { .. } => false,
    }
}

#[cycle(same)]
#[tactic(auto, using(crate::proofs::ExprForms::typed_forms))]
fn is_call(arguments: &[TypedExpr], function: Function, kind: DataType, other: &TypedExpr) -> bool
    ensures { result ≡ same.same_call function (map same.same_expr arguments.now) kind (out-TypedExpr other.now) }
{
    match other {
        TypedExpr::Call {
            function: own,
            arguments: own_arguments,
            kind: own_kind,
        } => {
            same_function(function, *own)
                && all_same(arguments, own_arguments.as_slice())
                && same_kind(kind, *own_kind)
        }
        TypedExpr::Column { .. } | TypedExpr::Literal { .. } | TypedExpr::Cast { .. } => false,
    }
}

#[cycle(same)]
#[tactic(auto, using(crate::proofs::ExprForms::typed_forms))]
fn is_cast(child: &TypedExpr, kind: DataType, other: &TypedExpr) -> bool
    ensures { result ≡ same.same_cast (same.same_expr child.now) kind (out-TypedExpr other.now) }
{
    match other {
        TypedExpr::Cast {
            child: own,
            kind: own_kind,
        } => same_expr(child, own.get()) && same_kind(kind, *own_kind),
        TypedExpr::Column { .. } | TypedExpr::Literal { .. } | TypedExpr::Call { .. } => false,
    }
}

/// Whether each is the same as the other at its place, and there are as many.
#[cycle(same)]
#[tactic(auto, using(crate::proofs::SameForms::same_steps))]
fn all_same(exprs: &[TypedExpr], others: &[TypedExpr]) -> bool
    ensures { result ≡ same.all_same (map same.same_expr exprs.now) others.now }
{
    for (place, expr) in exprs.iter().enumerate() {
        let Some(other) = others.get(place) else {
            return false;
        };
        if !same_expr(expr, other) {
            return false;
        }
    }
    others.len() <= exprs.len()
}

fn same_function(function: Function, other: Function) -> bool
    ensures { result ≡ same.same_function function other }
{
    function == other
}

fn same_kind(kind: DataType, other: DataType) -> bool
    ensures { result ≡ types.same_kind kind other }
{
    kind == other
}

fn same_value(value: &Value, other: &Value) -> bool
    ensures { result ≡ orders.value_eq value.now other.now }
{
    order(value, other).is_eq()
}
