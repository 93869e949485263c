ghost use Rattle.std.specs.Prelude.{◌≡◌, ◌≢◌, IfOk, IfErr, Ok, Err};
ghost use Rattle.resolve_names.specs.declared.error.ResolveStop.TheVariants.{OutOfMemory as no_memory};
ghost use Rattle.resolve_types.specs.Leaves as leaves;

use crate::literals::kind_of_type;
use cn_base::Boxed;
use cn_types::{DataType, Value};
use expression_messages::CastTarget;
use plan_model::TypedExpr;
use resolve_functions::{can_cast, kind_named, kind_of};
use resolve_names::{ErrorName, ResolveStop, analysis_stop};
use std::alloc::Global;

/// A cast of a child, which is none where it is a null without a type. DatatypeMismatch `cast` says that there is no target, that no column
/// has its type, or that there is no such cast.
#[tactic(auto, unfolding(crate::specs::Leaves::typed_cast))]
pub fn typed_cast(
    alloc: Global,
    child: Option<TypedExpr>,
    target: &CastTarget,
) -> Result<TypedExpr, ResolveStop>
    ensures ok { IfOk result (λ cast. leaves.typed_cast child target.now ≡ Ok cast) }
    ensures refused { IfErr result (λ e. e ≢ no_memory → leaves.typed_cast child target.now ≡ Err e) }
{
    match target_kind(target) {
        Some(kind) => cast_to_kind(alloc, child, kind),
        None => Err(analysis_stop(alloc, ErrorName::DatatypeMismatch, "cast")),
    }
}

fn target_kind(target: &CastTarget) -> Option<DataType>
    ensures { result ≡ leaves.target_kind target.now }
{
    match target {
        CastTarget::Kind(kind) => kind_of_type(kind),
        CastTarget::KindText(text) => kind_named(text.as_str()),
        CastTarget::Absent => None,
    }
}

fn cast_to_kind(
    alloc: Global,
    child: Option<TypedExpr>,
    kind: DataType,
) -> Result<TypedExpr, ResolveStop>
    ensures ok { IfOk result (λ cast. leaves.cast_to_kind child kind ≡ Ok cast) }
    ensures refused { IfErr result (λ e. e ≢ no_memory → leaves.cast_to_kind child kind ≡ Err e) }
{
    match child {
        None => Ok(TypedExpr::Literal {
            value: Value::Null,
            kind,
        }),
        Some(expr) => cast_expr(alloc, expr, kind),
    }
}

fn cast_expr(alloc: Global, expr: TypedExpr, kind: DataType) -> Result<TypedExpr, ResolveStop>
    ensures ok { IfOk result (λ cast. leaves.cast_expr expr kind ≡ Ok cast) }
    ensures refused { IfErr result (λ e. e ≢ no_memory → leaves.cast_expr expr kind ≡ Err e) }
{
    if !can_cast(kind_of(&expr), kind) {
        return Err(analysis_stop(alloc, ErrorName::DatatypeMismatch, "cast"));
    }
    Ok(TypedExpr::Cast {
        child: Boxed::new(alloc, expr)?,
        kind,
    })
}
