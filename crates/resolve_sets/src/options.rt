ghost use Rattle.std.specs.Prelude.{◌≡◌, ◌≢◌, ◌&&◌, not, pos, IfOk, IfErr, OnOk, Ok, Err};
ghost use Rattle.resolve_names.specs.declared.error.ResolveStop.TheVariants.{OutOfMemory as no_memory};
ghost use Rattle.resolve_names.specs.Checks.{or_refused};
ghost use Rattle.resolve_relations.specs.Making as making;
ghost use Rattle.resolve_types.specs.Calls.{unless};
ghost use Rattle.resolve_sets.specs.Sets as sets;

use plan_model::SetKind;
use resolve_names::ResolveStop;
use resolve_relations::bad_option;
use std::alloc::Global;

/// What the message of a set operation says of it.
#[derive(Clone, Copy, Debug)]
pub struct SetOptions {
    /// The kind's number.
    pub set_op_type: i32,
    /// Whether rows count as often as they stand.
    pub all: bool,
    /// Whether columns become one by their names, in place of their places.
    pub by_name: bool,
    /// Whether one side may lack a name that the other has.
    pub allow_missing: bool,
}

/// The kind of a number. Unsupported tells a number that no kind has.
pub(crate) fn set_kind(alloc: Global, set_op_type: i32) -> Result<SetKind, ResolveStop>
    ensures ok { IfOk result (λ kind. or_refused (making.bad_option set_op_type) (sets.kind_numbered set_op_type) ≡ Ok kind) }
    ensures refused { IfErr result (λ e. e ≢ no_memory → or_refused (making.bad_option set_op_type) (sets.kind_numbered set_op_type) ≡ Err e) }
{
    match kind_numbered(set_op_type) {
        Some(kind) => Ok(kind),
        None => Err(bad_option(alloc, set_op_type)),
    }
}

#[tactic(auto, unfolding(crate::specs::Sets::kind_numbered))]
fn kind_numbered(number: i32) -> Option<SetKind>
    ensures { result ≡ sets.kind_numbered number }
{
    match number {
        1 => Some(SetKind::Intersect),
        2 => Some(SetKind::Union),
        3 => Some(SetKind::Except),
        _ => None,
    }
}

/// That names decide of a union alone; Unsupported tells it of another kind.
pub(crate) fn names_may_decide(
    alloc: Global,
    by_name: bool,
    kind: SetKind,
) -> Result<(), ResolveStop>
    ensures ok { OnOk result (unless (by_name && not (sets.is_union kind)) (making.bad_option (pos 0)) ≡ Ok tt) }
    ensures refused { IfErr result (λ e. e ≢ no_memory → unless (by_name && not (sets.is_union kind)) (making.bad_option (pos 0)) ≡ Err e) }
{
    if by_name && !is_union(kind) {
        return Err(bad_option(alloc, 0));
    }
    Ok(())
}

fn is_union(kind: SetKind) -> bool
    ensures { result ≡ sets.is_union kind }
{
    match kind {
        SetKind::Union => true,
        SetKind::Intersect | SetKind::Except => false,
    }
}
