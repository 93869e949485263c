ghost use Rattle.std.specs.Prelude.{◌≡◌, IfOk, map};
ghost use Rattle.std.specs.Option.{option_copied};
ghost use Rattle.cn_types.specs.declared.value.Value.TheVariants.{Null};
ghost use Rattle.plan_model.specs.declared.expression.TypedExpr.TheVariants as typed;
ghost use Rattle.plan_model.specs.FunctionTypes as types;
ghost use Rattle.resolve_expressions.specs.Same.{same_expr};
ghost use Rattle.resolve_sets.specs.Sets as sets;

use crate::aligned::Aligned;
use cn_base::{Boxed, List, OutOfMemory};
use cn_types::{DataType, Value};
use plan_model::{Node, TypedExpr};
use resolve_names::ScopeColumn;
use std::alloc::Global;

/// A side with these values: it stays as it is where they are just its own columns.
pub(crate) fn side(
    alloc: Global,
    node: Node,
    columns: &[ScopeColumn],
    values: List<TypedExpr>,
) -> Result<Node, OutOfMemory>
    ensures { IfOk result (λ made. made ≡ sets.side_over columns.now node values) }
{
    if is_whole(columns, values.as_slice()) {
        return Ok(node);
    }
    Ok(Node::Project {
        input: Boxed::new(alloc, node)?,
        items: values,
    })
}

#[tactic(auto, unfolding(crate::specs::Sets::is_whole), using(crate::proofs::Whole::whole_steps))]
fn is_whole(columns: &[ScopeColumn], values: &[TypedExpr]) -> bool
    ensures { result ≡ sets.is_whole columns.now values.now }
{
    for (place, value) in values.iter().enumerate() {
        let Some(column) = columns.get(place) else {
            return false;
        };
        if !is_own(value, place, column) {
            return false;
        }
    }
    columns.len() <= values.len()
}

/// Whether a value is the column at its place.
#[tactic(auto, using(resolve_expressions::proofs::SameForms::same_forms, resolve_expressions::proofs::ExprForms::typed_forms))]
fn is_own(value: &TypedExpr, at: usize, column: &ScopeColumn) -> bool
    ensures { result ≡ same_expr value.now (sets.own_value at column.now) }
{
    match value {
        TypedExpr::Column { place, kind } => *place as usize == at && same_kind(*kind, column.kind),
        TypedExpr::Literal { .. } | TypedExpr::Call { .. } | TypedExpr::Cast { .. } => false,
    }
}

fn same_kind(kind: DataType, other: DataType) -> bool
    ensures { result ≡ types.same_kind kind other }
{
    kind == other
}

/// The left's value of each column.
#[tactic(auto, using(resolve_relations::proofs::Numbered::map_steps))]
pub(crate) fn left_values(
    alloc: Global,
    columns: &[ScopeColumn],
    aligned: &[Aligned],
) -> Result<List<TypedExpr>, OutOfMemory>
    ensures { IfOk result (λ values. values ≡ map (sets.left_value columns.now) aligned.now) }
{
    let mut values = List::new(alloc);
    for one in aligned {
        values.push(side_value(alloc, columns, one.kind, one.left)?)?;
    }
    Ok(values)
}

/// The right's value of each column.
#[tactic(auto, using(resolve_relations::proofs::Numbered::map_steps))]
pub(crate) fn right_values(
    alloc: Global,
    columns: &[ScopeColumn],
    aligned: &[Aligned],
) -> Result<List<TypedExpr>, OutOfMemory>
    ensures { IfOk result (λ values. values ≡ map (sets.right_value columns.now) aligned.now) }
{
    let mut values = List::new(alloc);
    for one in aligned {
        values.push(side_value(alloc, columns, one.kind, one.right)?)?;
    }
    Ok(values)
}

/// The side's column of this type, or null where it has none.
fn side_value(
    alloc: Global,
    columns: &[ScopeColumn],
    kind: DataType,
    place: Option<u32>,
) -> Result<TypedExpr, OutOfMemory>
    ensures { IfOk result (λ value. value ≡ sets.side_value columns.now kind place) }
{
    match place {
        Some(place) => value_at(alloc, kind, place, columns.get(place as usize)),
        None => Ok(null_of(kind)),
    }
}

fn value_at(
    alloc: Global,
    kind: DataType,
    place: u32,
    column: Option<&ScopeColumn>,
) -> Result<TypedExpr, OutOfMemory>
    ensures { IfOk result (λ value. value ≡ sets.value_at kind place (option_copied column.entry)) }
{
    match column {
        Some(column) => as_kind(alloc, kind, place, column),
        None => Ok(null_of(kind)),
    }
}

fn null_of(kind: DataType) -> TypedExpr
    ensures { result ≡ typed.Literal Null kind }
{
    TypedExpr::Literal {
        value: Value::Null,
        kind,
    }
}

/// A column as it is, or cast to another type.
fn as_kind(
    alloc: Global,
    kind: DataType,
    place: u32,
    column: &ScopeColumn,
) -> Result<TypedExpr, OutOfMemory>
    ensures { IfOk result (λ value. value ≡ sets.as_kind kind place column.now) }
{
    let own = TypedExpr::Column {
        place,
        kind: column.kind,
    };
    if same_kind(kind, column.kind) {
        return Ok(own);
    }
    Ok(TypedExpr::Cast {
        child: Boxed::new(alloc, own)?,
        kind,
    })
}
