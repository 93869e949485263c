ghost use Rattle.std.specs.Prelude.{◌≡◌, true, IfOk};
ghost use Rattle.std.specs.Option.{option_copied};
ghost use Rattle.resolve_relations.specs.Columns.{ids_from, numbered};
ghost use Rattle.resolve_relations.specs.Columns as columns_of;
ghost use Rattle.resolve_sets.specs.Sets as sets;

use crate::aligned::Aligned;
use crate::typing::column_at;
use cn_base::{Copied, List, OutOfMemory, Text};
use cn_types::DataType;
use resolve_names::ScopeColumn;
use resolve_relations::{fresh_column, id_at};
use std::alloc::Global;

/// The columns of both sides' rows; ids that are fresh are those from `base` on, by the columns' numbers.
#[tactic(auto, using(resolve_relations::proofs::Numbered::number_steps))]
pub(crate) fn set_columns(
    alloc: Global,
    base: u64,
    left: &[ScopeColumn],
    right: &[ScopeColumn],
    aligned: &[Aligned],
) -> Result<List<ScopeColumn>, OutOfMemory>
    ensures { IfOk result (λ made. made ≡ numbered (sets.aligned_column (ids_from base) left.now right.now) aligned.now) }
{
    let mut made = List::new(alloc);
    for (number, one) in aligned.iter().enumerate() {
        made.push(aligned_column(alloc, base, left, right, number, one)?)?;
    }
    Ok(made)
}

fn aligned_column(
    alloc: Global,
    base: u64,
    left: &[ScopeColumn],
    right: &[ScopeColumn],
    number: usize,
    one: &Aligned,
) -> Result<ScopeColumn, OutOfMemory>
    ensures { IfOk result (λ c. c ≡ sets.aligned_column (ids_from base) left.now right.now number one.now) }
{
    let id = id_at(base, number)?;
    let left = column_at(left, one.left);
    let right = column_at(right, one.right);
    set_column(alloc, id, one.kind, left, right)
}

fn set_column(
    alloc: Global,
    id: u64,
    kind: DataType,
    left: Option<&ScopeColumn>,
    right: Option<&ScopeColumn>,
) -> Result<ScopeColumn, OutOfMemory>
    ensures { IfOk result (λ c. c ≡ sets.set_column id kind (option_copied left.entry) (option_copied right.entry)) }
{
    match (left, right) {
        (Some(left), Some(right)) => left_column(
            alloc,
            kind,
            left.nullable || right.nullable,
            left,
        ),
        (Some(left), None) => left_column(alloc, kind, true, left),
        (None, Some(right)) => right_column(alloc, id, kind, right),
        (None, None) => Ok(fresh_column(alloc, id, Text::new(alloc), kind, true)),
    }
}

/// The left's column, of this type, and perhaps null.
fn left_column(
    alloc: Global,
    kind: DataType,
    nullable: bool,
    column: &ScopeColumn,
) -> Result<ScopeColumn, OutOfMemory>
    ensures { IfOk result (λ c. c ≡ sets.left_column kind nullable column.now) }
{
    Ok(ScopeColumn {
        qualifier: column.qualifier.copy(alloc)?,
        name: column.name.copy(alloc)?,
        id: column.id,
        kind,
        nullable,
    })
}

/// A column that the right has alone: a fresh one.
fn right_column(
    alloc: Global,
    id: u64,
    kind: DataType,
    column: &ScopeColumn,
) -> Result<ScopeColumn, OutOfMemory>
    ensures { IfOk result (λ c. c ≡ columns_of.fresh_column id column.now.name kind true) }
{
    let name = column.name.copy(alloc)?;
    Ok(fresh_column(alloc, id, name, kind, true))
}
