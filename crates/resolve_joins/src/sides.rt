ghost use Rattle.std.specs.Prelude.{◌≡◌, ◌++◌, [], if◌then◌else◌, IfOk, IfErr};
ghost use Rattle.plan_model.specs.declared.node.Node.TheVariants as node;
ghost use Rattle.resolve_names.specs.declared.error.ResolveStop.TheVariants.{OutOfMemory as no_memory};
ghost use Rattle.resolve_joins.specs.Joins as joins;

use crate::kinds::{has_left_nulls, has_right, has_right_nulls};
use cn_base::{Boxed, Copied, List, OutOfMemory};
use plan_model::{JoinKind, Node, TypedExpr};
use resolve_names::{ColumnList, ResolveStop, ScopeColumn, Tagged};
use resolve_relations::Found;
use std::alloc::Global;

/// The pairs of both relations' rows of which the condition is true, as `joined`.
pub(crate) fn joined(
    alloc: Global,
    kind: JoinKind,
    left: Found,
    right: Found,
    condition: Option<TypedExpr>,
) -> Result<Found, ResolveStop>
    ensures ok { IfOk result (λ found. found ≡ joins.joined kind left right condition) }
    ensures refused { IfErr result (λ e. e ≡ no_memory) }
{
    let columns = joined_columns(
        alloc,
        kind,
        left.columns.as_slice(),
        right.columns.as_slice(),
    )?;
    joined_with(alloc, kind, columns, left, right, condition)
}

/// The same under these columns.
pub(crate) fn joined_with(
    alloc: Global,
    kind: JoinKind,
    columns: List<ScopeColumn>,
    left: Found,
    right: Found,
    condition: Option<TypedExpr>,
) -> Result<Found, ResolveStop>
    ensures ok { IfOk result (λ found. found ≡ record { node = node.Join left.node right.node kind condition; columns = columns; relations = left.relations ++ right.relations }) }
    ensures refused { IfErr result (λ e. e ≡ no_memory) }
{
    let Found {
        node: left_node,
        columns: _left_columns,
        mut relations,
    } = left;
    let Found {
        node: right_node,
        columns: _right_columns,
        relations: right_relations,
    } = right;
    relations.append(right_relations)?;
    let columns = ColumnList::of(alloc, columns)?;
    let node = join_node(alloc, kind, left_node, right_node, condition)?;
    Ok(Found {
        node,
        columns,
        relations,
    })
}

fn join_node(
    alloc: Global,
    kind: JoinKind,
    left: Node,
    right: Node,
    condition: Option<TypedExpr>,
) -> Result<Node, OutOfMemory>
    ensures { IfOk result (λ found. found ≡ node.Join left right kind condition) }
{
    let left = Boxed::new(alloc, left)?;
    let right = Boxed::new(alloc, right)?;
    Ok(Node::Join {
        left,
        right,
        kind,
        condition,
    })
}

/// The left's columns and then the right's, as a join of this kind has them.
#[tactic(auto, unfolding(crate::specs::Joins::joined_columns))]
pub(crate) fn joined_columns(
    alloc: Global,
    kind: JoinKind,
    left: &[ScopeColumn],
    right: &[ScopeColumn],
) -> Result<List<ScopeColumn>, OutOfMemory>
    ensures { IfOk result (λ columns. columns ≡ joins.joined_columns kind left.now right.now) }
{
    let mut columns = side_columns(alloc, has_left_nulls(kind), left)?;
    columns.append(right_columns(alloc, kind, right)?)?;
    Ok(columns)
}

fn right_columns(
    alloc: Global,
    kind: JoinKind,
    right: &[ScopeColumn],
) -> Result<List<ScopeColumn>, OutOfMemory>
    ensures { IfOk result (λ columns. columns ≡ (if joins.has_right kind then joins.side_columns (joins.has_right_nulls kind) right.now else [])) }
{
    if !has_right(kind) {
        return Ok(List::new(alloc));
    }
    side_columns(alloc, has_right_nulls(kind), right)
}

#[tactic(auto, using(resolve_relations::proofs::Numbered::map_steps))]
fn side_columns(
    alloc: Global,
    nulls: bool,
    columns: &[ScopeColumn],
) -> Result<List<ScopeColumn>, OutOfMemory>
    ensures { IfOk result (λ made. made ≡ joins.side_columns nulls columns.now) }
{
    let mut made = List::new(alloc);
    for column in columns {
        made.push(perhaps_null(alloc, nulls, column)?)?;
    }
    Ok(made)
}

fn perhaps_null(
    alloc: Global,
    nulls: bool,
    column: &ScopeColumn,
) -> Result<ScopeColumn, OutOfMemory>
    ensures { IfOk result (λ made. made ≡ joins.perhaps_null nulls column.now) }
{
    Ok(ScopeColumn {
        qualifier: column.qualifier.copy(alloc)?,
        name: column.name.copy(alloc)?,
        id: column.id,
        kind: column.kind,
        nullable: column.nullable || nulls,
    })
}

/// The columns of two relations, as they are.
pub(crate) fn both_columns(
    alloc: Global,
    left: &[ScopeColumn],
    right: &[ScopeColumn],
) -> Result<List<ScopeColumn>, OutOfMemory>
    ensures { IfOk result (λ columns. columns ≡ left.now ++ right.now) }
{
    let mut columns = copies(alloc, left)?;
    columns.append(copies(alloc, right)?)?;
    Ok(columns)
}

fn copies(alloc: Global, columns: &[ScopeColumn]) -> Result<List<ScopeColumn>, OutOfMemory>
    ensures { IfOk result (λ copied. copied ≡ columns.now) }
{
    let mut copied = List::new(alloc);
    for column in columns {
        copied.push(column.copy(alloc)?)?;
    }
    Ok(copied)
}

/// The relations with plan ids in two relations. Their columns are shared.
pub(crate) fn both_relations(
    alloc: Global,
    left: &[Tagged<u64>],
    right: &[Tagged<u64>],
) -> Result<List<Tagged<u64>>, OutOfMemory>
    ensures { IfOk result (λ relations. relations ≡ left.now ++ right.now) }
{
    let mut relations = shares(alloc, left)?;
    relations.append(shares(alloc, right)?)?;
    Ok(relations)
}

fn shares(alloc: Global, relations: &[Tagged<u64>]) -> Result<List<Tagged<u64>>, OutOfMemory>
    ensures { IfOk result (λ shared. shared ≡ relations.now) }
{
    let mut shared = List::new(alloc);
    for relation in relations {
        shared.push(share(relation)?)?;
    }
    Ok(shared)
}

fn share(relation: &Tagged<u64>) -> Result<Tagged<u64>, OutOfMemory>
    ensures { IfOk result (λ shared. shared ≡ relation.now) }
{
    Ok(Tagged {
        plan_id: relation.plan_id,
        columns: relation.columns.share()?,
    })
}
