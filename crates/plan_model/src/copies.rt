ghost use Rattle.std.specs.Prelude.{◌≡◌, IfOk};

use crate::{AggregateCall, JoinKind, Node, SetKind, SortKey, TypedExpr};
use cn_base::{Boxed, Copied, List, OutOfMemory};
use cn_types::{RowList, Schema};
use std::alloc::Global;

/// A copy of a relation with all of its inputs.
#[cycle(copies)]
pub(crate) fn copy_node(alloc: Global, node: &Node) -> Result<Node, OutOfMemory>
    ensures { IfOk result (λ c. c ≡ node.now) }
{
    match node {
        Node::Rows { schema, rows } => copy_rows(alloc, schema, rows),
        Node::Range { start, end, step } => Ok(range(*start, *end, *step)),
        Node::Project { input, items } => project(alloc, copy_node(alloc, input.get())?, items),
        Node::Filter { input, condition } => {
            filter(alloc, copy_node(alloc, input.get())?, condition)
        }
        Node::Join {
            left,
            right,
            kind,
            condition,
        } => copy_join(alloc, left.get(), right.get(), *kind, condition),
        Node::SetOp {
            left,
            right,
            kind,
            all,
        } => copy_set_op(alloc, left.get(), right.get(), *kind, *all),
        Node::Aggregate {
            input,
            keys,
            calls,
            items,
        } => aggregate(alloc, copy_node(alloc, input.get())?, keys, calls, items),
        Node::DistinctOn { input, columns } => {
            distinct_on(alloc, copy_node(alloc, input.get())?, columns)
        }
        Node::Sort { input, keys } => sort(alloc, copy_node(alloc, input.get())?, keys),
        Node::Slice { input, skip, take } => {
            slice(alloc, copy_node(alloc, input.get())?, *skip, *take)
        }
    }
}

#[cycle(copies)]
fn copy_join(
    alloc: Global,
    left: &Node,
    right: &Node,
    kind: JoinKind,
    condition: &Option<TypedExpr>,
) -> Result<Node, OutOfMemory>
    ensures { IfOk result (λ node. node ≡ Node.Join left.now right.now kind condition.now) }
{
    let left = copy_node(alloc, left)?;
    let right = copy_node(alloc, right)?;
    Ok(Node::Join {
        left: Boxed::new(alloc, left)?,
        right: Boxed::new(alloc, right)?,
        kind,
        condition: condition.copy(alloc)?,
    })
}

#[cycle(copies)]
fn copy_set_op(
    alloc: Global,
    left: &Node,
    right: &Node,
    kind: SetKind,
    all: bool,
) -> Result<Node, OutOfMemory>
    ensures { IfOk result (λ node. node ≡ Node.SetOp left.now right.now kind all) }
{
    let left = copy_node(alloc, left)?;
    let right = copy_node(alloc, right)?;
    Ok(Node::SetOp {
        left: Boxed::new(alloc, left)?,
        right: Boxed::new(alloc, right)?,
        kind,
        all,
    })
}

fn range(start: i64, end: i64, step: i64) -> Node
    ensures { result ≡ Node.Range start end step }
{
    Node::Range { start, end, step }
}

fn copy_rows(alloc: Global, schema: &Schema, rows: &RowList) -> Result<Node, OutOfMemory>
    ensures { IfOk result (λ node. node ≡ Node.Rows schema.now rows.now) }
{
    Ok(Node::Rows {
        schema: schema.copy(alloc)?,
        rows: rows.copy(alloc)?,
    })
}

fn project(alloc: Global, input: Node, items: &List<TypedExpr>) -> Result<Node, OutOfMemory>
    ensures { IfOk result (λ node. node ≡ Node.Project input items.now) }
{
    Ok(Node::Project {
        input: Boxed::new(alloc, input)?,
        items: items.copy(alloc)?,
    })
}

fn filter(alloc: Global, input: Node, condition: &TypedExpr) -> Result<Node, OutOfMemory>
    ensures { IfOk result (λ node. node ≡ Node.Filter input condition.now) }
{
    Ok(Node::Filter {
        input: Boxed::new(alloc, input)?,
        condition: condition.copy(alloc)?,
    })
}

fn aggregate(
    alloc: Global,
    input: Node,
    keys: &List<TypedExpr>,
    calls: &List<AggregateCall>,
    items: &List<TypedExpr>,
) -> Result<Node, OutOfMemory>
    ensures { IfOk result (λ node. node ≡ Node.Aggregate input keys.now calls.now items.now) }
{
    Ok(Node::Aggregate {
        input: Boxed::new(alloc, input)?,
        keys: keys.copy(alloc)?,
        calls: calls.copy(alloc)?,
        items: items.copy(alloc)?,
    })
}

fn distinct_on(alloc: Global, input: Node, columns: &List<u32>) -> Result<Node, OutOfMemory>
    ensures { IfOk result (λ node. node ≡ Node.DistinctOn input columns.now) }
{
    Ok(Node::DistinctOn {
        input: Boxed::new(alloc, input)?,
        columns: columns.copy(alloc)?,
    })
}

fn sort(alloc: Global, input: Node, keys: &List<SortKey>) -> Result<Node, OutOfMemory>
    ensures { IfOk result (λ node. node ≡ Node.Sort input keys.now) }
{
    Ok(Node::Sort {
        input: Boxed::new(alloc, input)?,
        keys: keys.copy(alloc)?,
    })
}

fn slice(alloc: Global, input: Node, skip: u32, take: Option<u32>) -> Result<Node, OutOfMemory>
    ensures { IfOk result (λ node. node ≡ Node.Slice input skip take) }
{
    Ok(Node::Slice {
        input: Boxed::new(alloc, input)?,
        skip,
        take,
    })
}
