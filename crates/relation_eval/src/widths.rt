ghost use Rattle.std.specs.Prelude.{◌≡◌, ◌++◌, IfOk, length};
ghost use Rattle.plan_model.specs.NodeTypes.{types, join_types};

use cn_base::OutOfMemory;
use plan_model::{JoinKind, Node};

/// How many columns a relation has. Rows of so many columns that no number tells them find no memory.
#[cycle(width)]
pub(crate) fn width_of(node: &Node) -> Result<usize, OutOfMemory>
    ensures { IfOk result (λ width. width ≡ length (types node.now)) }
{
    match node {
        Node::Rows { schema, .. } => Ok(schema.0.len()),
        Node::Range { .. } => Ok(1),
        Node::Project { items, .. } => Ok(items.len()),
        Node::Filter { input, .. } => width_of(input.get()),
        Node::Join {
            left,
            right,
            kind,
            ..
        } => join_width(left.get(), right.get(), *kind),
        Node::SetOp { left, .. } => width_of(left.get()),
        Node::Aggregate { items, .. } => Ok(items.len()),
        Node::DistinctOn { input, .. } => width_of(input.get()),
        Node::Sort { input, .. } => width_of(input.get()),
        Node::Slice { input, .. } => width_of(input.get()),
    }
}

/// Semi and anti joins have the left columns alone.
#[cycle(width)]
fn join_width(left: &Node, right: &Node, kind: JoinKind) -> Result<usize, OutOfMemory>
    ensures { IfOk result (λ width. width ≡ length (join_types kind (types left.now) (types right.now))) }
{
    match kind {
        JoinKind::Semi => width_of(left),
        JoinKind::Anti => width_of(left),
        JoinKind::Inner => both_widths(left, right),
        JoinKind::Cross => both_widths(left, right),
        JoinKind::Left => both_widths(left, right),
        JoinKind::Right => both_widths(left, right),
        JoinKind::Full => both_widths(left, right),
    }
}

#[cycle(width)]
fn both_widths(left: &Node, right: &Node) -> Result<usize, OutOfMemory>
    ensures { IfOk result (λ width. width ≡ length (types left.now ++ types right.now)) }
{
    let left = width_of(left)?;
    let right = width_of(right)?;
    left.checked_add(right).ok_or(OutOfMemory)
}
