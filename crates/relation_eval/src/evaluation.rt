ghost use Rattle.std.specs.Prelude.{◌++◌, IfOk, IfSome};
ghost use Rattle.plan_model.specs.Allows.{Allows, AllowsPlan, joining_of};
ghost use Rattle.plan_model.specs.Counts.{SameCounts};
ghost use Rattle.plan_model.specs.Joins.{IsJoin};
ghost use Rattle.plan_model.specs.NodeTypes.{types};
ghost use Rattle.plan_model.specs.Outcomes.{Bounded, After};
ghost use Rattle.plan_model.specs.SetOperations.{IsSetOperation};
ghost use Rattle.plan_model.specs.WellFormed.{IsCondition, IsWellFormed, IsWellFormedPlan};
ghost use Rattle.relation_eval.specs.Given.{outcome_of};
ghost use Rattle.relation_eval.specs.Steps.{AreDated};

use crate::given::{Given, HeldRows};
use crate::limits::{ROW_LIMIT, WEIGHT_LIMIT, limited_rows};
use crate::ranges::range;
use crate::steps::{
    aggregate_given, distinct_given, filter_given, join_given, project_given, set_given,
    slice_given, sort_given,
};
use crate::widths::width_of;
use cn_base::{Copied, OutOfMemory};
use cn_types::RowList;
use plan_model::{JoinKind, Node, Outcome, Resolved, SetKind, TypedExpr};
use std::alloc::Global;

/// What a plan gives: its rows under its schema, or the first limit that a relation passes, the inputs of each relation first, from left to
/// right. Rows that the plan holds are shared and not copied.
#[tactic(auto, unfolding(plan_model::specs::Outcomes::row_limit, plan_model::specs::Outcomes::weight_limit))]
pub fn evaluate(alloc: Global, plan: &Resolved) -> Result<Outcome, OutOfMemory>
    requires { IsWellFormedPlan plan.now }
    ensures { IfOk result (λ outcome. AllowsPlan plan.now outcome) }
{
    match given_of(alloc, &plan.node)? {
        Given::Rows(rows) => {
            let schema = plan.schema.copy(alloc)?;
            let rows = rows.into_shared(alloc)?;
            Ok(Outcome::Rows(schema, rows))
        }
        Given::TooManyRows => Ok(Outcome::TooManyRows {
            limit: ROW_LIMIT as u32,
        }),
        Given::RowTooLarge => Ok(Outcome::RowTooLarge {
            limit: WEIGHT_LIMIT as u32,
        }),
    }
}

/// What a relation gives.
#[cycle(given)]
fn given_of(alloc: Global, node: &Node) -> Result<Given, OutOfMemory>
    requires { IsWellFormed node.now }
    ensures allowed { IfOk result (λ given. Allows node.now (outcome_of given)) }
    ensures dated { IfOk result (λ given. AreDated (outcome_of given)) }
{
    let given = given_by_kind(alloc, node)?;
    Ok(given)
}

#[cycle(given)]
fn given_by_kind(alloc: Global, node: &Node) -> Result<Given, OutOfMemory>
    requires { IsWellFormed node.now }
    ensures { IfOk result (λ given. Allows node.now (outcome_of given)) }
{
    match node {
        Node::Rows { rows, .. } => table(rows),
        Node::Range { start, end, step } => range(alloc, *start, *end, *step),
        Node::Project { input, items } => project_given(
            alloc,
            given_of(alloc, input.get())?,
            items,
        ),
        Node::Filter { input, condition } => {
            filter_given(alloc, given_of(alloc, input.get())?, condition)
        }
        Node::Join {
            left,
            right,
            kind,
            condition,
        } => join_of(alloc, left.get(), right.get(), *kind, condition),
        Node::SetOp {
            left,
            right,
            kind,
            all,
        } => set_of(alloc, left.get(), right.get(), *kind, *all),
        Node::Aggregate {
            input,
            keys,
            calls,
            items,
        } => aggregate_given(alloc, given_of(alloc, input.get())?, keys, calls, items),
        Node::DistinctOn { input, columns } => {
            distinct_given(alloc, given_of(alloc, input.get())?, columns)
        }
        Node::Sort { input, keys } => sort_given(alloc, given_of(alloc, input.get())?, keys),
        Node::Slice { input, skip, take } => {
            slice_given(alloc, given_of(alloc, input.get())?, *skip, *take)
        }
    }
}

/// The rows of a table, or of a list in the plan, which are shared.
fn table(rows: &RowList) -> Result<Given, OutOfMemory>
    ensures { IfOk result (λ given. Bounded (λ list. SameCounts list rows.now) (outcome_of given)) }
{
    Ok(limited_rows(HeldRows::Shared(rows.share()?)))
}

/// A join: the right input is evaluated only where the left one has rows.
#[cycle(given)]
fn join_of(
    alloc: Global,
    left: &Node,
    right: &Node,
    kind: JoinKind,
    condition: &Option<TypedExpr>,
) -> Result<Given, OutOfMemory>
    requires left { IsWellFormed left.now }
    requires right { IsWellFormed right.now }
    requires condition { IfSome condition.now (IsCondition (types left.now ++ types right.now)) }
    ensures { IfOk result (λ given. After (Allows left.now) (λ a. After (Allows right.now) (λ b. Bounded (IsJoin kind (joining_of condition.now left.now right.now) a b))) (outcome_of given)) }
{
    let left_given = given_of(alloc, left)?;
    if !left_given.has_rows() {
        return Ok(left_given);
    }
    let right_given = given_of(alloc, right)?;
    let left_width = width_of(left)?;
    let right_width = width_of(right)?;
    join_given(
        alloc,
        left_given,
        right_given,
        kind,
        condition,
        left_width,
        right_width,
    )
}

/// A set operation: the right input is evaluated only where the left one has rows.
#[cycle(given)]
fn set_of(
    alloc: Global,
    left: &Node,
    right: &Node,
    kind: SetKind,
    all: bool,
) -> Result<Given, OutOfMemory>
    requires left { IsWellFormed left.now }
    requires right { IsWellFormed right.now }
    ensures { IfOk result (λ given. After (Allows left.now) (λ a. After (Allows right.now) (λ b. Bounded (IsSetOperation kind all a b))) (outcome_of given)) }
{
    let left_given = given_of(alloc, left)?;
    if !left_given.has_rows() {
        return Ok(left_given);
    }
    let right_given = given_of(alloc, right)?;
    set_given(alloc, left_given, right_given, kind, all)
}
