ghost use Rattle.std.specs.Prelude.{◌≡◌, IfOk, IfSome, All};
ghost use Rattle.plan_model.specs.Groups.{IsAggregate, IsDistinctOn};
ghost use Rattle.plan_model.specs.Joins.{IsJoin};
ghost use Rattle.plan_model.specs.Outcomes.{Bounded};
ghost use Rattle.plan_model.specs.Selections.{projected, selected, sliced};
ghost use Rattle.plan_model.specs.SetOperations.{IsSetOperation};
ghost use Rattle.plan_model.specs.Sorting.{IsSort};
ghost use Rattle.expr_eval.specs.Dated.{HasLiteralsInRange};
ghost use Rattle.relation_eval.specs.Calls.{HasArgumentInRange};
ghost use Rattle.relation_eval.specs.Given.{outcome_of};
ghost use Rattle.relation_eval.specs.Joined.{widths_joining};
ghost use Rattle.relation_eval.specs.SortKeys.{HaveLiteralsInRange};
ghost use Rattle.relation_eval.specs.Steps.{Then, AreDated};

use crate::aggregates::aggregate;
use crate::firsts::distinct_on;
use crate::given::Given;
use crate::joins::join;
use crate::selections::{filter, project, slice};
use crate::sets::set_operation;
use crate::sorting::sort;
use cn_base::{List, OutOfMemory};
use plan_model::{AggregateCall, JoinKind, SetKind, SortKey, TypedExpr};
use std::alloc::Global;

/// A projection of what an input gives, or the input's error.
pub(crate) fn project_given(
    alloc: Global,
    input: Given,
    items: &List<TypedExpr>,
) -> Result<Given, OutOfMemory>
    requires literals { All HasLiteralsInRange items.now }
    requires dates { AreDated (outcome_of input) }
    ensures { IfOk result (λ given. Then (outcome_of input) (λ a. Bounded (λ list. list ≡ projected items.now a)) (outcome_of given)) }
{
    match input {
        Given::Rows(rows) => project(alloc, rows, items),
        Given::TooManyRows => Ok(Given::TooManyRows),
        Given::RowTooLarge => Ok(Given::RowTooLarge),
    }
}

pub(crate) fn filter_given(
    alloc: Global,
    input: Given,
    condition: &TypedExpr,
) -> Result<Given, OutOfMemory>
    requires literals { HasLiteralsInRange condition.now }
    requires dates { AreDated (outcome_of input) }
    ensures { IfOk result (λ given. Then (outcome_of input) (λ a. Bounded (λ list. list ≡ selected condition.now a)) (outcome_of given)) }
{
    match input {
        Given::Rows(rows) => filter(alloc, rows, condition),
        Given::TooManyRows => Ok(Given::TooManyRows),
        Given::RowTooLarge => Ok(Given::RowTooLarge),
    }
}

pub(crate) fn aggregate_given(
    alloc: Global,
    input: Given,
    keys: &List<TypedExpr>,
    calls: &List<AggregateCall>,
    items: &List<TypedExpr>,
) -> Result<Given, OutOfMemory>
    requires keys { All HasLiteralsInRange keys.now }
    requires calls { All HasArgumentInRange calls.now }
    requires items { All HasLiteralsInRange items.now }
    requires dates { AreDated (outcome_of input) }
    ensures { IfOk result (λ given. Then (outcome_of input) (λ a. Bounded (IsAggregate keys.now calls.now items.now a)) (outcome_of given)) }
{
    match input {
        Given::Rows(rows) => aggregate(alloc, rows, keys, calls, items),
        Given::TooManyRows => Ok(Given::TooManyRows),
        Given::RowTooLarge => Ok(Given::RowTooLarge),
    }
}

pub(crate) fn distinct_given(
    alloc: Global,
    input: Given,
    columns: &List<u32>,
) -> Result<Given, OutOfMemory>
    ensures { IfOk result (λ given. Then (outcome_of input) (λ a. Bounded (IsDistinctOn columns.now a)) (outcome_of given)) }
{
    match input {
        Given::Rows(rows) => distinct_on(alloc, rows, columns),
        Given::TooManyRows => Ok(Given::TooManyRows),
        Given::RowTooLarge => Ok(Given::RowTooLarge),
    }
}

pub(crate) fn sort_given(
    alloc: Global,
    input: Given,
    keys: &List<SortKey>,
) -> Result<Given, OutOfMemory>
    requires literals { HaveLiteralsInRange keys.now }
    requires dates { AreDated (outcome_of input) }
    ensures { IfOk result (λ given. Then (outcome_of input) (λ a. Bounded (IsSort keys.now a)) (outcome_of given)) }
{
    match input {
        Given::Rows(rows) => sort(alloc, rows, keys),
        Given::TooManyRows => Ok(Given::TooManyRows),
        Given::RowTooLarge => Ok(Given::RowTooLarge),
    }
}

pub(crate) fn slice_given(
    alloc: Global,
    input: Given,
    skip: u32,
    most: Option<u32>,
) -> Result<Given, OutOfMemory>
    ensures { IfOk result (λ given. Then (outcome_of input) (λ a. Bounded (λ list. list ≡ sliced skip most a)) (outcome_of given)) }
{
    match input {
        Given::Rows(rows) => slice(alloc, rows, skip, most),
        Given::TooManyRows => Ok(Given::TooManyRows),
        Given::RowTooLarge => Ok(Given::RowTooLarge),
    }
}

/// A join of what two inputs give, or the first input's error.
#[tactic(auto, using(crate::proofs::JoinedFacts::join_allowed))]
pub(crate) fn join_given(
    alloc: Global,
    left: Given,
    right: Given,
    kind: JoinKind,
    condition: &Option<TypedExpr>,
    left_width: usize,
    right_width: usize,
) -> Result<Given, OutOfMemory>
    requires literals { IfSome condition.now HasLiteralsInRange }
    requires left_dates { AreDated (outcome_of left) }
    requires right_dates { AreDated (outcome_of right) }
    ensures { IfOk result (λ given. Then (outcome_of left) (λ a. Then (outcome_of right) (λ b. Bounded (IsJoin kind (widths_joining condition.now left_width right_width) a b))) (outcome_of given)) }
{
    match (left, right) {
        (Given::Rows(left), Given::Rows(right)) => {
            join(
                alloc,
                left,
                right,
                kind,
                condition.as_ref(),
                left_width,
                right_width,
            )
        }
        (Given::Rows(_), right) => Ok(right),
        (left, _) => Ok(left),
    }
}

/// A set operation on what two inputs give, or the first input's error.
pub(crate) fn set_given(
    alloc: Global,
    left: Given,
    right: Given,
    kind: SetKind,
    all: bool,
) -> Result<Given, OutOfMemory>
    ensures { IfOk result (λ given. Then (outcome_of left) (λ a. Then (outcome_of right) (λ b. Bounded (IsSetOperation kind all a b))) (outcome_of given)) }
{
    match (left, right) {
        (Given::Rows(left), Given::Rows(right)) => set_operation(alloc, left, right, kind, all),
        (Given::Rows(_), right) => Ok(right),
        (left, _) => Ok(left),
    }
}
