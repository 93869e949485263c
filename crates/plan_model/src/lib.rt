//! Resolved plans and what they mean: the value of an expression and of an aggregate, which plans are well formed, and which outcomes a
//! plan allows.
#![tactic(auto)]

mod copies;
mod expression;
mod function;
mod laws;
mod node;
mod outcome;
mod plan;
mod plan_laws;
mod step_laws;
#[cfg(test)]
mod tests;

pub use expression::TypedExpr;
pub use function::Function;
pub use laws::{
    arithmetic_wraps, calls_are_of_the_table, calls_have_their_type, calls_ignore_order,
    casts_give_the_type, coalesce_takes_the_first, comparisons_follow_the_order,
    counts_are_never_null, date_parts_are_of_the_calendar, days_are_tested, days_move,
    de_morgan_holds, distinct_values_are_counted, equality_tells_sameness, extremes_are_reached,
    in_tells_members, no_values_sum_to_null, null_safe_equality_tells_sameness, nulls_are_told,
    numbers_wrap, parts_are_within, texts_are_made_of_parts, texts_start_and_end, totals_add_up,
    truth_commutes, truth_tables_are_three_valued, values_are_in_range, values_follow_the_form,
    values_have_their_type, when_takes_the_first, worked_rows_hold, worked_types_hold,
};
pub use node::{AggregateCall, JoinKind, Node, SetKind, SortKey};
pub use outcome::Outcome;
pub use plan::{Resolved, Save};
pub use plan_laws::{
    determined_outcomes_are_alike, distinct_rows_are_a_set, first_errors_are_of_the_left,
    joins_count_their_rows, joins_go_by_conditions, joins_hold_their_rows, joins_match,
    one_row_without_keys, permutations_have_the_same_counts, plans_are_limited,
    plans_have_outcomes, relations_follow_their_kind, rows_are_in_range, rows_are_limited,
    rows_are_within_limits, rows_fit, selections_keep_places, set_operations_count,
    set_operations_hold_their_rows, sorted_rows_stay, sorts_go_by_the_first_key,
    sorts_without_ties_are_unique, worked_plans_hold,
};
pub use step_laws::{conditions_of_pairs, groups_grow, joins_grow, rows_once_grow};
