//! The rows of resolved plans, or the limit that they exceed: a function for each kind of relation, over the rows of its inputs.
#![tactic(auto)]

mod aggregates;
mod buckets;
mod calls;
mod equalities;
mod evaluation;
mod firsts;
mod given;
mod joins;
mod limits;
mod matches;
mod order_laws;
mod ranges;
mod selections;
mod sets;
mod sorting;
mod steps;
#[cfg(test)]
mod tests;
mod widths;

pub use aggregates::aggregate;
pub use buckets::Buckets;
pub use evaluation::evaluate;
pub use firsts::distinct_on;
pub use given::{Given, HeldRows};
pub use joins::join;
pub use limits::limited_rows;
pub use order_laws::{grouped_is_an_aggregate, joined_is_a_join};
pub use ranges::range;
pub use selections::{filter, project, slice};
pub use sets::set_operation;
pub use sorting::sort;
