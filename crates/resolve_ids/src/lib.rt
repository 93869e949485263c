//! Rules of relations mean the same whatever the ids of columns are. Laws alone.
#![tactic(auto)]

mod laws;
mod pair_laws;
mod together_laws;

pub use laws::{
    columns_are_dropped_alike, columns_are_made_alike, columns_are_named_alike, leaves_are_alike,
    limits_judge_alike, rows_are_kept_alike,
};
pub use pair_laws::{relations_are_combined_alike, relations_are_joined_alike};
pub use together_laws::rules_stay_the_same;
