//! Pipeline texts, read as plans.
#![tactic(auto)]

mod draft;
mod heights;
mod makers;
mod names;
mod parse;
mod parts;
mod pile;
mod steps;
mod taken;
#[cfg(test)]
mod tests;
mod units;
mod values;

pub use parse::{TextFault, a_text_is_one_plan, parse_pipeline};
