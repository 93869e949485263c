//! The one answer of a plan's resolution: its node with its columns, or the first error.
#![tactic(auto)]

mod answer;
mod local;
mod member;
mod saving;
mod walk;

pub use answer::resolve;
