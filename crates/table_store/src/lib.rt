//! Tables under folded names, and keepers of tables, whose commits apply one change, skip it, or refuse it and change nothing.
#![tactic(auto)]

mod applying;
mod change;
mod keeper;
mod laws;
mod memory;
mod rule;
mod steady;
mod tables;
#[cfg(test)]
mod tests;

pub use change::{Commit, CommitRefusal, How, TableChange};
pub use keeper::Keeper;
pub use laws::{
    a_change_changes_one_table, a_name_finds_its_table, an_absent_name_finds_none,
    the_rule_has_causes,
};
pub use memory::MemoryKeeper;
pub use steady::SteadyKeeper;
pub use tables::{NamedTable, Tables};
