//! The lines that make tables: `table` lines with their columns, and `row` lines with printed values.
#![tactic(auto)]

mod cells;
mod columns;
mod lines;
mod pieces;
#[cfg(test)]
mod tests;

pub use lines::{LinedTable, TableLines};
