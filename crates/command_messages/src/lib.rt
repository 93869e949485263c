//! Commands as messages, over a relation that is left open: read of their fields exactly, and written in one spelling. `R` is a relation, or what
//! stands for one.
#![tactic(auto)]

mod command;
mod save_table;
mod table_field;
mod write_operation;
mod write_operation_writing;

pub use command::Command;
pub use save_table::SaveTable;
pub use table_field::table_depth;
pub use write_operation::{WriteOperation, write_operation_like, write_operation_over};
pub use write_operation_writing::{put_write_operation_rest, write_operation_rest_size};

#[cfg(test)]
mod tests;
