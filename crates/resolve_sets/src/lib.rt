//! Set operations of two resolved relations.
#![tactic(auto)]

mod aligned;
mod aligning;
mod columns;
mod laws;
mod options;
mod sets;
mod sides;
mod surplus;
mod typing;

pub use aligned::{Aligned, Places};
pub use laws::results_begin_with_the_left;
pub use options::SetOptions;
pub use sets::set_operation;
