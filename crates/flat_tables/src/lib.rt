//! Flatbuffers: a reader that finds the fields of tables, and a builder that writes them in one layout, which the reader reads back.
#![tactic(auto)]

mod builder;
mod bytes;
mod checks;
mod copies;
mod fault;
mod laws;
mod numbers;
mod object;
mod objects;
mod slots;
mod table;
mod vector;
mod vectors;

pub use builder::Builder;
pub use fault::FlatFault;
pub use laws::{built_objects_are_read, layouts_are_aligned, object_sizes_add_up, slots_are_found};
pub use object::{FlatObject, FlatPair, FlatSlot};
pub use table::Table;
pub use vector::Vector;

#[cfg(test)]
mod tests;
