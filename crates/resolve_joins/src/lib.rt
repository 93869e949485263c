//! Joins of two resolved relations.
#![tactic(auto)]

mod equalities;
mod joining;
mod key_columns;
mod keyed_parts;
mod keys;
mod kinds;
mod laws;
mod sides;
#[cfg(test)]
mod tests;

pub use joining::join;
pub use keys::KeyPair;
pub use laws::{other_columns_are_old, semi_joins_have_the_left_alone};
