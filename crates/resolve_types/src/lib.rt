//! Literals, attributes and casts with their types, and that typed expressions are well formed.
#![tactic(auto)]

mod attributes;
mod calls;
mod casts;
mod laws;
mod literals;

pub use attributes::typed_attribute;
pub use calls::{CallForm, aggregate_of, called};
pub use casts::typed_cast;
pub use laws::{
    typed_attributes_are_well_formed, typed_calls_are_well_formed, typed_casts_are_well_formed,
    typed_literals_are_well_formed,
};
pub use literals::{kind_of_type, typed_literal};
