//! Expressions with their types over the columns that they see, their names, and the columns that relations make of them.
#![tactic(auto)]

mod grouping;
mod item;
mod items;
mod laws;
mod names;
mod outputs;
mod same;
mod stars;
#[cfg(test)]
mod tests;
mod titles;
mod typings;

pub use grouping::{has_aggregate, regrouped, regrouped_item};
pub use item::Item;
pub use items::item_of;
pub use laws::{
    conditions_are_well_formed, regrouped_expressions_are_well_formed, same_expressions_are_equal,
    typed_expressions_are_well_formed, values_are_well_formed,
};
pub use names::Names;
pub use outputs::{
    added_items, condition_of, grouped, key_items, projected, sort_keys_of, value_of,
};
pub use same::same_expr;
pub use stars::star_items;
pub use titles::{name_of, title_of};
pub use typings::typed_over;
