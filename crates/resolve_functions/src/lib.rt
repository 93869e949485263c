//! The built-in functions by their names, the arguments that each takes, and the types of calls and casts.
#![tactic(auto)]

mod arguments;
mod asked;
mod call;
mod casting;
mod folding;
mod function_names;
mod kinds;
mod slices;
#[cfg(test)]
mod tests;

pub use arguments::{kind_of, typed_call};
pub use asked::{Asked, is_aggregate, takes};
pub use call::{aggregate_kind, call_kind};
pub use casting::{can_cast, kind_named};
pub use function_names::function_named;
