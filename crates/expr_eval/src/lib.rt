//! The values of expressions over rows: columns, literals, the built-in functions of Spark SQL, and casts.
#![tactic(auto)]

mod arithmetic;
mod casts;
mod comparisons;
mod condition_laws;
mod conditionals;
mod dates;
mod forms;
mod lists;
mod operand;
mod texts;
mod truth;
mod values;

pub use condition_laws::well_formed_is_in_range;
pub use operand::Operand;
pub use values::{holds, operand_of, value};
