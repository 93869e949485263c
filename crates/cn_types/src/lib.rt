//! The types that every layer shares: values, rows, schemas, and the lines that they are printed as.
#![tactic(auto)]

mod dates;
mod escaping;
mod fault;
mod json;
mod ordering;
mod printing;
mod row;
mod schema;
mod settings;
mod spelling;
#[cfg(test)]
mod tests;
mod value;

pub use dates::dates_are_of_the_calendar;
pub use fault::{SchemaFault, ValueFault};
pub use json::no_struct_is_refused;
pub use ordering::{
    equal_rows_are_the_same, equal_values_are_the_same, order, rows_are_ordered, values_are_ordered,
};
pub use printing::{header_text, lines_tell_rows_apart, row_text};
pub use row::{Row, RowList};
pub use schema::{Field, Schema};
pub use settings::{Pair, Settings};
pub use spelling::{one_value_is_spelled, value_of_text};
pub use value::{DataType, Value};
