//! Names in plans: identifiers, their case, columns in scope, and the errors of analysis.
#![tactic(auto)]

mod error;
mod identifier;
mod laws;
mod lookup;
mod matching;
mod scope;
mod setting;
#[cfg(test)]
mod tests;

pub use error::{AnalysisError, ErrorName, ResolveStop, analysis_stop};
pub use identifier::identifier_parts;
pub use laws::{
    folded_spellings_answer_alike, found_columns_are_the_only_ones, identifiers_have_one_reading,
};
pub use lookup::{attribute_place, is_named, named_place, parts_of, relation_of};
pub use matching::names_match;
pub use scope::{ColumnList, ColumnOf, Scope, ScopeColumn, Tagged};
pub use setting::is_case_sensitive;
