//! The members of a relation's oneof, each by its number: read over inputs that are given, and written but for these. `R` is a relation, or what
//! stands for one.
#![tactic(auto)]

mod copies;
mod inputs;
mod member;
mod reading;
mod rest;

pub use copies::member_like;
pub use expression_relations::{Aggregate, DropColumns, Filter, Join, Project, Sort, WithColumns};
pub use inputs::{first_input, member_number, second_input};
pub use member::RelationMember;
pub use plain_relations::{
    Deduplicate, Limit, Offset, RenameEntry, RenameMap, SetOperation, SubqueryAlias, ToDf,
    WithColumnsRenamed,
};
pub use reading::{binary_member, input_count, leaf_member, unary_member};
pub use relation_parts::{LocalRelation, NamedTable, Range, Read, RelationCommon};
pub use rest::{is_known_rest, put_rest, rest_depth, rest_size};

#[cfg(test)]
mod tests;
