//! Relations as messages, each over others: read of their fields exactly, and written in one spelling.
#![tactic(auto)]

mod laws;
mod relation;
mod relation_copy;
mod relation_depths;
mod relation_reading;
mod relation_writing;

pub use laws::{
    relation_levels_agree, relation_texts_are_kept, relations_are_read_back, relations_are_valid,
};
pub use relation::Relation;
pub use relation_depths::{is_known_relation, relation_depth};
pub use relation_members::{
    Aggregate, Deduplicate, DropColumns, Filter, Join, Limit, LocalRelation, NamedTable, Offset,
    Project, Range, Read, RelationCommon, RelationMember, RenameEntry, RenameMap, SetOperation,
    Sort, SubqueryAlias, ToDf, WithColumns, WithColumnsRenamed,
};
pub use relation_reading::relation_from;
pub use relation_writing::{put_relation, relation_size};

#[cfg(test)]
mod tests;
