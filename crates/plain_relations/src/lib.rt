//! Relations over others that hold no expression, as messages: read of their fields exactly, and written in one spelling. What a relation's
//! inputs are is left open: `R` is a relation, or what stands for one.
#![tactic(auto)]

mod deduplicate;
mod laws;
mod limit;
mod map_merging;
mod rename_entry;
mod rename_map;
mod renamed;
mod renamed_writing;
mod set_operation;
mod subquery_alias;
mod to_df;

pub use deduplicate::{
    Deduplicate, deduplicate_like, deduplicate_over, deduplicate_rest_size, put_deduplicate_rest,
};
pub use laws::maps_are_of_entries;
pub use limit::{
    Limit, Offset, limit_like, limit_over, limit_rest_size, offset_like, offset_over,
    offset_rest_size, put_limit_rest, put_offset_rest,
};
pub use rename_entry::RenameEntry;
pub use rename_map::RenameMap;
pub use renamed::{WithColumnsRenamed, renamed_like, renamed_over, renamed_rest_depth};
pub use renamed_writing::{put_renamed_rest, renamed_rest_size};
pub use set_operation::{
    SetOperation, put_set_operation_rest, set_operation_like, set_operation_over,
    set_operation_rest_size,
};
pub use subquery_alias::{
    SubqueryAlias, put_subquery_alias_rest, subquery_alias_like, subquery_alias_over,
    subquery_alias_rest_size,
};
pub use to_df::{ToDf, put_to_df_rest, to_df_like, to_df_over, to_df_rest_size};

#[cfg(test)]
mod tests;
