//! What holds of every resolved relation: its node is well formed, and its columns have the node's types.
#![tactic(auto)]

mod laws;
mod null_laws;
mod pair_laws;
mod table_laws;

pub use laws::{
    aggregates_are_sound, fewer_columns_are_sound, kept_relations_are_sound, leaves_are_sound,
    projections_are_sound, renamed_relations_are_sound, tested_relations_are_sound,
};
pub use null_laws::{
    aggregates_are_null_safe, fewer_columns_are_null_safe, kept_relations_are_null_safe,
    leaves_are_null_safe, projections_are_null_safe, renamed_relations_are_null_safe,
    tested_relations_are_null_safe,
};
pub use pair_laws::{
    joins_are_null_safe, joins_are_sound, set_operations_are_null_safe, set_operations_are_sound,
};
pub use table_laws::{changes_keep_columns_nullable, nullable_tables_are_safe};
