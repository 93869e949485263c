//! The parts of a relation's message that stand on no other relation, as messages: read of their fields exactly, and written in one spelling.
#![tactic(auto)]

mod common;
mod laws;
mod local_relation;
mod range;
mod read;

pub use common::{RelationCommon, common_from, common_size, put_common};
pub use laws::{part_texts_are_kept, parts_are_read_back, parts_are_valid};
pub use local_relation::{
    LocalRelation, local_relation_from, local_relation_size, put_local_relation,
};
pub use range::{Range, put_range, range_from, range_size};
pub use read::{NamedTable, Read, put_read, read_depth, read_from, read_size};
