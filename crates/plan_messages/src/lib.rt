//! Plans as messages: read of their bytes exactly, and written in one spelling.
#![tactic(auto)]

mod decode;
mod encode;
mod laws;
mod plan;
mod plan_measures;
mod plan_reading;
mod plan_writing;

pub use command_messages::{Command, SaveTable, WriteOperation};
pub use decode::decode_plan;
pub use encode::encode_plan;
pub use expression_messages::{
    Alias, Cast, CastTarget, Expr, Literal, SortOrder, StructField, TypeMessage,
    UnresolvedAttribute, UnresolvedFunction, UnresolvedStar, decode_type, encode_type,
};
pub use laws::{command_texts_are_kept, plan_levels_agree, plans_are_read_back, plans_are_valid};
pub use plan::Plan;
pub use plan_measures::is_known_plan;
pub use plan_reading::plan_from;
pub use plan_writing::put_plan;
pub use relation_messages::{
    Aggregate, Deduplicate, DropColumns, Filter, Join, Limit, LocalRelation, NamedTable, Offset,
    Project, Range, Read, Relation, RelationCommon, RelationMember, RenameEntry, RenameMap,
    SetOperation, Sort, SubqueryAlias, ToDf, WithColumns, WithColumnsRenamed,
};
