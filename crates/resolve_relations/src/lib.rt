//! Relations with their columns: a rule for each kind, from its inputs' answers to its own.
#![tactic(auto)]

mod adding;
mod aggregating;
mod dropping;
mod found;
mod keeping;
mod leaves;
mod limits;
mod made;
mod naming;
mod options;
mod projecting;
mod testing;
#[cfg(test)]
mod tests;

pub use adding::{column_item, with_columns};
pub use aggregating::{aggregate, project};
pub use dropping::{Meant, drop_columns};
pub use found::{Found, FoundOf};
pub use keeping::{deduplicate, limit, offset, plain_place, short_place, subquery_alias};
pub use leaves::{range, read, table_name};
pub use limits::{column_limit, number_stop, signed_stop, within_limits};
pub use made::{exprs_of, fresh_column, id_at, made_columns};
pub use naming::{renamed, to_df};
pub use options::bad_option;
pub use projecting::projection;
pub use testing::{filter, sort};
