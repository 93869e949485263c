//! Relations over others that hold expressions, as messages: read of their fields exactly, and written in one spelling. What a relation's
//! inputs are is left open: `R` is a relation, or what stands for one.
#![tactic(auto)]

mod aggregate;
mod aggregate_writing;
mod aliases;
mod drop_columns;
mod drop_columns_writing;
mod filter;
mod filter_writing;
mod join;
mod join_writing;
mod project;
mod project_writing;
mod sort;
mod sort_orders;
mod sort_writing;
mod with_columns;
mod with_columns_writing;

pub use aggregate::{
    Aggregate, aggregate_like, aggregate_over, aggregate_rest_depth, is_known_aggregate,
};
pub use aggregate_writing::{aggregate_rest_size, put_aggregate_rest};
pub use drop_columns::{
    DropColumns, drop_columns_like, drop_columns_over, drop_columns_rest_depth,
    is_known_drop_columns,
};
pub use drop_columns_writing::{drop_columns_rest_size, put_drop_columns_rest};
pub use filter::{Filter, filter_like, filter_over, filter_rest_depth, is_known_filter};
pub use filter_writing::{filter_rest_size, put_filter_rest};
pub use join::{Join, is_known_join, join_like, join_over, join_rest_depth};
pub use join_writing::{join_rest_size, put_join_rest};
pub use project::{Project, is_known_project, project_like, project_over, project_rest_depth};
pub use project_writing::{project_rest_size, put_project_rest};
pub use sort::{Sort, is_known_sort, sort_like, sort_over, sort_rest_depth};
pub use sort_writing::{put_sort_rest, sort_rest_size};
pub use with_columns::{
    WithColumns, is_known_with_columns, with_columns_like, with_columns_over,
    with_columns_rest_depth,
};
pub use with_columns_writing::{put_with_columns_rest, with_columns_rest_size};

#[cfg(test)]
mod tests;
