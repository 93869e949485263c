//! Data types, literals and expressions as messages: read of their fields exactly, and written in one spelling.
#![tactic(auto)]

mod data_type;
mod decode;
mod encode;
mod expression;
mod expression_copy;
mod expression_depths;
mod expression_reading;
mod expression_sizes;
mod expression_writing;
mod known;
mod laws;
mod literal;
mod literal_reading;
mod literal_writing;
mod message;
mod texts;
mod type_depths;
mod type_reading;
mod type_sizes;
mod type_writing;

pub use data_type::{StructField, TypeMessage};
pub use decode::decode_type;
pub use encode::encode_type;
pub use expression::{
    Alias, Cast, CastTarget, Expr, SortOrder, UnresolvedAttribute, UnresolvedFunction,
    UnresolvedStar,
};
pub use expression_depths::{alias_depth, deepest, expr_depth, sort_order_depth};
pub use expression_reading::{alias_from, expr_from, exprs_from, sort_order_from};
pub use expression_sizes::{alias_size, expr_size, exprs_size, sort_order_size};
pub use expression_writing::{put_alias, put_expr, put_exprs, put_sort_order};
pub use known::{are_known, is_known_expr, is_known_type};
pub use laws::{
    aliases_are_read_back, expr_texts_are_kept, exprs_are_read_back, exprs_are_valid, levels_agree,
    sort_orders_are_read_back, types_are_read_back,
};
pub use literal::Literal;
pub use message::{message_records, put_message_head};
pub use texts::{put_texts, texts_size};
pub use type_depths::type_depth;
pub use type_reading::type_from;
pub use type_sizes::type_size;
pub use type_writing::put_type;
