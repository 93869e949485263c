ghost use Rattle.std.specs.Prelude.{◌≡◌, ◌≤◌, ◌++◌, IfOk, OnOk, map};
ghost use Rattle.std.specs.List.{list_all};
ghost use Rattle.proto_fields.specs.Sizes.{size_of};
ghost use Rattle.proto_fields.specs.Spelling.{spell};
ghost use Rattle.proto_fields.specs.Views.{seen};
ghost use Rattle.expression_messages.specs.Depths as depths;
ghost use Rattle.expression_messages.specs.Expressions as expressions;
ghost use Rattle.expression_messages.specs.Known as known;
ghost use Rattle.expression_messages.specs.Messages.{messages_at, messages_fields};
ghost use Rattle.expression_messages.specs.Spelled as spelled;

use cn_base::{List, OutOfMemory};
use expression_messages::{
    SortOrder, is_known_expr, put_message_head, put_sort_order, sort_order_depth, sort_order_from,
    sort_order_size,
};
use proto_fields::{MessageWriter, Record, message_size, payloads, records};
use std::alloc::Global;

/// The sort orders of a repeated field of this number, with so many levels of nesting for each.
pub fn sort_orders_from(
    alloc: Global,
    items: &[Record],
    number: u32,
    level: u32,
) -> Result<List<SortOrder>, OutOfMemory>
    ensures { IfOk result
        (λ orders. orders ≡ messages_at (expressions.sort_order_at level) number (seen items.now)) }
{
    let mut orders = List::new(alloc);
    for payload in payloads(alloc, items, number)?.as_slice() {
        let found = records(alloc, *payload)?;
        orders.push(sort_order_from(alloc, found.as_slice(), level)?)?;
    }
    Ok(orders)
}

/// Puts the sort orders of a repeated field of this number before what stands. Where memory runs out, nothing is promised of what stands then.
pub fn put_sort_orders(
    out: &mut MessageWriter,
    number: u32,
    orders: &[SortOrder],
) -> Result<(), OutOfMemory>
    requires low { 1 ≤ number }
    requires high { number ≤ 536870911 }
    ensures { OnOk result (out.new
        ≡ spell (messages_fields spelled.sort_order_fields number orders.now) ++ out.old) }
{
    for index in (0..orders.len()).rev() {
        let end = out.len();
        put_sort_order(out, &orders[index])?;
        put_message_head(out, number, end)?;
    }
    Ok(())
}

/// How many bytes the sort orders of a repeated field of this number take; 2^64 - 1 where it is above that. It takes no memory.
pub fn sort_orders_size(number: u32, orders: &[SortOrder]) -> u64
    requires low { 1 ≤ number }
    requires high { number ≤ 536870911 }
    ensures { result ≡ size_of (messages_fields spelled.sort_order_fields number orders.now) }
{
    let mut total = 0u64;
    for order in orders {
        total = total.saturating_add(message_size(number, sort_order_size(order)));
    }
    total
}

/// How deep the deepest of these sort orders is; 0 where there is none, 2^32 - 1 where it is above that. It takes no memory.
pub fn deepest_sort_order(orders: &[SortOrder]) -> u32
    ensures { result ≡ depths.told (depths.largest (map depths.sort_order_depth orders.now)) }
{
    let mut deepest = 0u32;
    for order in orders {
        deepest = deepest.max(sort_order_depth(order));
    }
    deepest
}

/// Whether the expressions of all of these sort orders have a spelling. It takes no memory.
pub fn are_known_sort_orders(orders: &[SortOrder]) -> bool
    ensures { result ≡ list_all (λ order. known.is_known_expr order.child) orders.now }
{
    for order in orders {
        if !is_known_expr(order.child.get()) {
            return false;
        }
    }
    true
}
