ghost use Rattle.std.specs.Prelude.{◌≡◌, ◌≢◌, IfOk};
ghost use Rattle.proto_fields.specs.Readings as read;
ghost use Rattle.proto_fields.specs.Views.{seen, member_of};
ghost use Rattle.expression_messages.specs.Messages.{messages_at};
ghost use Rattle.expression_messages.specs.Types.{type_at};
ghost use Rattle.expression_messages.specs.Expressions as expressions;

use crate::literal_reading::{literal_from, target_from};
use crate::message::message_records;
use crate::{
    Alias, Cast, Expr, SortOrder, UnresolvedAttribute, UnresolvedFunction, UnresolvedStar,
};
use cn_base::{Boxed, List, OutOfMemory};
use proto_fields::{
    Member, MessageKind, Record, bool_field, int32_field, latest, optional_int64, optional_text,
    payloads, records, text_field, texts,
};
use std::alloc::Global;

/// The column that a message's records name.
fn attribute_from(alloc: Global, items: &[Record]) -> Result<UnresolvedAttribute, OutOfMemory>
    ensures { IfOk result (λ attribute. attribute ≡ expressions.attribute_of (seen items.now)) }
{
    Ok(UnresolvedAttribute {
        unparsed_identifier: text_field(alloc, items, 1)?,
        plan_id: optional_int64(items, 2),
    })
}

/// The star that a message's records hold.
fn star_from(alloc: Global, items: &[Record]) -> Result<UnresolvedStar, OutOfMemory>
    ensures { IfOk result (λ star. star ≡ expressions.star_of (seen items.now)) }
{
    Ok(UnresolvedStar {
        unparsed_target: optional_text(alloc, items, 1)?,
    })
}

/// The expression that a message's records hold, with so many levels of nesting at most, its own among them. Where no level is left, and
/// where no expression is there, it is `Other(0)`.
#[cycle(expressions)]
pub fn expr_from(alloc: Global, items: &[Record], level: u32) -> Result<Expr, OutOfMemory>
    ensures { IfOk result (λ expr. expr ≡ expressions.expr_at level (seen items.now)) }
{
    if level == 0 {
        return Ok(Expr::Other(0));
    }
    // Lent again: in a cycle of calls the proof takes a parameter at its own lifetime alone.
    match latest(MessageKind::Expression, &*items) {
        Some(member) => expr_of_member(alloc, &member, level.saturating_sub(2)),
        None => Ok(Expr::Other(0)),
    }
}

/// The expression that a member of its oneof is, with so many levels for a type and an expression in it.
#[cycle(expressions)]
fn expr_of_member(alloc: Global, member: &Member, level: u32) -> Result<Expr, OutOfMemory>
    ensures { IfOk result (λ expr. expr
        ≡ expressions.expr_member (type_at level) (expressions.expr_at level) (member_of member.now)) }
{
    match member.number {
        3 => {
            let found = message_records(alloc, member.since, 3)?;
            let arguments = exprs_from(alloc, found.as_slice(), 2, level)?;
            Ok(Expr::UnresolvedFunction(function_over(alloc, found.as_slice(), arguments)?))
        }
        6 => {
            let found = message_records(alloc, member.since, 6)?;
            let inner = message_records(alloc, found.as_slice(), 1)?;
            let expr = expr_from(alloc, inner.as_slice(), level)?;
            Ok(Expr::Alias(alias_over(alloc, found.as_slice(), expr)?))
        }
        7 => {
            let found = message_records(alloc, member.since, 7)?;
            let inner = message_records(alloc, found.as_slice(), 1)?;
            let expr = expr_from(alloc, inner.as_slice(), level)?;
            Ok(Expr::Cast(cast_over(alloc, found.as_slice(), expr, level)?))
        }
        9 => {
            let found = message_records(alloc, member.since, 9)?;
            let inner = message_records(alloc, found.as_slice(), 1)?;
            let child = expr_from(alloc, inner.as_slice(), level)?;
            Ok(Expr::SortOrder(sort_order_over(alloc, found.as_slice(), child)?))
        }
        _ => leaf_of_member(alloc, member, level),
    }
}

/// The expressions of a repeated field of this number, with so many levels of nesting for each.
#[cycle(expressions)]
pub fn exprs_from(
    alloc: Global,
    items: &[Record],
    number: u32,
    level: u32,
) -> Result<List<Expr>, OutOfMemory>
    ensures { IfOk result
        (λ exprs. exprs ≡ messages_at (expressions.expr_at level) number (seen items.now)) }
{
    let mut exprs = List::new(alloc);
    for payload in payloads(alloc, items, number)?.as_slice() {
        let found = records(alloc, *payload)?;
        exprs.push(expr_from(alloc, found.as_slice(), level)?)?;
    }
    Ok(exprs)
}

/// The expression that holds no expression and that a member of its oneof is; a number outside the profile stands for itself.
fn leaf_of_member(alloc: Global, member: &Member, level: u32) -> Result<Expr, OutOfMemory>
    requires function { member.now.number ≢ 3 }
    requires alias { member.now.number ≢ 6 }
    requires cast { member.now.number ≢ 7 }
    requires sort_order { member.now.number ≢ 9 }
    ensures { IfOk result (λ expr. expr
        ≡ expressions.expr_member (type_at level) (expressions.expr_at level) (member_of member.now)) }
{
    match member.number {
        1 => {
            let found = message_records(alloc, member.since, 1)?;
            Ok(Expr::Literal(literal_from(alloc, found.as_slice(), level)?))
        }
        2 => {
            let found = message_records(alloc, member.since, 2)?;
            Ok(Expr::UnresolvedAttribute(attribute_from(alloc, found.as_slice())?))
        }
        5 => {
            let found = message_records(alloc, member.since, 5)?;
            Ok(Expr::UnresolvedStar(star_from(alloc, found.as_slice())?))
        }
        number => Ok(Expr::Other(number)),
    }
}

/// The call of a function with these arguments that a message's records hold.
fn function_over(
    alloc: Global,
    items: &[Record],
    arguments: List<Expr>,
) -> Result<UnresolvedFunction, OutOfMemory>
    ensures { IfOk result (λ function. function ≡ record {
      function_name = read.text_field 1 (seen items.now);
      arguments = arguments;
      is_distinct = read.bool_field 3 (seen items.now);
    }) }
{
    Ok(UnresolvedFunction {
        function_name: text_field(alloc, items, 1)?,
        arguments,
        is_distinct: bool_field(items, 3),
    })
}

/// The alias of this expression that a message's records hold.
fn alias_over(alloc: Global, items: &[Record], expr: Expr) -> Result<Alias, OutOfMemory>
    ensures { IfOk result
        (λ alias. alias ≡ record { expr = expr; name = read.texts 2 (seen items.now) }) }
{
    Ok(Alias {
        expr: Boxed::new(alloc, expr)?,
        name: texts(alloc, items, 2)?,
    })
}

/// The cast of this expression that a message's records hold, with so many levels for a type.
fn cast_over(alloc: Global, items: &[Record], expr: Expr, level: u32) -> Result<Cast, OutOfMemory>
    ensures { IfOk result (λ cast. cast
        ≡ record { expr = expr; target = expressions.target_of (type_at level) (seen items.now) }) }
{
    Ok(Cast {
        expr: Boxed::new(alloc, expr)?,
        target: target_from(alloc, items, level)?,
    })
}

/// The sort order of this expression that a message's records hold.
fn sort_order_over(alloc: Global, items: &[Record], child: Expr) -> Result<SortOrder, OutOfMemory>
    ensures { IfOk result (λ order. order ≡ record {
      child = child;
      direction = read.int32_field 2 (seen items.now);
      null_ordering = read.int32_field 3 (seen items.now);
    }) }
{
    Ok(SortOrder {
        child: Boxed::new(alloc, child)?,
        direction: int32_field(items, 2),
        null_ordering: int32_field(items, 3),
    })
}

/// The alias that a message's records hold, with so many levels of nesting at most, its own among them.
pub fn alias_from(alloc: Global, items: &[Record], level: u32) -> Result<Alias, OutOfMemory>
    ensures { IfOk result (λ alias. alias ≡ expressions.alias_at level (seen items.now)) }
{
    let inner = message_records(alloc, items, 1)?;
    let expr = expr_from(alloc, inner.as_slice(), level.saturating_sub(1))?;
    alias_over(alloc, items, expr)
}

/// The sort order that a message's records hold, with so many levels of nesting at most, its own among them.
pub fn sort_order_from(
    alloc: Global,
    items: &[Record],
    level: u32,
) -> Result<SortOrder, OutOfMemory>
    ensures { IfOk result (λ order. order ≡ expressions.sort_order_at level (seen items.now)) }
{
    let inner = message_records(alloc, items, 1)?;
    let child = expr_from(alloc, inner.as_slice(), level.saturating_sub(1))?;
    sort_order_over(alloc, items, child)
}
