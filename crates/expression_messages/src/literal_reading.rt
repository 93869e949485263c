ghost use Rattle.std.specs.Prelude.{◌≡◌, IfOk};
ghost use Rattle.proto_fields.specs.Views.{seen, member_of};
ghost use Rattle.expression_messages.specs.Types.{type_at};
ghost use Rattle.expression_messages.specs.Expressions as expressions;

use crate::message::message_records;
use crate::type_reading::type_from;
use crate::{CastTarget, Literal};
use cn_base::OutOfMemory;
use proto_fields::{
    Member, MessageKind, Record, bool_field, int32_field, int64_field, latest, text_field,
};
use std::alloc::Global;

/// The literal that a member of its oneof is, with so many levels for a type in it.
fn literal_of_member(alloc: Global, member: &Member, level: u32) -> Result<Literal, OutOfMemory>
    ensures { IfOk result
        (λ literal. literal ≡ expressions.literal_member (type_at level) (member_of member.now)) }
{
    match member.number {
        1 => {
            let found = message_records(alloc, member.since, 1)?;
            Ok(Literal::Null(type_from(alloc, found.as_slice(), level)?))
        }
        3 => Ok(Literal::Boolean(bool_field(member.since, 3))),
        6 => Ok(Literal::Integer(int32_field(member.since, 6))),
        7 => Ok(Literal::Long(int64_field(member.since, 7))),
        13 => Ok(Literal::String(text_field(alloc, member.since, 13)?)),
        _ => Ok(Literal::Date(int32_field(member.since, 16))),
    }
}

/// The literal that a message's records hold, with so many levels for a type in it.
pub(crate) fn literal_from(
    alloc: Global,
    items: &[Record],
    level: u32,
) -> Result<Literal, OutOfMemory>
    ensures { IfOk result
        (λ literal. literal ≡ expressions.literal_of (type_at level) (seen items.now)) }
{
    match latest(MessageKind::Literal, items) {
        Some(member) => literal_of_member(alloc, &member, level),
        None => Ok(Literal::Absent),
    }
}

/// The target that a member of a cast's oneof is, with so many levels for a type.
fn target_of_member(alloc: Global, member: &Member, level: u32) -> Result<CastTarget, OutOfMemory>
    ensures { IfOk result
        (λ target. target ≡ expressions.target_member (type_at level) (member_of member.now)) }
{
    if member.number == 2 {
        let found = message_records(alloc, member.since, 2)?;
        Ok(CastTarget::Kind(type_from(alloc, found.as_slice(), level)?))
    } else {
        Ok(CastTarget::KindText(text_field(alloc, member.since, 3)?))
    }
}

/// The target that a cast's records hold, with so many levels for a type.
pub(crate) fn target_from(
    alloc: Global,
    items: &[Record],
    level: u32,
) -> Result<CastTarget, OutOfMemory>
    ensures { IfOk result
        (λ target. target ≡ expressions.target_of (type_at level) (seen items.now)) }
{
    match latest(MessageKind::Cast, items) {
        Some(member) => target_of_member(alloc, &member, level),
        None => Ok(CastTarget::Absent),
    }
}
