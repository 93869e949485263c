ghost use Rattle.std.specs.Prelude.{◌≡◌, IfOk};
ghost use Rattle.proto_fields.specs.Views.{seen, member_of};
ghost use Rattle.command_messages.specs.Commands.{command_member, command_of};
ghost use Rattle.relation_messages.specs.Relations.{relation_at};
ghost use Rattle.plan_messages.specs.Plans as plans;

use crate::Plan;
use cn_base::OutOfMemory;
use command_messages::{Command, write_operation_over};
use expression_messages::message_records;
use proto_fields::{Member, MessageKind, Record, latest};
use relation_messages::{Relation, RelationMember, relation_from};
use std::alloc::Global;

/// The command that a member of its oneof is, with so many levels of nesting for a relation in it.
fn command_of_member(
    alloc: Global,
    member: &Member,
    level: u32,
) -> Result<Command<Relation>, OutOfMemory>
    ensures { IfOk result (λ command. command ≡ command_member (relation_at level) (member_of member.now)) }
{
    if member.number == 2 {
        let found = message_records(alloc, member.since, 2)?;
        let inner = message_records(alloc, found.as_slice(), 1)?;
        let input = relation_from(alloc, inner.as_slice(), level)?;
        Ok(Command::WriteOperation(write_operation_over(alloc, found.as_slice(), input)?))
    } else {
        Ok(Command::Other(member.number))
    }
}

/// The command that a message's records hold, with so many levels of nesting for a relation in it.
fn command_from(
    alloc: Global,
    items: &[Record],
    level: u32,
) -> Result<Command<Relation>, OutOfMemory>
    ensures { IfOk result (λ command. command ≡ command_of (relation_at level) (seen items.now)) }
{
    match latest(MessageKind::Command, items) {
        Some(member) => command_of_member(alloc, &member, level),
        None => Ok(Command::Other(0)),
    }
}

/// The plan that a member of its oneof is, in a plan of so many levels of nesting at most.
fn plan_of_member(alloc: Global, member: &Member, level: u32) -> Result<Plan, OutOfMemory>
    ensures { IfOk result (λ plan. plan ≡ plans.plan_member level (member_of member.now)) }
{
    if member.number == 1 {
        let found = message_records(alloc, member.since, 1)?;
        Ok(Plan::Root(relation_from(alloc, found.as_slice(), level.saturating_sub(1))?))
    } else {
        let found = message_records(alloc, member.since, 2)?;
        Ok(Plan::Command(command_from(alloc, found.as_slice(), level.saturating_sub(3))?))
    }
}

/// The plan that a message's records hold, with so many levels of nesting at most, its own among them.
pub fn plan_from(alloc: Global, items: &[Record], level: u32) -> Result<Plan, OutOfMemory>
    ensures { IfOk result (λ plan. plan ≡ plans.plan_at level (seen items.now)) }
{
    match latest(MessageKind::Plan, items) {
        Some(member) => plan_of_member(alloc, &member, level),
        None => Ok(Plan::Root(Relation {
            common: None,
            member: RelationMember::Other(0),
        })),
    }
}
