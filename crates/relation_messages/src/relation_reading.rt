ghost use Rattle.std.specs.Prelude.{◌≡◌, option_map, unwrap_or, IfOk};
ghost use Rattle.proto_fields.specs.Readings as read;
ghost use Rattle.proto_fields.specs.Views.{seen, member_of};
ghost use Rattle.expression_messages.specs.Messages.{message_at};
ghost use Rattle.relation_members.specs.Members.{member_at};
ghost use Rattle.relation_parts.specs.Parts.{common_of};
ghost use Rattle.relation_messages.specs.Relations as relations;

use crate::Relation;
use cn_base::OutOfMemory;
use expression_messages::message_records;
use proto_fields::{Member, MessageKind, Record, latest, merged};
use relation_members::{
    RelationCommon, RelationMember, binary_member, input_count, leaf_member, unary_member,
};
use relation_parts::common_from;
use std::alloc::Global;

/// What the records of a relation say of every relation, the field `common`; `None` where it is absent.
fn common_in(alloc: Global, items: &[Record]) -> Result<Option<RelationCommon>, OutOfMemory>
    ensures { IfOk result (λ common. common ≡ option_map common_of (read.merged 1 (seen items.now))) }
{
    match merged(alloc, items, 1)? {
        Some(found) => Ok(Some(common_from(found.as_slice()))),
        None => Ok(None),
    }
}

/// The relation that a message's records hold, with so many levels of nesting at most, its own among them. Where no level is left it has
/// nothing in common and is `Other(0)`, and so is a relation without a member.
#[cycle(relations)]
#[tactic(auto, using(crate::proofs::Levels::relation_at_zero, crate::proofs::Levels::relation_at_none, crate::proofs::Levels::relation_at_some))]
pub fn relation_from(alloc: Global, items: &[Record], level: u32) -> Result<Relation, OutOfMemory>
    ensures { IfOk result (λ relation. relation ≡ relations.relation_at level (seen items.now)) }
{
    if level == 0 {
        return Ok(Relation {
            common: None,
            member: RelationMember::Other(0),
        });
    }
    let common = common_in(alloc, &*items)?;
    match latest(MessageKind::Relation, &*items) {
        Some(member) => Ok(Relation {
            common,
            member: member_from(alloc, &member, level.saturating_sub(2))?,
        }),
        None => Ok(Relation {
            common,
            member: RelationMember::Other(0),
        }),
    }
}

/// What the member of a relation's oneof is, with so many levels for each relation and each expression in it.
#[cycle(relations)]
#[tactic(auto, unfolding(relation_members::specs::Members::relation_member_of))]
fn member_from(
    alloc: Global,
    member: &Member,
    level: u32,
) -> Result<RelationMember<Relation>, OutOfMemory>
    ensures { IfOk result (λ read. read ≡ member_at (relations.relation_at level) level (member_of member.now)) }
{
    match input_count(member.number) {
        2 => {
            let found = message_records(alloc, member.since, member.number)?;
            let first = input_from(alloc, found.as_slice(), 1, level)?;
            let second = input_from(alloc, found.as_slice(), 2, level)?;
            binary_member(alloc, member.number, found.as_slice(), first, second, level)
        }
        1 => {
            let found = message_records(alloc, member.since, member.number)?;
            let input = input_from(alloc, found.as_slice(), 1, level)?;
            unary_member(alloc, member.number, found.as_slice(), input, level)
        }
        _ => leaf_member(alloc, &*member),
    }
}

/// The relation in the field of this number, with so many levels of nesting at most.
#[cycle(relations)]
fn input_from(
    alloc: Global,
    items: &[Record],
    number: u32,
    level: u32,
) -> Result<Relation, OutOfMemory>
    ensures { IfOk result (λ input. input ≡ relations.relation_at level (message_at number (seen items.now))) }
{
    let found = message_records(alloc, &*items, number)?;
    relation_from(alloc, found.as_slice(), level)
}
