ghost use Rattle.std.specs.Prelude.{◌≡◌, IfOk};
ghost use Rattle.proto_fields.specs.Views.{seen, member_of};
ghost use Rattle.expression_messages.specs.Messages.{message_at};
ghost use Rattle.relation_members.specs.Members as members;

use crate::RelationMember;
use cn_base::OutOfMemory;
use expression_messages::message_records;
use expression_relations::{
    aggregate_over, drop_columns_over, filter_over, join_over, project_over, sort_over,
    with_columns_over,
};
use plain_relations::{
    deduplicate_over, limit_over, offset_over, renamed_over, set_operation_over,
    subquery_alias_over, to_df_over,
};
use proto_fields::{Member, Record};
use relation_parts::{local_relation_from, range_from, read_from};
use std::alloc::Global;

/// How many relations a member of this number stands on: 0, 1 or 2. It takes no memory.
#[tactic(auto, unfolding(crate::specs::Members::input_count))]
pub fn input_count(number: u32) -> u32
    ensures { result ≡ members.input_count number }
{
    match number {
        5 | 6 => 2,
        3 | 4 | 7 | 8 | 9 | 13 | 14 | 16 | 18 | 19 | 21 | 23 => 1,
        _ => 0,
    }
}

/// The member without an input that was set, by its number and records; a number outside the profile stands for itself.
#[tactic(auto, unfolding(crate::specs::Members::leaf_of))]
pub fn leaf_member<R: Drop>(
    alloc: Global,
    member: &Member,
) -> Result<RelationMember<R>, OutOfMemory>
    ensures { IfOk result (λ leaf. leaf
        ≡ members.leaf_of (member_of member.now).number (message_at (member_of member.now).number (member_of member.now).since)) }
{
    match member.number {
        2 => {
            let found = message_records(alloc, member.since, 2)?;
            Ok(RelationMember::Read(read_from(alloc, found.as_slice())?))
        }
        11 => {
            let found = message_records(alloc, member.since, 11)?;
            Ok(RelationMember::LocalRelation(local_relation_from(alloc, found.as_slice())?))
        }
        15 => {
            let found = message_records(alloc, member.since, 15)?;
            Ok(RelationMember::Range(range_from(found.as_slice())))
        }
        number => Ok(RelationMember::Other(number)),
    }
}

/// The member over one input that a message's records hold, with so many levels of nesting for an expression in it. A number of no
/// such member stands for itself.
#[tactic(auto, unfolding(crate::specs::Members::unary_of))]
pub fn unary_member<R: Drop>(
    alloc: Global,
    number: u32,
    items: &[Record],
    input: R,
    level: u32,
) -> Result<RelationMember<R>, OutOfMemory>
    ensures { IfOk result (λ member. member ≡ members.unary_of level number input (seen items.now)) }
{
    match number {
        3 => Ok(RelationMember::Project(project_over(alloc, items, input, level)?)),
        4 => Ok(RelationMember::Filter(filter_over(alloc, items, input, level)?)),
        7 => Ok(RelationMember::Sort(sort_over(alloc, items, input, level)?)),
        8 => Ok(RelationMember::Limit(limit_over(alloc, items, input)?)),
        9 => Ok(RelationMember::Aggregate(aggregate_over(alloc, items, input, level)?)),
        13 => Ok(RelationMember::Offset(offset_over(alloc, items, input)?)),
        14 => Ok(RelationMember::Deduplicate(deduplicate_over(alloc, items, input)?)),
        16 => Ok(RelationMember::SubqueryAlias(subquery_alias_over(alloc, items, input)?)),
        18 => Ok(RelationMember::ToDf(to_df_over(alloc, items, input)?)),
        19 => Ok(RelationMember::WithColumnsRenamed(renamed_over(alloc, items, input)?)),
        21 => Ok(RelationMember::DropColumns(drop_columns_over(alloc, items, input, level)?)),
        23 => Ok(RelationMember::WithColumns(with_columns_over(alloc, items, input, level)?)),
        number => Ok(RelationMember::Other(number)),
    }
}

/// The member over two inputs that a message's records hold, with so many levels of nesting for an expression in it. A number of no
/// such member stands for itself.
#[tactic(auto, unfolding(crate::specs::Members::binary_of))]
pub fn binary_member<R: Drop>(
    alloc: Global,
    number: u32,
    items: &[Record],
    first: R,
    second: R,
    level: u32,
) -> Result<RelationMember<R>, OutOfMemory>
    ensures { IfOk result (λ member. member ≡ members.binary_of level number first second (seen items.now)) }
{
    match number {
        5 => Ok(RelationMember::Join(join_over(alloc, items, first, second, level)?)),
        6 => Ok(RelationMember::SetOperation(set_operation_over(alloc, items, first, second)?)),
        number => Ok(RelationMember::Other(number)),
    }
}
