ghost use Rattle.std.specs.Prelude.{◌≡◌, ◌++◌, OnOk};
ghost use Rattle.proto_fields.specs.Sizes.{size_of};
ghost use Rattle.proto_fields.specs.Spelling.{spell};
ghost use Rattle.relation_members.specs.Inputs.{first_of, second_of};
ghost use Rattle.relation_members.specs.Spelled.{input_fields};
ghost use Rattle.relation_messages.specs.Spelled as spelled;

use crate::Relation;
use cn_base::OutOfMemory;
use expression_messages::put_message_head;
use proto_fields::{MessageWriter, message_size};
use relation_members::{
    RelationCommon, RelationMember, first_input, member_number, put_rest, rest_size, second_input,
};
use relation_parts::{common_size, put_common};

/// Puts the field `common` of a relation before what stands, where it is present.
#[tactic(auto, using(expression_messages::proofs::Written::spell_nil))]
fn put_common_field(
    out: &mut MessageWriter,
    common: &Option<RelationCommon>,
) -> Result<(), OutOfMemory>
    ensures { OnOk result (out.new ≡ spell (spelled.common_field common.now) ++ out.old) }
{
    match common {
        Some(present) => {
            let end = out.len();
            put_common(out, present)?;
            put_message_head(out, 1, end)
        }
        None => Ok(()),
    }
}

/// Puts the relation's message before what stands. A relation outside the profile has no member. Where memory runs out, nothing is promised of
/// what stands then.
#[cycle(put_relations)]
#[tactic(auto, using(crate::proofs::Folds::relation_spelled, expression_messages::proofs::Written::spell_nil, expression_messages::proofs::Written::stand_two, expression_messages::proofs::Written::stand_three))]
pub fn put_relation(out: &mut MessageWriter, relation: &Relation) -> Result<(), OutOfMemory>
    ensures { OnOk result (out.new ≡ spell (spelled.relation_fields relation.now) ++ out.old) }
{
    if let Some(number) = member_number(&relation.member) {
        let end = out.len();
        put_rest(out, &relation.member)?;
        put_second_input(out, &relation.member)?;
        put_first_input(out, &relation.member)?;
        put_message_head(out, number, end)?;
    }
    put_common_field(out, &relation.common)
}

/// Puts the member's first input before what stands as the field 1 of its message, where there is one.
#[cycle(put_relations)]
#[tactic(auto, using(expression_messages::proofs::Written::spell_nil))]
fn put_first_input(
    out: &mut MessageWriter,
    member: &RelationMember<Relation>,
) -> Result<(), OutOfMemory>
    ensures { OnOk result (out.new ≡ spell (input_fields spelled.relation_fields 1 (first_of member.now)) ++ out.old) }
{
    match first_input(member) {
        Some(input) => {
            let end = out.len();
            put_relation(out, input)?;
            put_message_head(out, 1, end)
        }
        None => Ok(()),
    }
}

/// Puts the member's second input before what stands as the field 2 of its message, where there is one.
#[cycle(put_relations)]
#[tactic(auto, using(expression_messages::proofs::Written::spell_nil))]
fn put_second_input(
    out: &mut MessageWriter,
    member: &RelationMember<Relation>,
) -> Result<(), OutOfMemory>
    ensures { OnOk result (out.new ≡ spell (input_fields spelled.relation_fields 2 (second_of member.now)) ++ out.old) }
{
    match second_input(member) {
        Some(input) => {
            let end = out.len();
            put_relation(out, input)?;
            put_message_head(out, 2, end)
        }
        None => Ok(()),
    }
}

/// How many bytes the field `common` of a relation takes.
#[tactic(auto, using(expression_messages::proofs::Measured::size_of_nil))]
fn common_field_size(common: &Option<RelationCommon>) -> u64
    ensures { result ≡ size_of (spelled.common_field common.now) }
{
    match common {
        Some(present) => message_size(1, common_size(present)),
        None => 0,
    }
}

/// How many bytes the relation's message takes; 2^64 - 1 where it is above that. It takes no memory.
#[cycle(relation_sizes)]
#[tactic(auto, using(crate::proofs::Folds::relation_spelled, expression_messages::proofs::Measured::size_of_nil, expression_messages::proofs::Measured::sized_two, expression_messages::proofs::Measured::sized_three))]
pub fn relation_size(relation: &Relation) -> u64
    ensures { result ≡ size_of (spelled.relation_fields relation.now) }
{
    let common = common_field_size(&relation.common);
    match member_number(&relation.member) {
        Some(number) => {
            let first = first_input_size(&relation.member);
            let second = second_input_size(&relation.member);
            let rest = rest_size(&relation.member);
            let size = first.saturating_add(second).saturating_add(rest);
            common.saturating_add(message_size(number, size))
        }
        None => common,
    }
}

/// How many bytes the member's first input takes as the field 1 of its message, where there is one.
#[cycle(relation_sizes)]
#[tactic(auto, using(expression_messages::proofs::Measured::size_of_nil))]
fn first_input_size(member: &RelationMember<Relation>) -> u64
    ensures { result ≡ size_of (input_fields spelled.relation_fields 1 (first_of member.now)) }
{
    match first_input(member) {
        Some(input) => message_size(1, relation_size(input)),
        None => 0,
    }
}

/// How many bytes the member's second input takes as the field 2 of its message, where there is one.
#[cycle(relation_sizes)]
#[tactic(auto, using(expression_messages::proofs::Measured::size_of_nil))]
fn second_input_size(member: &RelationMember<Relation>) -> u64
    ensures { result ≡ size_of (input_fields spelled.relation_fields 2 (second_of member.now)) }
{
    match second_input(member) {
        Some(input) => message_size(2, relation_size(input)),
        None => 0,
    }
}
