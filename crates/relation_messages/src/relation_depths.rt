ghost use Rattle.std.specs.Prelude.{◌≡◌, ◌≤◌, ◌+◌, ℕ, max, option_map, unwrap_or, true};
ghost use Rattle.relation_members.specs.Depths.{rest_depth as rest_levels};
ghost use Rattle.expression_messages.specs.Depths.{told};
ghost use Rattle.relation_members.specs.Inputs.{member_number_of, first_of, second_of};
ghost use Rattle.relation_messages.specs.Depths as depths;
ghost use Rattle.relation_messages.specs.Known as known;

use crate::Relation;
use relation_members::{
    RelationCommon, RelationMember, first_input, is_known_rest, member_number, rest_depth,
    second_input,
};

/// How many messages are nested in what all relations have: 1 where it is present, else 0.
fn common_levels(common: &Option<RelationCommon>) -> u32
    ensures exact { result ≡ depths.common_depth common.now }
    ensures few { result ≤ 1 }
{
    match common {
        Some(_) => 1,
        None => 0,
    }
}

/// How many messages are nested in the relation's message, itself among them; 2^32 - 1 where there are more. It takes no memory.
#[cycle(relation_depths)]
pub fn relation_depth(relation: &Relation) -> u32
    ensures { result ≡ told (depths.relation_depth relation.now) }
{
    let common = common_levels(&relation.common);
    let first = first_input_depth(&relation.member);
    let second = second_input_depth(&relation.member);
    let member = depth_over(&relation.member, first, second);
    common.max(member).saturating_add(1)
}

/// How many messages are nested in the member's message, itself among them, over inputs that are so deep; 0 where it is outside the profile.
fn depth_over(member: &RelationMember<Relation>, first: u32, second: u32) -> u32
    ensures { (one other : ℕ) → first ≡ told one → second ≡ told other
        → result ≡ told (unwrap_or
        (option_map (λ number. 1 + max (max one other) (rest_levels member.now)) (member_number_of member.now)) 0) }
{
    match member_number(member) {
        Some(_) => first.max(second).max(rest_depth(member)).saturating_add(1),
        None => 0,
    }
}

/// How many messages are nested in the message of the member's first input; 0 where there is none.
#[cycle(relation_depths)]
fn first_input_depth(member: &RelationMember<Relation>) -> u32
    ensures { result ≡ told (unwrap_or (option_map depths.relation_depth (first_of member.now)) 0) }
{
    match first_input(member) {
        Some(input) => relation_depth(input),
        None => 0,
    }
}

/// How many messages are nested in the message of the member's second input; 0 where there is none.
#[cycle(relation_depths)]
fn second_input_depth(member: &RelationMember<Relation>) -> u32
    ensures { result ≡ told (unwrap_or (option_map depths.relation_depth (second_of member.now)) 0) }
{
    match second_input(member) {
        Some(input) => relation_depth(input),
        None => 0,
    }
}

/// Whether the relation has a spelling: neither it nor a relation, an expression or a type in it is outside the profile. It takes no memory.
#[cycle(known_relations)]
#[tactic(auto, using(crate::proofs::Folds::relation_known))]
pub fn is_known_relation(relation: &Relation) -> bool
    ensures { result ≡ known.is_known_relation relation.now }
{
    is_known_rest(&relation.member)
        && is_known_first(&relation.member)
        && is_known_second(&relation.member)
}

/// Whether the member's first input has a spelling, where there is one.
#[cycle(known_relations)]
fn is_known_first(member: &RelationMember<Relation>) -> bool
    ensures { result ≡ unwrap_or (option_map known.is_known_relation (first_of member.now)) true }
{
    match first_input(member) {
        Some(input) => is_known_relation(input),
        None => true,
    }
}

/// Whether the member's second input has a spelling, where there is one.
#[cycle(known_relations)]
fn is_known_second(member: &RelationMember<Relation>) -> bool
    ensures { result ≡ unwrap_or (option_map known.is_known_relation (second_of member.now)) true }
{
    match second_input(member) {
        Some(input) => is_known_relation(input),
        None => true,
    }
}
