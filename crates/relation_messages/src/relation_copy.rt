ghost use Rattle.std.specs.Prelude.{◌≡◌, Some, IfOk};
ghost use Rattle.relation_members.specs.Inputs.{first_of, second_of};
ghost use Rattle.relation_messages.specs.declared.relation.Relation.TheViews.{out-Relation};

use crate::Relation;
use cn_base::{Copied, OutOfMemory};
use relation_members::{RelationMember, first_input, member_like, second_input};
use std::alloc::Global;

impl Copied for Relation {
    fn copy(&self, alloc: Global) -> Result<Relation, OutOfMemory> {
        copy_relation(alloc, self)
    }
}

/// A copy, which equals the relation.
#[cycle(relation_copies)]
#[tactic(auto, using(relation_members::proofs::OverInputs::over_itself))]
fn copy_relation(alloc: Global, relation: &Relation) -> Result<Relation, OutOfMemory>
    ensures { IfOk result (λ copied. copied ≡ relation.now) }
{
    let first = copy_first(alloc, &relation.member)?;
    let second = copy_second(alloc, &relation.member)?;
    let member = member_like(alloc, &relation.member, first, second)?;
    Ok(with_member(relation, member))
}

/// A copy of the member's first input, which equals it, where there is one.
#[cycle(relation_copies)]
fn copy_first(
    alloc: Global,
    member: &RelationMember<Relation>,
) -> Result<Option<Relation>, OutOfMemory>
    ensures { IfOk result (λ copied. copied ≡ first_of member.now) }
{
    match first_input(member) {
        Some(input) => Ok(Some(copy_relation(alloc, input)?)),
        None => Ok(None),
    }
}

/// A copy of the member's second input, which equals it, where there is one.
#[cycle(relation_copies)]
fn copy_second(
    alloc: Global,
    member: &RelationMember<Relation>,
) -> Result<Option<Relation>, OutOfMemory>
    ensures { IfOk result (λ copied. copied ≡ second_of member.now) }
{
    match second_input(member) {
        Some(input) => Ok(Some(copy_relation(alloc, input)?)),
        None => Ok(None),
    }
}

/// The relation with this member, which is its own.
#[tactic(auto, using(crate::proofs::Folds::rolled))]
fn with_member(relation: &Relation, member: Option<RelationMember<Relation>>) -> Relation
    requires { member ≡ Some (out-Relation relation.now).member }
    ensures { result ≡ relation.now }
{
    match member {
        Some(member) => Relation {
            common: relation.common,
            member,
        },
        None => unreachable!(),
    }
}
