ghost use Rattle.std.specs.Prelude.{◌≡◌, Some, None, IfOk};
ghost use Rattle.relation_members.specs.Copies.{member_over};

use crate::RelationMember;
use cn_base::{Copied, OutOfMemory};
use expression_relations::{
    aggregate_like, drop_columns_like, filter_like, join_like, project_like, sort_like,
    with_columns_like,
};
use plain_relations::{
    deduplicate_like, limit_like, offset_like, renamed_like, set_operation_like,
    subquery_alias_like, to_df_like,
};
use std::alloc::Global;

/// A copy of a member without an input; `None` where it has one.
fn leaf_like<R, S: Drop>(
    alloc: Global,
    member: &RelationMember<R>,
) -> Result<Option<RelationMember<S>>, OutOfMemory>
    ensures { IfOk result (λ copied. copied ≡ member_over None None member.now) }
{
    match member {
        RelationMember::Read(it) => Ok(Some(RelationMember::Read(it.copy(alloc)?))),
        RelationMember::LocalRelation(it) => Ok(Some(RelationMember::LocalRelation(it.copy(
            alloc,
        )?))),
        RelationMember::Range(it) => Ok(Some(RelationMember::Range(*it))),
        RelationMember::Other(number) => Ok(Some(RelationMember::Other(*number))),
        RelationMember::Project(_)
        | RelationMember::Filter(_)
        | RelationMember::Sort(_)
        | RelationMember::Limit(_)
        | RelationMember::Aggregate(_)
        | RelationMember::Offset(_)
        | RelationMember::Deduplicate(_)
        | RelationMember::SubqueryAlias(_)
        | RelationMember::ToDf(_)
        | RelationMember::WithColumnsRenamed(_)
        | RelationMember::DropColumns(_)
        | RelationMember::WithColumns(_)
        | RelationMember::Join(_)
        | RelationMember::SetOperation(_) => Ok(None),
    }
}

/// A copy of a member of one input over this one; `None` where it has two.
fn unary_like<R, S: Drop>(
    alloc: Global,
    member: &RelationMember<R>,
    input: S,
) -> Result<Option<RelationMember<S>>, OutOfMemory>
    ensures { IfOk result (λ copied. copied ≡ member_over (Some input) None member.now) }
{
    match member {
        RelationMember::Project(it) => Ok(Some(RelationMember::Project(project_like(
            alloc, it, input,
        )?))),
        RelationMember::Filter(it) => Ok(Some(RelationMember::Filter(filter_like(
            alloc, it, input,
        )?))),
        RelationMember::Sort(it) => Ok(Some(RelationMember::Sort(sort_like(alloc, it, input)?))),
        RelationMember::Limit(it) => Ok(Some(RelationMember::Limit(limit_like(alloc, it, input)?))),
        RelationMember::Aggregate(it) => Ok(Some(RelationMember::Aggregate(aggregate_like(
            alloc, it, input,
        )?))),
        RelationMember::Offset(it) => Ok(Some(RelationMember::Offset(offset_like(
            alloc, it, input,
        )?))),
        RelationMember::Deduplicate(it) => Ok(Some(RelationMember::Deduplicate(deduplicate_like(
            alloc, it, input,
        )?))),
        RelationMember::SubqueryAlias(it) => Ok(Some(RelationMember::SubqueryAlias(
            subquery_alias_like(alloc, it, input)?,
        ))),
        RelationMember::ToDf(it) => Ok(Some(RelationMember::ToDf(to_df_like(alloc, it, input)?))),
        RelationMember::WithColumnsRenamed(it) => Ok(Some(RelationMember::WithColumnsRenamed(
            renamed_like(alloc, it, input)?,
        ))),
        RelationMember::DropColumns(it) => Ok(Some(RelationMember::DropColumns(drop_columns_like(
            alloc, it, input,
        )?))),
        RelationMember::WithColumns(it) => Ok(Some(RelationMember::WithColumns(with_columns_like(
            alloc, it, input,
        )?))),
        RelationMember::Read(_)
        | RelationMember::LocalRelation(_)
        | RelationMember::Range(_)
        | RelationMember::Other(_) => leaf_like(alloc, member),
        RelationMember::Join(_) | RelationMember::SetOperation(_) => Ok(None),
    }
}

/// A copy of a member of two inputs over these; of one of fewer over the first, or without.
fn binary_like<R, S: Drop>(
    alloc: Global,
    member: &RelationMember<R>,
    first: S,
    second: S,
) -> Result<Option<RelationMember<S>>, OutOfMemory>
    ensures { IfOk result (λ copied. copied ≡ member_over (Some first) (Some second) member.now) }
{
    match member {
        RelationMember::Join(it) => Ok(Some(RelationMember::Join(join_like(
            alloc, it, first, second,
        )?))),
        RelationMember::SetOperation(it) => {
            Ok(Some(RelationMember::SetOperation(set_operation_like(alloc, it, first, second)?)))
        }
        RelationMember::Project(_)
        | RelationMember::Filter(_)
        | RelationMember::Sort(_)
        | RelationMember::Limit(_)
        | RelationMember::Aggregate(_)
        | RelationMember::Offset(_)
        | RelationMember::Deduplicate(_)
        | RelationMember::SubqueryAlias(_)
        | RelationMember::ToDf(_)
        | RelationMember::WithColumnsRenamed(_)
        | RelationMember::DropColumns(_)
        | RelationMember::WithColumns(_)
        | RelationMember::Read(_)
        | RelationMember::LocalRelation(_)
        | RelationMember::Range(_)
        | RelationMember::Other(_) => unary_like(alloc, member, first),
    }
}

/// A copy of the member over these inputs, the first where it has one and the second where it has two; `None` where one lacks.
#[tactic(auto, using(crate::proofs::OverInputs::over_nothing))]
pub fn member_like<R, S: Drop>(
    alloc: Global,
    member: &RelationMember<R>,
    first: Option<S>,
    second: Option<S>,
) -> Result<Option<RelationMember<S>>, OutOfMemory>
    ensures { IfOk result (λ copied. copied ≡ member_over first second member.now) }
{
    match first {
        None => leaf_like(alloc, member),
        Some(first) => match second {
            None => unary_like(alloc, member, first),
            Some(second) => binary_like(alloc, member, first, second),
        },
    }
}
