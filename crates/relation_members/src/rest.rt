ghost use Rattle.std.specs.Prelude.{◌≡◌, ◌++◌, OnOk};
ghost use Rattle.proto_fields.specs.Sizes.{size_of};
ghost use Rattle.proto_fields.specs.Spelling.{spell};
ghost use Rattle.expression_messages.specs.Depths.{told};
ghost use Rattle.relation_members.specs.Depths as depths;
ghost use Rattle.relation_members.specs.Known as known;
ghost use Rattle.relation_members.specs.Spelled as spelled;

use crate::RelationMember;
use cn_base::OutOfMemory;
use expression_relations::{
    aggregate_rest_depth, aggregate_rest_size, drop_columns_rest_depth, drop_columns_rest_size,
    filter_rest_depth, filter_rest_size, is_known_aggregate, is_known_drop_columns,
    is_known_filter, is_known_join, is_known_project, is_known_sort, is_known_with_columns,
    join_rest_depth, join_rest_size, project_rest_depth, project_rest_size, put_aggregate_rest,
    put_drop_columns_rest, put_filter_rest, put_join_rest, put_project_rest, put_sort_rest,
    put_with_columns_rest, sort_rest_depth, sort_rest_size, with_columns_rest_depth,
    with_columns_rest_size,
};
use plain_relations::{
    deduplicate_rest_size, limit_rest_size, offset_rest_size, put_deduplicate_rest, put_limit_rest,
    put_offset_rest, put_renamed_rest, put_set_operation_rest, put_subquery_alias_rest,
    put_to_df_rest, renamed_rest_depth, renamed_rest_size, set_operation_rest_size,
    subquery_alias_rest_size, to_df_rest_size,
};
use proto_fields::MessageWriter;
use relation_parts::{
    local_relation_size, put_local_relation, put_range, put_read, range_size, read_depth, read_size,
};

/// Puts the fields of the member's message besides its inputs before what stands. Where memory runs out, nothing is promised of what stands
/// then.
#[tactic(auto, using(expression_messages::proofs::Written::spell_nil))]
pub fn put_rest<R>(out: &mut MessageWriter, member: &RelationMember<R>) -> Result<(), OutOfMemory>
    ensures { OnOk result (out.new ≡ spell (spelled.rest_fields member.now) ++ out.old) }
{
    match member {
        RelationMember::Read(it) => put_read(out, it),
        RelationMember::Project(it) => put_project_rest(out, it),
        RelationMember::Filter(it) => put_filter_rest(out, it),
        RelationMember::Join(it) => put_join_rest(out, it),
        RelationMember::SetOperation(it) => put_set_operation_rest(out, it),
        RelationMember::Sort(it) => put_sort_rest(out, it),
        RelationMember::Limit(it) => put_limit_rest(out, it),
        RelationMember::Aggregate(it) => put_aggregate_rest(out, it),
        RelationMember::LocalRelation(it) => put_local_relation(out, it),
        RelationMember::Offset(it) => put_offset_rest(out, it),
        RelationMember::Deduplicate(it) => put_deduplicate_rest(out, it),
        RelationMember::Range(it) => put_range(out, it),
        RelationMember::SubqueryAlias(it) => put_subquery_alias_rest(out, it),
        RelationMember::ToDf(it) => put_to_df_rest(out, it),
        RelationMember::WithColumnsRenamed(it) => put_renamed_rest(out, it),
        RelationMember::DropColumns(it) => put_drop_columns_rest(out, it),
        RelationMember::WithColumns(it) => put_with_columns_rest(out, it),
        RelationMember::Other(_) => Ok(()),
    }
}

/// How many bytes the fields of the member's message besides its inputs take; 2^64 - 1 where it is above that. It takes no memory.
#[tactic(auto, using(expression_messages::proofs::Measured::size_of_nil))]
pub fn rest_size<R>(member: &RelationMember<R>) -> u64
    ensures { result ≡ size_of (spelled.rest_fields member.now) }
{
    match member {
        RelationMember::Read(it) => read_size(it),
        RelationMember::Project(it) => project_rest_size(it),
        RelationMember::Filter(it) => filter_rest_size(it),
        RelationMember::Join(it) => join_rest_size(it),
        RelationMember::SetOperation(it) => set_operation_rest_size(it),
        RelationMember::Sort(it) => sort_rest_size(it),
        RelationMember::Limit(it) => limit_rest_size(it),
        RelationMember::Aggregate(it) => aggregate_rest_size(it),
        RelationMember::LocalRelation(it) => local_relation_size(it),
        RelationMember::Offset(it) => offset_rest_size(it),
        RelationMember::Deduplicate(it) => deduplicate_rest_size(it),
        RelationMember::Range(it) => range_size(it),
        RelationMember::SubqueryAlias(it) => subquery_alias_rest_size(it),
        RelationMember::ToDf(it) => to_df_rest_size(it),
        RelationMember::WithColumnsRenamed(it) => renamed_rest_size(it),
        RelationMember::DropColumns(it) => drop_columns_rest_size(it),
        RelationMember::WithColumns(it) => with_columns_rest_size(it),
        RelationMember::Other(_) => 0,
    }
}

/// How many messages are nested in the fields of the member's message besides its inputs; 2^32 - 1 where there are more. It takes no memory.
pub fn rest_depth<R>(member: &RelationMember<R>) -> u32
    ensures { result ≡ told (depths.rest_depth member.now) }
{
    match member {
        RelationMember::Read(it) => read_depth(it).saturating_sub(1),
        RelationMember::Project(it) => project_rest_depth(it),
        RelationMember::Filter(it) => filter_rest_depth(it),
        RelationMember::Join(it) => join_rest_depth(it),
        RelationMember::Sort(it) => sort_rest_depth(it),
        RelationMember::Aggregate(it) => aggregate_rest_depth(it),
        RelationMember::WithColumnsRenamed(it) => renamed_rest_depth(it),
        RelationMember::DropColumns(it) => drop_columns_rest_depth(it),
        RelationMember::WithColumns(it) => with_columns_rest_depth(it),
        RelationMember::SetOperation(_)
        | RelationMember::Limit(_)
        | RelationMember::LocalRelation(_)
        | RelationMember::Offset(_)
        | RelationMember::Deduplicate(_)
        | RelationMember::Range(_)
        | RelationMember::SubqueryAlias(_)
        | RelationMember::ToDf(_)
        | RelationMember::Other(_) => 0,
    }
}

/// Whether the member has a spelling, its inputs aside: neither it nor an expression in it is outside the profile. It takes no memory.
pub fn is_known_rest<R>(member: &RelationMember<R>) -> bool
    ensures { result ≡ known.is_known_rest member.now }
{
    match member {
        RelationMember::Project(it) => is_known_project(it),
        RelationMember::Filter(it) => is_known_filter(it),
        RelationMember::Join(it) => is_known_join(it),
        RelationMember::Sort(it) => is_known_sort(it),
        RelationMember::Aggregate(it) => is_known_aggregate(it),
        RelationMember::DropColumns(it) => is_known_drop_columns(it),
        RelationMember::WithColumns(it) => is_known_with_columns(it),
        RelationMember::Read(_)
        | RelationMember::SetOperation(_)
        | RelationMember::Limit(_)
        | RelationMember::LocalRelation(_)
        | RelationMember::Offset(_)
        | RelationMember::Deduplicate(_)
        | RelationMember::Range(_)
        | RelationMember::SubqueryAlias(_)
        | RelationMember::ToDf(_)
        | RelationMember::WithColumnsRenamed(_) => true,
        RelationMember::Other(_) => false,
    }
}
