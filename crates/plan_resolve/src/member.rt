ghost use Rattle.std.specs.Prelude.{◌≡◌, ◌≢◌, ◌++◌, codes, IfOk, IfErr, Ok, Err, Some, None, nat_eq};
ghost use Rattle.std.specs.Fmt.{decimal};
ghost use Rattle.std.specs.String.{string_bytes};
ghost use Rattle.resolve_names.specs.declared.error.ErrorName.TheVariants.{Unsupported};
ghost use Rattle.resolve_names.specs.declared.error.ResolveStop.TheVariants.{Analysis, OutOfMemory as no_memory};
ghost use Rattle.resolve_names.specs.Refusals.{refusal};
ghost use Rattle.resolve_relations.specs.Columns.{ids_from};
ghost use Rattle.resolve_relations.specs.Making.{read_rule};
ghost use Rattle.resolve_joins.specs.Joins.{join_rule};
ghost use Rattle.resolve_sets.specs.Sets.{set_rule};
ghost use Rattle.plan_resolve.specs.Given.{given};
ghost use Rattle.plan_resolve.specs.Members as rules;

use crate::local::local_relation;
use cn_base::{OutOfMemory, Text};
use relation_members::{Join, Read, RelationMember, SetOperation};
use relation_messages::Relation;
use resolve_joins::join;
use resolve_names::{ErrorName, ResolveStop, analysis_stop};
use resolve_relations::{
    Found, aggregate, deduplicate, drop_columns, filter, limit, offset, project, range, read,
    renamed, sort, subquery_alias, to_df, with_columns,
};
use resolve_sets::{SetOptions, set_operation};
use std::alloc::Global;
use table_store::Tables;

/// What the rules of a plan's relations look at besides the plan.
#[derive(Clone, Copy)]
pub struct Outside<'a> {
    /// Whether names of columns match exactly.
    pub case_sensitive: bool,
    pub tables: &'a Tables,
}

/// What a member makes of its resolved inputs, the first where it has one and the second where it has two. Ids of its own are those from `base`
/// on. Other inputs than those that the member has, which no caller gives, are answered as want of memory.
pub fn member_found(
    alloc: Global,
    outside: &Outside<'_>,
    base: u64,
    member: &RelationMember<Relation>,
    first: Option<Found>,
    second: Option<Found>,
) -> Result<Found, ResolveStop>
    ensures ok { IfOk result (λ found. rules.member_rule nat_eq outside.now.case_sensitive outside.now.tables.now.named (ids_from base) (given first) (given second) member.now ≡ Ok found) }
    ensures refused { IfErr result (λ e. e ≢ no_memory → rules.member_rule nat_eq outside.now.case_sensitive outside.now.tables.now.named (ids_from base) (given first) (given second) member.now ≡ Err e) }
{
    match first {
        None => match second {
            None => leaf_found(alloc, outside, base, member),
            Some(_) => Err(ResolveStop::OutOfMemory),
        },
        Some(first) => match second {
            None => unary_found(alloc, outside, base, member, first),
            Some(second) => binary_found(alloc, outside, base, member, first, second),
        },
    }
}

/// A member without an input.
#[tactic(auto, unfolding(crate::specs::Members::member_rule))]
fn leaf_found(
    alloc: Global,
    outside: &Outside<'_>,
    base: u64,
    member: &RelationMember<Relation>,
) -> Result<Found, ResolveStop>
    ensures ok { IfOk result (λ found. rules.member_rule nat_eq outside.now.case_sensitive outside.now.tables.now.named (ids_from base) (given None) (given None) member.now ≡ Ok found) }
    ensures refused { IfErr result (λ e. e ≢ no_memory → rules.member_rule nat_eq outside.now.case_sensitive outside.now.tables.now.named (ids_from base) (given None) (given None) member.now ≡ Err e) }
{
    match member {
        RelationMember::Read(it) => read_found(alloc, outside, base, it),
        RelationMember::LocalRelation(it) => local_relation(alloc, base, &it.payload, &it.schema),
        RelationMember::Range(it) => range(alloc, base, it.start.unwrap_or(0), it.end, it.step),
        RelationMember::Other(number) => Err(unsupported(alloc, *number)),
        RelationMember::Project(_)
        | RelationMember::Filter(_)
        | RelationMember::Join(_)
        | RelationMember::SetOperation(_)
        | RelationMember::Sort(_)
        | RelationMember::Limit(_)
        | RelationMember::Aggregate(_)
        | RelationMember::Offset(_)
        | RelationMember::Deduplicate(_)
        | RelationMember::SubqueryAlias(_)
        | RelationMember::ToDf(_)
        | RelationMember::WithColumnsRenamed(_)
        | RelationMember::DropColumns(_)
        | RelationMember::WithColumns(_) => Err(ResolveStop::OutOfMemory),
    }
}

fn read_found(
    alloc: Global,
    outside: &Outside<'_>,
    base: u64,
    it: &Read,
) -> Result<Found, ResolveStop>
    ensures ok { IfOk result (λ found. read_rule (ids_from base) outside.now.tables.now.named (rules.identifier_of it.now) ≡ Ok found) }
    ensures refused { IfErr result (λ e. e ≢ no_memory → read_rule (ids_from base) outside.now.tables.now.named (rules.identifier_of it.now) ≡ Err e) }
{
    match &it.named_table {
        Some(table) => read(alloc, base, outside.tables, &table.unparsed_identifier),
        None => {
            let nothing = Text::new(alloc);
            read(alloc, base, outside.tables, &nothing)
        }
    }
}

/// A relation outside the profile, by its field number.
fn unsupported(alloc: Global, number: u32) -> ResolveStop
    ensures { result ≢ no_memory → result ≡ Analysis (refusal Unsupported (codes "relation " ++ decimal number)) }
{
    match relation_text(alloc, number) {
        Ok(text) => analysis_stop(alloc, ErrorName::Unsupported, text.as_str()),
        Err(_) => ResolveStop::OutOfMemory,
    }
}

fn relation_text(alloc: Global, number: u32) -> Result<String, OutOfMemory>
    ensures { IfOk result (λ text. string_bytes text ≡ codes "relation " ++ decimal number) }
{
    let text = format!(in alloc; "relation {number}")?;
    Ok(text)
}

/// A member of one input.
#[tactic(auto, unfolding(crate::specs::Members::member_rule))]
fn unary_found(
    alloc: Global,
    outside: &Outside<'_>,
    base: u64,
    member: &RelationMember<Relation>,
    input: Found,
) -> Result<Found, ResolveStop>
    ensures ok { IfOk result (λ found. rules.member_rule nat_eq outside.now.case_sensitive outside.now.tables.now.named (ids_from base) (given (Some input)) (given None) member.now ≡ Ok found) }
    ensures refused { IfErr result (λ e. e ≢ no_memory → rules.member_rule nat_eq outside.now.case_sensitive outside.now.tables.now.named (ids_from base) (given (Some input)) (given None) member.now ≡ Err e) }
{
    let exact = outside.case_sensitive;
    match member {
        RelationMember::Project(it) => project(
            alloc,
            exact,
            base,
            input,
            it.expressions.as_slice(),
        ),
        RelationMember::Filter(it) => filter(alloc, exact, input, &it.condition),
        RelationMember::Sort(it) => sort(alloc, exact, input, it.order.as_slice()),
        RelationMember::Limit(it) => limit(alloc, input, it.number),
        RelationMember::Aggregate(it) => aggregate(
            alloc,
            exact,
            base,
            input,
            it.group_type,
            it.grouping_expressions.as_slice(),
            it.aggregate_expressions.as_slice(),
        ),
        RelationMember::Offset(it) => offset(alloc, input, it.number),
        RelationMember::Deduplicate(it) => deduplicate(
            alloc,
            exact,
            input,
            it.all_columns_as_keys.unwrap_or(false),
            it.column_names.as_slice(),
        ),
        RelationMember::SubqueryAlias(it) => subquery_alias(alloc, input, &it.alias),
        RelationMember::ToDf(it) => to_df(alloc, base, input, it.column_names.as_slice()),
        RelationMember::WithColumnsRenamed(it) => {
            renamed(alloc, exact, base, input, it.rename_map.entries())
        }
        RelationMember::DropColumns(it) => drop_columns(
            alloc,
            exact,
            input,
            it.columns.as_slice(),
            it.column_names.as_slice(),
        ),
        RelationMember::WithColumns(it) => {
            with_columns(alloc, exact, base, input, it.aliases.as_slice())
        }
        RelationMember::Read(_)
        | RelationMember::LocalRelation(_)
        | RelationMember::Range(_)
        | RelationMember::Other(_) => leaf_found(alloc, outside, base, member),
        RelationMember::Join(_) | RelationMember::SetOperation(_) => Err(ResolveStop::OutOfMemory),
    }
}

/// A member of two inputs.
#[tactic(auto, unfolding(crate::specs::Members::member_rule))]
fn binary_found(
    alloc: Global,
    outside: &Outside<'_>,
    base: u64,
    member: &RelationMember<Relation>,
    left: Found,
    right: Found,
) -> Result<Found, ResolveStop>
    ensures ok { IfOk result (λ found. rules.member_rule nat_eq outside.now.case_sensitive outside.now.tables.now.named (ids_from base) (given (Some left)) (given (Some right)) member.now ≡ Ok found) }
    ensures refused { IfErr result (λ e. e ≢ no_memory → rules.member_rule nat_eq outside.now.case_sensitive outside.now.tables.now.named (ids_from base) (given (Some left)) (given (Some right)) member.now ≡ Err e) }
{
    match member {
        RelationMember::Join(it) => joined(alloc, outside, base, it, left, right),
        RelationMember::SetOperation(it) => combined(alloc, outside, base, it, left, right),
        RelationMember::Project(_)
        | RelationMember::Filter(_)
        | RelationMember::Sort(_)
        | RelationMember::Limit(_)
        | RelationMember::Aggregate(_)
        | RelationMember::Offset(_)
        | RelationMember::Deduplicate(_)
        | RelationMember::SubqueryAlias(_)
        | RelationMember::ToDf(_)
        | RelationMember::WithColumnsRenamed(_)
        | RelationMember::DropColumns(_)
        | RelationMember::WithColumns(_)
        | RelationMember::Read(_)
        | RelationMember::LocalRelation(_)
        | RelationMember::Range(_)
        | RelationMember::Other(_) => unary_found(alloc, outside, base, member, left),
    }
}

fn joined(
    alloc: Global,
    outside: &Outside<'_>,
    base: u64,
    it: &Join<Relation>,
    left: Found,
    right: Found,
) -> Result<Found, ResolveStop>
    ensures ok { IfOk result (λ found. join_rule nat_eq outside.now.case_sensitive (ids_from base) left right it.now.join_type it.now.join_condition it.now.using_columns ≡ Ok found) }
    ensures refused { IfErr result (λ e. e ≢ no_memory → join_rule nat_eq outside.now.case_sensitive (ids_from base) left right it.now.join_type it.now.join_condition it.now.using_columns ≡ Err e) }
{
    join(
        alloc,
        outside.case_sensitive,
        base,
        left,
        right,
        it.join_type,
        &it.join_condition,
        it.using_columns.as_slice(),
    )
}

fn combined(
    alloc: Global,
    outside: &Outside<'_>,
    base: u64,
    it: &SetOperation<Relation>,
    left: Found,
    right: Found,
) -> Result<Found, ResolveStop>
    ensures ok { IfOk result (λ found. set_rule outside.now.case_sensitive (ids_from base) left right it.now.set_op_type (rules.is_set it.now.is_all) (rules.is_set it.now.by_name) (rules.is_set it.now.allow_missing_columns) ≡ Ok found) }
    ensures refused { IfErr result (λ e. e ≢ no_memory → set_rule outside.now.case_sensitive (ids_from base) left right it.now.set_op_type (rules.is_set it.now.is_all) (rules.is_set it.now.by_name) (rules.is_set it.now.allow_missing_columns) ≡ Err e) }
{
    set_operation(
        alloc,
        outside.case_sensitive,
        base,
        left,
        right,
        SetOptions {
            set_op_type: it.set_op_type,
            all: it.is_all.unwrap_or(false),
            by_name: it.by_name.unwrap_or(false),
            allow_missing: it.allow_missing_columns.unwrap_or(false),
        },
    )
}
