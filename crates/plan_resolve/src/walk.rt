ghost use Rattle.std.specs.Prelude.{◌≡◌, ◌≢◌, ◌∷◌, [], ◌++◌, IfOk, IfErr, OnOk, Ok, Err, Some};
ghost use Rattle.relation_members.specs.Inputs.{first_of, second_of};
ghost use Rattle.resolve_names.specs.declared.error.ResolveStop.TheVariants.{OutOfMemory as no_memory};
ghost use Rattle.plan_resolve.specs.Drawing as drawing;
ghost use Rattle.plan_resolve.specs.Given as steps;
ghost use Rattle.plan_resolve.specs.Members as rules;

use crate::member::{Outside, member_found};
use cn_base::{List, OutOfMemory};
use relation_members::{RelationCommon, RelationMember, first_input, second_input};
use relation_messages::Relation;
use resolve_names::{ColumnList, ResolveStop, Tagged};
use resolve_relations::{Found, within_limits};
use std::alloc::Global;

/// How many ids each relation has room for: as many as it may have columns.
const ROOM: u64 = 1_000;

/// What a relation is resolved to, with all that is below it. Ids are drawn from `next` on, which is behind the last one afterwards.
#[cycle(relations)]
#[tactic(auto, unfolding(crate::specs::Given::walked), using(crate::proofs::Walked::is_walked))]
pub fn relation_found(
    alloc: Global,
    outside: &Outside<'_>,
    relation: &Relation,
    next: &mut u64,
) -> Result<Found, ResolveStop>
    ensures ok { IfOk result (λ found. (drawing.counted outside.now.case_sensitive outside.now.tables.now.named relation.now).found next.old ≡ Ok found) }
    ensures refused { IfErr result (λ e. e ≢ no_memory → (drawing.counted outside.now.case_sensitive outside.now.tables.now.named relation.now).found next.old ≡ Err e) }
    ensures drawn { OnOk result (next.new ≡ drawing.behind next.old (drawing.counted outside.now.case_sensitive outside.now.tables.now.named relation.now).relations) }
{
    let first = first_found(alloc, outside, &relation.member, next)?;
    let second = second_found(alloc, outside, &relation.member, next)?;
    let base = *next;
    *next = room_behind(base)?;
    over_inputs(alloc, outside, relation, base, first, second)
}

/// The first id behind a relation's room; one from 2^64 on is answered as want of memory.
fn room_behind(base: u64) -> Result<u64, OutOfMemory>
    ensures { IfOk result (λ next. next ≡ drawing.behind base 1) }
{
    base.checked_add(ROOM).ok_or(OutOfMemory)
}

/// What the member's first input is resolved to, where there is one.
#[cycle(relations)]
fn first_found(
    alloc: Global,
    outside: &Outside<'_>,
    member: &RelationMember<Relation>,
    next: &mut u64,
) -> Result<Option<Found>, ResolveStop>
    ensures ok { IfOk result (λ found. steps.input_found outside.now.case_sensitive outside.now.tables.now.named (first_of member.now) next.old ≡ Ok found) }
    ensures refused { IfErr result (λ e. e ≢ no_memory → steps.input_found outside.now.case_sensitive outside.now.tables.now.named (first_of member.now) next.old ≡ Err e) }
    ensures drawn { OnOk result (next.new ≡ steps.behind_first outside.now.case_sensitive outside.now.tables.now.named member.now next.old) }
{
    match first_input(member) {
        Some(input) => match relation_found(alloc, outside, input, next) {
            Ok(found) => Ok(Some(found)),
            Err(stop) => Err(stop),
        },
        None => Ok(None),
    }
}

/// What the member's second input is resolved to, where there is one.
#[cycle(relations)]
fn second_found(
    alloc: Global,
    outside: &Outside<'_>,
    member: &RelationMember<Relation>,
    next: &mut u64,
) -> Result<Option<Found>, ResolveStop>
    ensures ok { IfOk result (λ found. steps.input_found outside.now.case_sensitive outside.now.tables.now.named (second_of member.now) next.old ≡ Ok found) }
    ensures refused { IfErr result (λ e. e ≢ no_memory → steps.input_found outside.now.case_sensitive outside.now.tables.now.named (second_of member.now) next.old ≡ Err e) }
    ensures drawn { OnOk result (next.new ≡ drawing.behind next.old (steps.input_relations outside.now.case_sensitive outside.now.tables.now.named (second_of member.now))) }
{
    match second_input(member) {
        Some(input) => match relation_found(alloc, outside, input, next) {
            Ok(found) => Ok(Some(found)),
            Err(stop) => Err(stop),
        },
        None => Ok(None),
    }
}

/// What a relation is resolved to over its inputs.
#[tactic(auto, using(crate::proofs::Walked::limited_error))]
fn over_inputs(
    alloc: Global,
    outside: &Outside<'_>,
    relation: &Relation,
    base: u64,
    first: Option<Found>,
    second: Option<Found>,
) -> Result<Found, ResolveStop>
    ensures ok { IfOk result (λ found. steps.over_inputs outside.now.case_sensitive outside.now.tables.now.named relation.now base first second ≡ Ok found) }
    ensures refused { IfErr result (λ e. e ≢ no_memory → steps.over_inputs outside.now.case_sensitive outside.now.tables.now.named relation.now base first second ≡ Err e) }
{
    match member_found(alloc, outside, base, &relation.member, first, second) {
        Ok(found) => limited(alloc, &relation.common, found),
        Err(stop) => Err(stop),
    }
}

/// The relation, where its columns are within the limits, among those that are found by their plan ids where it has one.
#[tactic(auto, unfolding(crate::specs::Members::limited))]
fn limited(
    alloc: Global,
    common: &Option<RelationCommon>,
    found: Found,
) -> Result<Found, ResolveStop>
    ensures ok { IfOk result (λ marked. rules.limited common.now (Ok found) ≡ Ok marked) }
    ensures refused { IfErr result (λ e. e ≢ no_memory → rules.limited common.now (Ok found) ≡ Err e) }
{
    within_limits(alloc, found.columns.as_slice())?;
    tagged(plan_id_of(common), found)
}

fn plan_id_of(common: &Option<RelationCommon>) -> Option<i64>
    ensures { result ≡ rules.plan_id_of common.now }
{
    match common {
        Some(it) => it.plan_id,
        None => None,
    }
}

fn tagged(plan: Option<i64>, found: Found) -> Result<Found, ResolveStop>
    ensures ok { IfOk result (λ marked. marked ≡ rules.tagged found plan) }
    ensures refused { IfErr result (λ e. e ≡ no_memory) }
{
    match plan {
        Some(plan) => with_plan_id(plan, found),
        None => Ok(found),
    }
}

fn with_plan_id(plan: i64, found: Found) -> Result<Found, ResolveStop>
    ensures ok { IfOk result (λ marked. marked ≡ rules.tagged found (Some plan)) }
    ensures refused { IfErr result (λ e. e ≡ no_memory) }
{
    let Found {
        node,
        columns,
        relations,
    } = found;
    let shared = columns.share()?;
    let relations = with_one(relations, plan, shared)?;
    Ok(Found {
        node,
        columns,
        relations,
    })
}

fn with_one(
    relations: List<Tagged<u64>>,
    plan_id: i64,
    columns: ColumnList<u64>,
) -> Result<List<Tagged<u64>>, OutOfMemory>
    ensures { IfOk result (λ more. more ≡ relations ++ record { plan_id = plan_id; columns = columns } ∷ []) }
{
    let mut relations = relations;
    relations.push(Tagged { plan_id, columns })?;
    Ok(relations)
}
