ghost use Rattle.std.specs.Prelude.{◌≡◌, ◌≢◌, count_by, position, find, zip, nat_lt, IfOk, IfErr, Ok, Err, nat_eq};
ghost use Rattle.std.specs.Option.{option_copied};
ghost use Rattle.std.specs.Fmt.{signed_decimal};
ghost use Rattle.std.specs.List.{list_all};
ghost use Rattle.resolve_names.specs.Matching.{name_matches};
ghost use Rattle.resolve_names.specs.declared.error.ErrorName.TheVariants.{CannotResolvePlanId};
ghost use Rattle.resolve_names.specs.declared.error.ResolveStop.TheVariants.{Analysis, OutOfMemory as no_memory};
ghost use Rattle.resolve_names.specs.Refusals.{refusal};
ghost use Rattle.resolve_names.specs.Scopes as scopes;

use crate::{
    ColumnOf, ErrorName, ResolveStop, ScopeColumn, Tagged, analysis_stop, identifier_parts,
    names_match,
};
use cn_base::{List, Text};
use std::alloc::Global;

/// The place, counted from 0, of the column that an attribute names: `columns` are those of the operator's input, and `relations` those
/// with a plan id below it. Without a plan id the identifier names the columns of its last part that have the parts before as their
/// qualifier; with one it names such a column of that relation, whose id must stand once among `columns`. The first of these errors
/// decides: BadIdentifier; CannotResolvePlanId or AmbiguousReference for the relation; UnresolvedColumn or AmbiguousReference for the name
/// and then for the id.
#[tactic(auto, unfolding(crate::specs::Scopes::attribute_at))]
pub fn attribute_place(
    alloc: Global,
    case_sensitive: bool,
    columns: &[ScopeColumn],
    relations: &[Tagged<u64>],
    identifier: &str,
    plan_id: Option<i64>,
) -> Result<usize, ResolveStop>
    ensures ok { IfOk result (λ place. scopes.attribute_at nat_eq case_sensitive columns.now relations.now identifier.now plan_id ≡ Ok place) }
    ensures refused { IfErr result (λ e. e ≢ no_memory → scopes.attribute_at nat_eq case_sensitive columns.now relations.now identifier.now plan_id ≡ Err e) }
{
    match plan_id {
        None => bare_place(alloc, case_sensitive, columns, identifier),
        Some(plan) => planned_place(alloc, case_sensitive, columns, relations, identifier, plan),
    }
}

#[tactic(auto, unfolding(crate::specs::Scopes::bare_at))]
fn bare_place(
    alloc: Global,
    case_sensitive: bool,
    columns: &[ScopeColumn],
    identifier: &str,
) -> Result<usize, ResolveStop>
    ensures ok { IfOk result (λ place. scopes.bare_at case_sensitive columns.now identifier.now ≡ Ok place) }
    ensures refused { IfErr result (λ e. e ≢ no_memory → scopes.bare_at case_sensitive columns.now identifier.now ≡ Err e) }
{
    let parts = parts_of(alloc, identifier)?;
    named_place(alloc, case_sensitive, identifier, parts.as_slice(), columns)
}

#[tactic(auto, unfolding(crate::specs::Scopes::planned_at))]
fn planned_place(
    alloc: Global,
    case_sensitive: bool,
    columns: &[ScopeColumn],
    relations: &[Tagged<u64>],
    identifier: &str,
    plan: i64,
) -> Result<usize, ResolveStop>
    ensures ok { IfOk result (λ place. scopes.planned_at nat_eq case_sensitive columns.now relations.now identifier.now plan ≡ Ok place) }
    ensures refused { IfErr result (λ e. e ≢ no_memory → scopes.planned_at nat_eq case_sensitive columns.now relations.now identifier.now plan ≡ Err e) }
{
    let parts = parts_of(alloc, identifier)?;
    let relation = relation_of(alloc, identifier, plan, relations)?;
    let column = named_column(
        alloc,
        case_sensitive,
        identifier,
        parts.as_slice(),
        relation.columns.as_slice(),
    )?;
    place_of_id(alloc, identifier, column.id, columns)
}

/// The parts of an identifier; BadIdentifier tells a text that spells none.
#[tactic(auto, unfolding(crate::specs::Scopes::parts_of))]
pub fn parts_of(alloc: Global, identifier: &str) -> Result<List<Text>, ResolveStop>
    ensures ok { IfOk result (λ parts. scopes.parts_of identifier.now ≡ Ok parts) }
    ensures refused { IfErr result (λ e. e ≢ no_memory → scopes.parts_of identifier.now ≡ Err e) }
{
    match identifier_parts(alloc, identifier)? {
        Some(parts) => Ok(parts),
        None => Err(analysis_stop(alloc, ErrorName::BadIdentifier, identifier)),
    }
}

/// The place of the one column that these parts of an identifier name.
#[tactic(auto, unfolding(crate::specs::Scopes::named_place))]
pub fn named_place<I>(
    alloc: Global,
    case_sensitive: bool,
    identifier: &str,
    parts: &[Text],
    columns: &[ColumnOf<I>],
) -> Result<usize, ResolveStop>
    ensures ok { IfOk result (λ place. scopes.named_place case_sensitive identifier.now parts.now columns.now ≡ Ok place) }
    ensures refused { IfErr result (λ e. e ≢ no_memory → scopes.named_place case_sensitive identifier.now parts.now columns.now ≡ Err e) }
{
    if several_named(case_sensitive, parts, columns) {
        return Err(analysis_stop(alloc, ErrorName::AmbiguousReference, identifier));
    }
    match first_named(case_sensitive, parts, columns) {
        Some(place) => Ok(place),
        None => Err(analysis_stop(alloc, ErrorName::UnresolvedColumn, identifier)),
    }
}

/// The one column that these parts of an identifier name.
#[tactic(auto, unfolding(crate::specs::Scopes::named_column))]
fn named_column<'a, I>(
    alloc: Global,
    case_sensitive: bool,
    identifier: &str,
    parts: &[Text],
    columns: &'a [ColumnOf<I>],
) -> Result<&'a ColumnOf<I>, ResolveStop>
    ensures ok { IfOk result (λ column. scopes.named_column case_sensitive identifier.now parts.now columns.now ≡ Ok column.now) }
    ensures refused { IfErr result (λ e. e ≢ no_memory → scopes.named_column case_sensitive identifier.now parts.now columns.now ≡ Err e) }
{
    if several_named(case_sensitive, parts, columns) {
        return Err(analysis_stop(alloc, ErrorName::AmbiguousReference, identifier));
    }
    match find_named(case_sensitive, parts, columns) {
        Some(column) => Ok(column),
        None => Err(analysis_stop(alloc, ErrorName::UnresolvedColumn, identifier)),
    }
}

fn several_named<I>(case_sensitive: bool, parts: &[Text], columns: &[ColumnOf<I>]) -> bool
    ensures { result ≡ nat_lt 1 (count_by (scopes.is_named case_sensitive parts.now) columns.now) }
{
    count_named(case_sensitive, parts, columns) > 1
}

fn count_named<I>(case_sensitive: bool, parts: &[Text], columns: &[ColumnOf<I>]) -> usize
    ensures { result ≡ count_by (scopes.is_named case_sensitive parts.now) columns.now }
{
    columns
        .iter()
        .filter(|column| is_named(case_sensitive, parts, column))
        .count()
}

fn first_named<I>(case_sensitive: bool, parts: &[Text], columns: &[ColumnOf<I>]) -> Option<usize>
    ensures { result ≡ position (scopes.is_named case_sensitive parts.now) columns.now }
{
    columns
        .iter()
        .position(|column| is_named(case_sensitive, parts, column))
}

fn find_named<'a, I>(
    case_sensitive: bool,
    parts: &[Text],
    columns: &'a [ColumnOf<I>],
) -> Option<&'a ColumnOf<I>>
    ensures { option_copied result ≡ find (scopes.is_named case_sensitive parts.now) columns.now }
{
    columns
        .iter()
        .find(|column| is_named(case_sensitive, parts, column))
}

/// Whether these parts of an identifier name the column. It takes no memory.
pub fn is_named<I>(case_sensitive: bool, parts: &[Text], column: &ColumnOf<I>) -> bool
    ensures { result ≡ scopes.is_named case_sensitive parts.now column.now }
{
    if parts.is_empty() {
        return false;
    }
    let last = parts.len() - 1;
    if !names_match(case_sensitive, parts[last].as_str(), column.name.as_str()) {
        return false;
    }
    qualifier_matches(case_sensitive, &parts[..last], column.qualifier.as_slice())
}

fn qualifier_matches(case_sensitive: bool, parts: &[Text], qualifier: &[Text]) -> bool
    ensures { result ≡ scopes.qualifier_matches case_sensitive parts.now qualifier.now }
{
    if parts.is_empty() {
        return true;
    }
    if parts.len() != qualifier.len() {
        return false;
    }
    all_match(case_sensitive, parts, qualifier)
}

fn all_match(case_sensitive: bool, parts: &[Text], qualifier: &[Text]) -> bool
    ensures { result ≡ list_all (λ pair. name_matches case_sensitive pair.0 pair.1) (zip parts.now qualifier.now) }
{
    parts.iter().zip(qualifier.iter()).all(|(part, own)| names_match(
        case_sensitive,
        part.as_str(),
        own.as_str(),
    ))
}

/// The one relation with a plan id. CannotResolvePlanId tells an id that none has, AmbiguousReference, with the identifier, one that several
/// have.
#[tactic(auto, unfolding(crate::specs::Scopes::relation_of))]
pub fn relation_of<'a, I>(
    alloc: Global,
    identifier: &str,
    plan: i64,
    relations: &'a [Tagged<I>],
) -> Result<&'a Tagged<I>, ResolveStop>
    ensures ok { IfOk result (λ relation. scopes.relation_of identifier.now plan relations.now ≡ Ok relation.now) }
    ensures refused { IfErr result (λ e. e ≢ no_memory → scopes.relation_of identifier.now plan relations.now ≡ Err e) }
{
    if count_planned(plan, relations) > 1 {
        return Err(analysis_stop(alloc, ErrorName::AmbiguousReference, identifier));
    }
    match find_planned(plan, relations) {
        Some(relation) => Ok(relation),
        None => Err(no_such_plan(alloc, plan)),
    }
}

fn no_such_plan(alloc: Global, plan: i64) -> ResolveStop
    ensures { result ≢ no_memory → result ≡ Analysis (refusal CannotResolvePlanId (signed_decimal plan)) }
{
    match plan.to_string(alloc) {
        Ok(id) => analysis_stop(alloc, ErrorName::CannotResolvePlanId, id.as_str()),
        Err(_) => ResolveStop::OutOfMemory,
    }
}

fn count_planned<I>(plan: i64, relations: &[Tagged<I>]) -> usize
    ensures { result ≡ count_by (scopes.has_plan_id plan) relations.now }
{
    relations
        .iter()
        .filter(|relation| relation.plan_id == plan)
        .count()
}

fn find_planned<I>(plan: i64, relations: &[Tagged<I>]) -> Option<&Tagged<I>>
    ensures { option_copied result ≡ find (scopes.has_plan_id plan) relations.now }
{
    relations.iter().find(|relation| relation.plan_id == plan)
}

/// The place of the one column with an id.
#[tactic(auto, unfolding(crate::specs::Scopes::place_of_id))]
fn place_of_id(
    alloc: Global,
    identifier: &str,
    id: u64,
    columns: &[ScopeColumn],
) -> Result<usize, ResolveStop>
    ensures ok { IfOk result (λ place. scopes.place_of_id nat_eq identifier.now id columns.now ≡ Ok place) }
    ensures refused { IfErr result (λ e. e ≢ no_memory → scopes.place_of_id nat_eq identifier.now id columns.now ≡ Err e) }
{
    if count_of_id(id, columns) > 1 {
        return Err(analysis_stop(alloc, ErrorName::AmbiguousReference, identifier));
    }
    match first_of_id(id, columns) {
        Some(place) => Ok(place),
        None => Err(analysis_stop(alloc, ErrorName::UnresolvedColumn, identifier)),
    }
}

fn count_of_id(id: u64, columns: &[ScopeColumn]) -> usize
    ensures { result ≡ count_by (λ column. nat_eq column.id id) columns.now }
{
    columns.iter().filter(|column| column.id == id).count()
}

fn first_of_id(id: u64, columns: &[ScopeColumn]) -> Option<usize>
    ensures { result ≡ position (λ column. nat_eq column.id id) columns.now }
{
    columns.iter().position(|column| column.id == id)
}
