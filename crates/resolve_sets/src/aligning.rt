ghost use Rattle.std.specs.Prelude.{◌≡◌, ◌≢◌, ◌++◌, codes, map, count_by, IfOk, IfErr, Ok, Err};
ghost use Rattle.std.specs.Fmt.{decimal};
ghost use Rattle.std.specs.String.{string_bytes};
ghost use Rattle.resolve_names.specs.declared.error.ResolveStop.TheVariants.{Analysis, OutOfMemory as no_memory};
ghost use Rattle.resolve_expressions.specs.Grouping.{all_checked};
ghost use Rattle.resolve_relations.specs.Columns.{numbered};
ghost use Rattle.resolve_relations.specs.Making as making;
ghost use Rattle.resolve_sets.specs.Aligning as aligning;

use crate::aligned::Places;
use crate::surplus::surplus_places;
use cn_base::{List, OutOfMemory};
use resolve_names::{ErrorName, ResolveStop, ScopeColumn, analysis_stop, names_match};
use resolve_relations::{plain_place, short_place};
use std::alloc::Global;

/// The columns at the same places. NumColumnsMismatch tells the two numbers of columns where they differ.
#[tactic(auto, unfolding(crate::specs::Aligning::by_place))]
pub(crate) fn by_place(
    alloc: Global,
    left: &[ScopeColumn],
    right: &[ScopeColumn],
) -> Result<List<Places>, ResolveStop>
    ensures ok { IfOk result (λ places. aligning.by_place left.now right.now ≡ Ok places) }
    ensures refused { IfErr result (λ e. e ≢ no_memory → aligning.by_place left.now right.now ≡ Err e) }
{
    if left.len() != right.len() {
        return Err(columns_differ(alloc, left.len(), right.len()));
    }
    Ok(same_places(alloc, left)?)
}

#[tactic(auto, using(resolve_relations::proofs::Numbered::number_steps))]
fn same_places(alloc: Global, left: &[ScopeColumn]) -> Result<List<Places>, OutOfMemory>
    ensures { IfOk result (λ places. places ≡ numbered aligning.both_at left.now) }
{
    let mut places = List::new(alloc);
    for (place, _) in left.iter().enumerate() {
        let place = short_place(place)?;
        places.push(Places {
            left: Some(place),
            right: Some(place),
        })?;
    }
    Ok(places)
}

/// Two numbers of columns that should be one.
fn columns_differ(alloc: Global, left: usize, right: usize) -> ResolveStop
    ensures { result ≢ no_memory → result ≡ Analysis (making.columns_differ left right) }
{
    match two_numbers(alloc, left, right) {
        Ok(text) => analysis_stop(alloc, ErrorName::NumColumnsMismatch, text.as_str()),
        Err(_) => ResolveStop::OutOfMemory,
    }
}

fn two_numbers(alloc: Global, left: usize, right: usize) -> Result<String, OutOfMemory>
    ensures { IfOk result (λ text. string_bytes text ≡ decimal left ++ codes " " ++ decimal right) }
{
    let text = format!(in alloc; "{left} {right}")?;
    Ok(text)
}

/// The columns of the same names, in the left's order. UnresolvedColumn and AmbiguousReference tell a name of the left's that the right
/// hasn't, or has several times; then NumColumnsMismatch tells that the right has others. With `missing` a side may lack names that the
/// other has, and the right's other columns come last.
#[tactic(auto, unfolding(crate::specs::Aligning::by_name))]
pub(crate) fn by_name(
    alloc: Global,
    case_sensitive: bool,
    missing: bool,
    left: &[ScopeColumn],
    right: &[ScopeColumn],
) -> Result<List<Places>, ResolveStop>
    ensures ok { IfOk result (λ places. aligning.by_name case_sensitive missing left.now right.now ≡ Ok places) }
    ensures refused { IfErr result (λ e. e ≢ no_memory → aligning.by_name case_sensitive missing left.now right.now ≡ Err e) }
{
    let partners = partners(alloc, case_sensitive, missing, left, right)?;
    let surplus = surplus_places(alloc, right, partners.as_slice())?;
    if !missing && !surplus.as_slice().is_empty() {
        return Err(columns_differ(alloc, left.len(), right.len()));
    }
    Ok(named_places(alloc, partners.as_slice(), surplus.as_slice())?)
}

#[tactic(auto, using(resolve_expressions::proofs::Gathering::gather_steps))]
fn partners(
    alloc: Global,
    case_sensitive: bool,
    missing: bool,
    left: &[ScopeColumn],
    right: &[ScopeColumn],
) -> Result<List<Option<u32>>, ResolveStop>
    ensures ok { IfOk result (λ places. all_checked (map (aligning.partner case_sensitive missing right.now) left.now) ≡ Ok places) }
    ensures refused { IfErr result (λ e. e ≢ no_memory → all_checked (map (aligning.partner case_sensitive missing right.now) left.now) ≡ Err e) }
{
    let mut places = List::new(alloc);
    for column in left {
        match partner(alloc, case_sensitive, missing, right, column) {
            Ok(place) => places.push(place)?,
            Err(stop) => return Err(stop),
        }
    }
    Ok(places)
}

/// The place in the right of the column with the left's name; none where it may be missing and is.
fn partner(
    alloc: Global,
    case_sensitive: bool,
    missing: bool,
    right: &[ScopeColumn],
    column: &ScopeColumn,
) -> Result<Option<u32>, ResolveStop>
    ensures ok { IfOk result (λ place. aligning.partner case_sensitive missing right.now column.now ≡ Ok place) }
    ensures refused { IfErr result (λ e. e ≢ no_memory → aligning.partner case_sensitive missing right.now column.now ≡ Err e) }
{
    if missing && count_named(case_sensitive, right, column) == 0 {
        return Ok(None);
    }
    let place = plain_place(alloc, case_sensitive, right, &column.name)?;
    Ok(Some(short_place(place)?))
}

fn count_named(case_sensitive: bool, columns: &[ScopeColumn], column: &ScopeColumn) -> usize
    ensures { result ≡ count_by (aligning.has_name_of case_sensitive column.now) columns.now }
{
    columns
        .iter()
        .filter(|other| names_match(case_sensitive, column.name.as_str(), other.name.as_str()))
        .count()
}

/// The left's places beside those of their partners, and behind them the right's other places.
fn named_places(
    alloc: Global,
    partners: &[Option<u32>],
    surplus: &[u32],
) -> Result<List<Places>, OutOfMemory>
    ensures { IfOk result (λ places. places ≡ numbered aligning.beside partners.now ++ map aligning.alone surplus.now) }
{
    let mut places = places_beside(alloc, partners)?;
    let more = places_alone(alloc, surplus)?;
    places.append(more)?;
    Ok(places)
}

#[tactic(auto, using(resolve_relations::proofs::Numbered::number_steps))]
fn places_beside(alloc: Global, partners: &[Option<u32>]) -> Result<List<Places>, OutOfMemory>
    ensures { IfOk result (λ places. places ≡ numbered aligning.beside partners.now) }
{
    let mut places = List::new(alloc);
    for (place, partner) in partners.iter().enumerate() {
        places.push(Places {
            left: Some(short_place(place)?),
            right: *partner,
        })?;
    }
    Ok(places)
}

#[tactic(auto, using(resolve_relations::proofs::Numbered::map_steps))]
fn places_alone(alloc: Global, surplus: &[u32]) -> Result<List<Places>, OutOfMemory>
    ensures { IfOk result (λ places. places ≡ map aligning.alone surplus.now) }
{
    let mut places = List::new(alloc);
    for place in surplus {
        places.push(Places {
            left: None,
            right: Some(*place),
        })?;
    }
    Ok(places)
}
