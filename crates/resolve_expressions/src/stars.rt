ghost use Rattle.std.specs.Prelude.{◌≡◌, ◌≢◌, ◌++◌, IfOk, OnOk, IfErr, Ok, Err, zip};
ghost use Rattle.std.specs.List.{list_all};
ghost use Rattle.resolve_names.specs.declared.error.ResolveStop.TheVariants.{OutOfMemory as no_memory};
ghost use Rattle.resolve_names.specs.declared.error.ErrorName.TheVariants.{BadIdentifier};
ghost use Rattle.resolve_names.specs.Checks.{or_refused};
ghost use Rattle.resolve_names.specs.Identifiers.{parts_in};
ghost use Rattle.resolve_names.specs.Matching.{name_matches};
ghost use Rattle.resolve_names.specs.Refusals.{refusal};
ghost use Rattle.resolve_names.specs.Scopes as scopes;
ghost use Rattle.resolve_expressions.specs.Named as named;
ghost use Rattle.resolve_expressions.specs.Stars as stars;

use crate::{Item, Names};
use cn_base::{Copied, List, OutOfMemory, Text};
use expression_messages::UnresolvedStar;
use plan_model::TypedExpr;
use resolve_names::{
    ErrorName, ResolveStop, ScopeColumn, analysis_stop, identifier_parts, names_match,
};
use std::alloc::Global;

/// The columns that a star means, as they are: all, of which there may be none, or those with its target as their qualifier, of which there
/// is one at least. Errors: BadIdentifier, UnresolvedColumn, both with the target as it was given. A place from 2^32 on is answered as want of memory.
#[tactic(auto, unfolding(crate::specs::Stars::star_items))]
pub fn star_items(
    alloc: Global,
    names: &Names<'_>,
    star: &UnresolvedStar,
) -> Result<List<Item>, ResolveStop>
    ensures ok { IfOk result (λ items. named.star_in names.now star.now ≡ Ok items) }
    ensures refused { IfErr result (λ e. e ≢ no_memory → named.star_in names.now star.now ≡ Err e) }
{
    match &star.unparsed_target {
        None => Ok(all_items(alloc, names.columns)?),
        Some(target) => {
            qualified_items(alloc, names, target.as_str(), target_name(target.as_str()))
        }
    }
}

/// A target without the `.*` at its end.
fn target_name(target: &str) -> &str
    ensures { result.now ≡ stars.target_name target.now }
{
    match target.strip_suffix(".*") {
        Some(name) => name,
        None => target,
    }
}

#[tactic(auto, using(crate::proofs::StarSteps::star_steps))]
fn all_items(alloc: Global, columns: &[ScopeColumn]) -> Result<List<Item>, OutOfMemory>
    ensures { IfOk result (λ items. items ≡ stars.items_where stars.any_column 0 columns.now) }
{
    let mut items = List::new(alloc);
    for (place, column) in columns.iter().enumerate() {
        items.push(column_item(alloc, place, column)?)?;
    }
    Ok(items)
}

/// The columns with this name as their qualifier; errors tell the identifier as it was given.
#[tactic(auto, using(crate::proofs::StarSteps::some_items_there))]
fn qualified_items(
    alloc: Global,
    names: &Names<'_>,
    identifier: &str,
    name: &str,
) -> Result<List<Item>, ResolveStop>
    ensures ok { IfOk result (λ items. stars.qualified names.now.case_sensitive names.now.columns.now identifier.now name.now ≡ Ok items) }
    ensures refused { IfErr result (λ e. e ≢ no_memory → stars.qualified names.now.case_sensitive names.now.columns.now identifier.now name.now ≡ Err e) }
{
    let parts = target_parts(alloc, identifier, name)?;
    let items = items_of(alloc, names.case_sensitive, parts.as_slice(), names.columns)?;
    if items.is_empty() {
        return Err(analysis_stop(alloc, ErrorName::UnresolvedColumn, identifier));
    }
    Ok(items)
}

/// The parts of a target's name, or BadIdentifier.
fn target_parts(alloc: Global, identifier: &str, name: &str) -> Result<List<Text>, ResolveStop>
    ensures ok { IfOk result (λ parts. or_refused (refusal BadIdentifier identifier.now) (parts_in name.now) ≡ Ok parts) }
    ensures refused { IfErr result (λ e. e ≢ no_memory → or_refused (refusal BadIdentifier identifier.now) (parts_in name.now) ≡ Err e) }
{
    match identifier_parts(alloc, name)? {
        Some(parts) => Ok(parts),
        None => Err(analysis_stop(alloc, ErrorName::BadIdentifier, identifier)),
    }
}

#[tactic(auto, using(crate::proofs::StarSteps::star_steps))]
fn items_of(
    alloc: Global,
    case_sensitive: bool,
    parts: &[Text],
    columns: &[ScopeColumn],
) -> Result<List<Item>, OutOfMemory>
    ensures { IfOk result (λ items. items ≡ stars.items_where (stars.has_qualifier case_sensitive parts.now) 0 columns.now) }
{
    let mut items = List::new(alloc);
    for (place, column) in columns.iter().enumerate() {
        let passes = has_qualifier(case_sensitive, parts, column.qualifier.as_slice());
        push_where(alloc, &mut items, passes, place, column)?;
    }
    Ok(items)
}

fn push_where(
    alloc: Global,
    items: &mut List<Item>,
    passes: bool,
    place: usize,
    column: &ScopeColumn,
) -> Result<(), OutOfMemory>
    ensures { OnOk result (items.new ≡ items.old ++ stars.item_where passes place column.now) }
{
    if passes {
        items.push(column_item(alloc, place, column)?)?;
    }
    Ok(())
}

fn has_qualifier(case_sensitive: bool, parts: &[Text], qualifier: &[Text]) -> bool
    ensures { result ≡ scopes.parts_match case_sensitive parts.now qualifier.now }
{
    if parts.len() != qualifier.len() {
        return false;
    }
    all_match(case_sensitive, parts, qualifier)
}

fn all_match(case_sensitive: bool, parts: &[Text], qualifier: &[Text]) -> bool
    ensures { result ≡ list_all (λ pair. name_matches case_sensitive pair.0 pair.1) (zip parts.now qualifier.now) }
{
    parts.iter().zip(qualifier.iter()).all(|(part, own)| names_match(
        case_sensitive,
        part.as_str(),
        own.as_str(),
    ))
}

/// The column at a place, as it is.
fn column_item(alloc: Global, place: usize, column: &ScopeColumn) -> Result<Item, OutOfMemory>
    ensures { IfOk result (λ item. item ≡ stars.column_item place column.now) }
{
    let Ok(place) = u32::try_from(place) else {
        return Err(OutOfMemory);
    };
    Ok(Item {
        name: column.name.copy(alloc)?,
        expr: TypedExpr::Column {
            place,
            kind: column.kind,
        },
        source: Some(place),
        nullable: column.nullable,
    })
}
