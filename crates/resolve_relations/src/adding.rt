ghost use Rattle.std.specs.Prelude.{◌≡◌, ◌≢◌, ◌++◌, not, [], map, filter, find, option_map, unwrap_or, IfOk, IfErr, OnOk, Ok, Err, nat_eq};
ghost use Rattle.std.specs.List.{list_any};
ghost use Rattle.std.specs.Option.{option_copied};
ghost use Rattle.resolve_names.specs.declared.error.ResolveStop.TheVariants.{OutOfMemory as no_memory};
ghost use Rattle.resolve_names.specs.Matching.{name_matches};
ghost use Rattle.resolve_expressions.specs.Stars as stars;
ghost use Rattle.resolve_relations.specs.Columns as columns_of;
ghost use Rattle.resolve_relations.specs.Making as rules;

use crate::found::Found;
use crate::keeping::short_place;
use crate::limits::column_limit;
use crate::projecting::projection;
use cn_base::{Copied, List, OutOfMemory, Text};
use expression_messages::Alias;
use plan_model::TypedExpr;
use resolve_expressions::{Item, Names, added_items};
use resolve_names::{ErrorName, ResolveStop, ScopeColumn, analysis_stop, names_match};
use std::alloc::Global;

/// The input's columns with others: each column that an alias has the name of is replaced, and the other aliases stand behind them. The first
/// of these errors decides: those of the expressions in order; TooManyColumns; DuplicateColumn, which tells the first name that an earlier
/// alias has.
#[tactic(auto, unfolding(crate::specs::Making::with_columns_rule))]
pub fn with_columns(
    alloc: Global,
    case_sensitive: bool,
    base: u64,
    input: Found,
    aliases: &[Alias],
) -> Result<Found, ResolveStop>
    ensures ok { IfOk result (λ found. rules.with_columns_rule nat_eq case_sensitive (columns_of.ids_from base) input aliases.now ≡ Ok found) }
    ensures refused { IfErr result (λ e. e ≢ no_memory → rules.with_columns_rule nat_eq case_sensitive (columns_of.ids_from base) input aliases.now ≡ Err e) }
{
    let names = Names {
        case_sensitive,
        columns: input.columns.as_slice(),
        relations: input.relations.as_slice(),
    };
    let added = added_items(alloc, &names, aliases)?;
    let items = with_added(
        alloc,
        case_sensitive,
        input.columns.as_slice(),
        added.as_slice(),
    )?;
    column_limit(alloc, items.as_slice().len())?;
    no_twin(alloc, case_sensitive, added.as_slice())?;
    projection(alloc, base, input, items)
}

/// The columns, of which each that an added item has the name of is replaced, and the other added ones behind them.
fn with_added(
    alloc: Global,
    case_sensitive: bool,
    columns: &[ScopeColumn],
    added: &[Item],
) -> Result<List<Item>, OutOfMemory>
    ensures { IfOk result (λ items. items ≡ rules.with_added nat_eq case_sensitive columns.now added.now) }
{
    let mut items = replaced_columns(alloc, case_sensitive, columns, added)?;
    let more = new_items(alloc, case_sensitive, columns, added)?;
    items.append(more)?;
    Ok(items)
}

#[tactic(auto, using(crate::proofs::Numbered::number_steps))]
fn replaced_columns(
    alloc: Global,
    case_sensitive: bool,
    columns: &[ScopeColumn],
    added: &[Item],
) -> Result<List<Item>, OutOfMemory>
    ensures { IfOk result (λ items. items ≡ columns_of.numbered (rules.replaced nat_eq case_sensitive added.now) columns.now) }
{
    let mut items = List::new(alloc);
    for (place, column) in columns.iter().enumerate() {
        let place = short_place(place)?;
        items.push(replaced(alloc, case_sensitive, added, place, column)?)?;
    }
    Ok(items)
}

fn replaced(
    alloc: Global,
    case_sensitive: bool,
    added: &[Item],
    place: u32,
    column: &ScopeColumn,
) -> Result<Item, OutOfMemory>
    ensures { IfOk result (λ item. item ≡ rules.replaced nat_eq case_sensitive added.now place column.now) }
{
    match added_of(case_sensitive, added, &column.name) {
        Some(item) => copied(alloc, item),
        None => column_item(alloc, place, column),
    }
}

fn added_of<'a>(case_sensitive: bool, added: &'a [Item], name: &Text) -> Option<&'a Item>
    ensures { option_copied result ≡ find (λ item. name_matches case_sensitive item.name name.now) added.now }
{
    added.iter().find(|item| names_match(case_sensitive, item.name.as_str(), name.as_str()))
}

fn copied(alloc: Global, item: &Item) -> Result<Item, OutOfMemory>
    ensures { IfOk result (λ copied. copied ≡ item.now) }
{
    Ok(Item {
        name: item.name.copy(alloc)?,
        expr: item.expr.copy(alloc)?,
        source: item.source,
        nullable: item.nullable,
    })
}

/// The column at a place, as it is.
pub fn column_item(alloc: Global, place: u32, column: &ScopeColumn) -> Result<Item, OutOfMemory>
    ensures { IfOk result (λ item. item ≡ stars.column_item place column.now) }
{
    Ok(Item {
        name: column.name.copy(alloc)?,
        expr: TypedExpr::Column {
            place,
            kind: column.kind,
        },
        source: Some(place),
        nullable: column.nullable,
    })
}

#[tactic(auto, using(crate::proofs::Numbered::filter_steps))]
fn new_items(
    alloc: Global,
    case_sensitive: bool,
    columns: &[ScopeColumn],
    added: &[Item],
) -> Result<List<Item>, OutOfMemory>
    ensures { IfOk result (λ items. items ≡ filter (rules.is_new nat_eq case_sensitive columns.now) added.now) }
{
    let mut items = List::new(alloc);
    for item in added {
        if is_new(case_sensitive, columns, item) {
            items.push(copied(alloc, item)?)?;
        }
    }
    Ok(items)
}

fn is_new(case_sensitive: bool, columns: &[ScopeColumn], item: &Item) -> bool
    ensures { result ≡ rules.is_new nat_eq case_sensitive columns.now item.now }
{
    !has_column(case_sensitive, columns, &item.name)
}

fn has_column(case_sensitive: bool, columns: &[ScopeColumn], name: &Text) -> bool
    ensures { result ≡ list_any (rules.has_name case_sensitive name.now) columns.now }
{
    columns.iter().any(|column| names_match(case_sensitive, name.as_str(), column.name.as_str()))
}

/// That no two items have one name; DuplicateColumn tells the first that an earlier item has.
fn no_twin(alloc: Global, case_sensitive: bool, items: &[Item]) -> Result<(), ResolveStop>
    ensures ok { OnOk result (rules.no_twin (option_map rules.item_name (rules.later_twin (rules.same_name case_sensitive) [] items.now)) ≡ Ok tt) }
    ensures refused { IfErr result (λ e. e ≢ no_memory → rules.no_twin (option_map rules.item_name (rules.later_twin (rules.same_name case_sensitive) [] items.now)) ≡ Err e) }
{
    match later_twin(case_sensitive, items) {
        Some(item) => Err(analysis_stop(alloc, ErrorName::DuplicateColumn, item.name.as_str())),
        None => Ok(()),
    }
}

#[tactic(auto, using(crate::proofs::TwinFacts::twin_steps))]
fn later_twin(case_sensitive: bool, items: &[Item]) -> Option<&Item>
    ensures { option_copied result ≡ rules.later_twin (rules.same_name case_sensitive) [] items.now }
{
    for (place, item) in items.iter().enumerate() {
        if has_name(case_sensitive, &items[..place], item) {
            return Some(item);
        }
    }
    None
}

fn has_name(case_sensitive: bool, items: &[Item], item: &Item) -> bool
    ensures { result ≡ list_any (rules.same_name case_sensitive item.now) items.now }
{
    items.iter().any(|other| names_match(case_sensitive, item.name.as_str(), other.name.as_str()))
}
