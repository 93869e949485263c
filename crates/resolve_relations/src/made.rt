ghost use Rattle.std.specs.Prelude.{◌≡◌, IfOk, map, slice_get, option_and_then};
ghost use Rattle.std.specs.Option.{option_copied};
ghost use Rattle.plan_model.specs.NodeTypes.{kind_of as its_kind};
ghost use Rattle.resolve_relations.specs.Columns as rules;

use cn_base::{Copied, List, OutOfMemory, Text};
use cn_types::DataType;
use plan_model::TypedExpr;
use resolve_expressions::Item;
use resolve_functions::kind_of;
use resolve_names::ScopeColumn;
use std::alloc::Global;

/// The id behind a first one by so many; one from 2^64 on is answered as want of memory.
pub fn id_at(base: u64, number: usize) -> Result<u64, OutOfMemory>
    ensures { IfOk result (λ id. id ≡ rules.ids_from base number) }
{
    base.checked_add(number as u64).ok_or(OutOfMemory)
}

/// The columns that items make of the input's columns: ids that are fresh are those from `base` on, by the items' numbers.
#[tactic(auto, using(crate::proofs::Numbered::number_steps))]
pub fn made_columns(
    alloc: Global,
    base: u64,
    columns: &[ScopeColumn],
    items: &[Item],
) -> Result<List<ScopeColumn>, OutOfMemory>
    ensures { IfOk result (λ made. made ≡ rules.made_columns (rules.ids_from base) columns.now items.now) }
{
    let mut made = List::new(alloc);
    for (number, item) in items.iter().enumerate() {
        made.push(made_column(alloc, base, number, columns, item)?)?;
    }
    Ok(made)
}

fn made_column(
    alloc: Global,
    base: u64,
    number: usize,
    columns: &[ScopeColumn],
    item: &Item,
) -> Result<ScopeColumn, OutOfMemory>
    ensures { IfOk result (λ c. c ≡ rules.made_column (rules.ids_from base) columns.now number item.now) }
{
    let id = id_at(base, number)?;
    match source(columns, item) {
        Some(column) => same_column(alloc, item, column),
        None => own_column(alloc, id, item),
    }
}

fn source<'a>(columns: &'a [ScopeColumn], item: &Item) -> Option<&'a ScopeColumn>
    ensures { option_copied result ≡ option_and_then (slice_get columns.now) item.now.source }
{
    match item.source {
        Some(place) => columns.get(place as usize),
        None => None,
    }
}

fn same_column(alloc: Global, item: &Item, column: &ScopeColumn) -> Result<ScopeColumn, OutOfMemory>
    ensures { IfOk result (λ c. c ≡ record { qualifier = column.now.qualifier; name = item.now.name; id = column.now.id; kind = its_kind item.now.expr; nullable = item.now.nullable }) }
{
    Ok(ScopeColumn {
        qualifier: column.qualifier.copy(alloc)?,
        name: item.name.copy(alloc)?,
        id: column.id,
        kind: kind_of(&item.expr),
        nullable: item.nullable,
    })
}

fn own_column(alloc: Global, id: u64, item: &Item) -> Result<ScopeColumn, OutOfMemory>
    ensures { IfOk result (λ c. c ≡ rules.fresh_column id item.now.name (its_kind item.now.expr) item.now.nullable) }
{
    Ok(fresh_column(
        alloc,
        id,
        item.name.copy(alloc)?,
        kind_of(&item.expr),
        item.nullable,
    ))
}

/// A column of its own, without a qualifier.
pub fn fresh_column(
    alloc: Global,
    id: u64,
    name: Text,
    kind: DataType,
    nullable: bool,
) -> ScopeColumn
    ensures { result ≡ rules.fresh_column id name kind nullable }
{
    ScopeColumn {
        qualifier: List::new(alloc),
        name,
        id,
        kind,
        nullable,
    }
}

/// The items' expressions.
#[tactic(auto, using(crate::proofs::Numbered::map_steps))]
pub fn exprs_of(alloc: Global, items: &[Item]) -> Result<List<TypedExpr>, OutOfMemory>
    ensures { IfOk result (λ exprs. exprs ≡ rules.exprs_of items.now) }
{
    let mut exprs = List::new(alloc);
    for item in items {
        exprs.push(item.expr.copy(alloc)?)?;
    }
    Ok(exprs)
}
