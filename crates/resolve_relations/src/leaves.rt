ghost use Rattle.std.specs.Prelude.{◌≡◌, ◌≢◌, IfOk, IfErr, Ok, Err};
ghost use Rattle.std.specs.Option.{option_copied};
ghost use Rattle.resolve_names.specs.declared.error.ResolveStop.TheVariants.{OutOfMemory as no_memory};
ghost use Rattle.table_store.specs.Names as names;
ghost use Rattle.resolve_relations.specs.Columns as columns_of;
ghost use Rattle.resolve_relations.specs.Making as rules;

use crate::found::Found;
use crate::limits::signed_stop;
use crate::made::{fresh_column, id_at};
use cn_base::{Copied, List, OutOfMemory, Text};
use cn_types::{DataType, Field, Schema};
use plan_model::Node;
use resolve_names::{
    ColumnList, ErrorName, ResolveStop, ScopeColumn, analysis_stop, identifier_parts,
};
use std::alloc::Global;
use table_store::{NamedTable, Tables};

/// The longs from `start` by `step` before `end`, in a column `id` whose own id is `base`. BadNumber tells a step of 0.
#[tactic(auto, unfolding(crate::specs::Making::range_rule))]
pub fn range(
    alloc: Global,
    base: u64,
    start: i64,
    end: i64,
    step: i64,
) -> Result<Found, ResolveStop>
    ensures ok { IfOk result (λ found. rules.range_rule (columns_of.ids_from base) start end step ≡ Ok found) }
    ensures refused { IfErr result (λ e. e ≢ no_memory → rules.range_rule (columns_of.ids_from base) start end step ≡ Err e) }
{
    if step == 0 {
        return Err(signed_stop(alloc, ErrorName::BadNumber, step));
    }
    let id = id_at(base, 0)?;
    let name = Text::of(alloc, "id")?;
    let mut columns = List::new(alloc);
    columns.push(fresh_column(alloc, id, name, DataType::Long, false))?;
    Ok(Found {
        node: Node::Range { start, end, step },
        columns: ColumnList::of(alloc, columns)?,
        relations: List::new(alloc),
    })
}

/// The table of a name, whose rows are shared. BadIdentifier tells a text that names no table; TableOrViewNotFound tells that there is none of
/// that name.
#[tactic(auto, unfolding(crate::specs::Making::read_rule))]
pub fn read(
    alloc: Global,
    base: u64,
    tables: &Tables,
    identifier: &Text,
) -> Result<Found, ResolveStop>
    ensures ok { IfOk result (λ found. rules.read_rule (columns_of.ids_from base) tables.now.named identifier.now ≡ Ok found) }
    ensures refused { IfErr result (λ e. e ≢ no_memory → rules.read_rule (columns_of.ids_from base) tables.now.named identifier.now ≡ Err e) }
{
    let name = table_name(alloc, identifier)?;
    match table_named(tables, &name) {
        Some(table) => table_found(alloc, base, table),
        None => Err(analysis_stop(alloc, ErrorName::TableOrViewNotFound, identifier.as_str())),
    }
}

fn table_named<'a>(tables: &'a Tables, name: &Text) -> Option<&'a NamedTable>
    ensures { option_copied result ≡ names.table_named name.now tables.now.named }
{
    tables.named.as_slice().iter().find(|table| name
        .as_str()
        .eq_ignore_ascii_case(table.name.as_str()))
}

/// The name of a table by its identifier: one part, or two of which the first is `default`. BadIdentifier tells any other text.
#[tactic(auto, unfolding(crate::specs::Making::table_name, resolve_names::specs::Scopes::parts_of))]
pub fn table_name(alloc: Global, identifier: &Text) -> Result<Text, ResolveStop>
    ensures ok { IfOk result (λ name. rules.table_name identifier.now ≡ Ok name) }
    ensures refused { IfErr result (λ e. e ≢ no_memory → rules.table_name identifier.now ≡ Err e) }
{
    match identifier_parts(alloc, identifier.as_str())? {
        Some(parts) => name_in(alloc, identifier, parts.as_slice()),
        None => Err(analysis_stop(alloc, ErrorName::BadIdentifier, identifier.as_str())),
    }
}

fn name_in(alloc: Global, identifier: &Text, parts: &[Text]) -> Result<Text, ResolveStop>
    ensures ok { IfOk result (λ name. rules.name_in identifier.now parts.now ≡ Ok name) }
    ensures refused { IfErr result (λ e. e ≢ no_memory → rules.name_in identifier.now parts.now ≡ Err e) }
{
    match parts {
        [name] => Ok(name.copy(alloc)?),
        [first, name] if first.as_str().eq_ignore_ascii_case("default") => Ok(name.copy(alloc)?),
        _ => Err(analysis_stop(alloc, ErrorName::BadIdentifier, identifier.as_str())),
    }
}

fn table_found(alloc: Global, base: u64, table: &NamedTable) -> Result<Found, ResolveStop>
    ensures ok { IfOk result (λ found. found ≡ rules.table_found (columns_of.ids_from base) table.now) }
    ensures refused { IfErr result (λ e. e ≡ no_memory) }
{
    let columns = table_columns(alloc, base, &table.name, &table.schema)?;
    Ok(Found {
        node: Node::Rows {
            schema: table.schema.copy(alloc)?,
            rows: table.rows.share()?,
        },
        columns: ColumnList::of(alloc, columns)?,
        relations: List::new(alloc),
    })
}

#[tactic(auto, using(crate::proofs::Numbered::number_steps))]
fn table_columns(
    alloc: Global,
    base: u64,
    name: &Text,
    schema: &Schema,
) -> Result<List<ScopeColumn>, OutOfMemory>
    ensures { IfOk result (λ columns. columns ≡ columns_of.numbered (rules.table_column (columns_of.ids_from base) name.now) schema.now.0) }
{
    let mut columns = List::new(alloc);
    for (number, field) in schema.0.as_slice().iter().enumerate() {
        columns.push(table_column(alloc, base, number, name, field)?)?;
    }
    Ok(columns)
}

fn table_column(
    alloc: Global,
    base: u64,
    number: usize,
    name: &Text,
    field: &Field,
) -> Result<ScopeColumn, OutOfMemory>
    ensures { IfOk result (λ c. c ≡ rules.table_column (columns_of.ids_from base) name.now number field.now) }
{
    let id = id_at(base, number)?;
    let mut qualifier = List::new(alloc);
    qualifier.push(name.copy(alloc)?)?;
    Ok(ScopeColumn {
        qualifier,
        name: field.name.copy(alloc)?,
        id,
        kind: field.kind,
        nullable: field.nullable,
    })
}
