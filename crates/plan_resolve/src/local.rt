ghost use Rattle.std.specs.Prelude.{◌≡◌, ◌≢◌, IfOk, IfErr, Ok, Err, Some, None, zip};
ghost use Rattle.std.specs.List.{list_all, list_any};
ghost use Rattle.cn_types.specs.Json.{schema_in};
ghost use Rattle.arrow_read.specs.declared.want.Batches.TheVariants.{Any};
ghost use Rattle.arrow_read.specs.Reading.{stream_in};
ghost use Rattle.plan_model.specs.Truth.{is_present as is_there};
ghost use Rattle.resolve_names.specs.declared.error.ResolveStop.TheVariants.{Analysis, OutOfMemory as no_memory};
ghost use Rattle.resolve_relations.specs.Columns as columns_of;
ghost use Rattle.plan_resolve.specs.Local as rules;

use arrow_read::{ArrowFault, Batches, read_stream};
use cn_base::{Bytes, Copied, List, OutOfMemory, Text};
use cn_types::{Field, Row, RowList, Schema, SchemaFault, Value};
use plan_model::Node;
use resolve_names::{ColumnList, ErrorName, ResolveStop, ScopeColumn, analysis_stop};
use resolve_relations::{Found, fresh_column, id_at};
use std::alloc::Global;

/// Rows that come with a plan, under their schema.
#[derive(Debug, Drop)]
pub struct Local {
    pub schema: Schema,
    pub rows: RowList,
}

/// Rows that come with a plan: an Arrow stream, a schema's JSON text, or both; then the text has the names and says where nulls may stand.
/// BadLocalData tells that neither is there or one can't be read, that their columns have other types, and a null in a column that has none.
#[tactic(auto, unfolding(crate::specs::Local::local_rule))]
pub fn local_relation(
    alloc: Global,
    base: u64,
    payload: &Option<Bytes>,
    schema: &Option<Text>,
) -> Result<Found, ResolveStop>
    ensures ok { IfOk result (λ found. rules.local_rule (columns_of.ids_from base) payload.now schema.now ≡ Ok found) }
    ensures refused { IfErr result (λ e. e ≢ no_memory → rules.local_rule (columns_of.ids_from base) payload.now schema.now ≡ Err e) }
{
    let local = local_of(alloc, payload, schema)?;
    local_found(alloc, base, local)
}

fn bad_data(alloc: Global) -> ResolveStop
    ensures { result ≢ no_memory → result ≡ Analysis rules.bad_data }
{
    analysis_stop(alloc, ErrorName::BadLocalData, "")
}

#[tactic(auto, unfolding(crate::specs::Local::local_of))]
fn local_of(
    alloc: Global,
    payload: &Option<Bytes>,
    schema: &Option<Text>,
) -> Result<Local, ResolveStop>
    ensures ok { IfOk result (λ local. rules.local_of payload.now schema.now ≡ Ok local) }
    ensures refused { IfErr result (λ e. e ≢ no_memory → rules.local_of payload.now schema.now ≡ Err e) }
{
    match payload {
        None => match schema {
            None => Err(bad_data(alloc)),
            Some(text) => empty(alloc, text),
        },
        Some(bytes) => match schema {
            None => streamed(alloc, bytes),
            Some(text) => renamed(alloc, bytes, text),
        },
    }
}

/// No rows, under a schema's text.
#[tactic(auto, unfolding(crate::specs::Local::local_of))]
fn empty(alloc: Global, text: &Text) -> Result<Local, ResolveStop>
    ensures ok { IfOk result (λ local. rules.local_of None (Some text.now) ≡ Ok local) }
    ensures refused { IfErr result (λ e. e ≢ no_memory → rules.local_of None (Some text.now) ≡ Err e) }
{
    let schema = schema_of_text(alloc, text)?;
    let rows = RowList::of(alloc, List::new(alloc))?;
    under(alloc, schema, rows)
}

/// The rows of a stream under its own schema.
#[tactic(auto, unfolding(crate::specs::Local::local_of))]
fn streamed(alloc: Global, bytes: &Bytes) -> Result<Local, ResolveStop>
    ensures ok { IfOk result (λ local. rules.local_of (Some bytes.now) None ≡ Ok local) }
    ensures refused { IfErr result (λ e. e ≢ no_memory → rules.local_of (Some bytes.now) None ≡ Err e) }
{
    let (schema, rows) = rows_of_stream(alloc, bytes)?;
    under(alloc, schema, rows)
}

/// The rows of a stream under a schema's text.
#[tactic(auto, unfolding(crate::specs::Local::local_of))]
fn renamed(alloc: Global, bytes: &Bytes, text: &Text) -> Result<Local, ResolveStop>
    ensures ok { IfOk result (λ local. rules.local_of (Some bytes.now) (Some text.now) ≡ Ok local) }
    ensures refused { IfErr result (λ e. e ≢ no_memory → rules.local_of (Some bytes.now) (Some text.now) ≡ Err e) }
{
    let schema = schema_of_text(alloc, text)?;
    let (found, rows) = rows_of_stream(alloc, bytes)?;
    renamed_rows(alloc, schema, &found, rows)
}

#[tactic(auto, unfolding(crate::specs::Local::renamed_rows))]
fn renamed_rows(
    alloc: Global,
    schema: Schema,
    found: &Schema,
    rows: RowList,
) -> Result<Local, ResolveStop>
    ensures ok { IfOk result (λ local. rules.renamed_rows schema found.now rows ≡ Ok local) }
    ensures refused { IfErr result (λ e. e ≢ no_memory → rules.renamed_rows schema found.now rows ≡ Err e) }
{
    if !have_same_types(&schema, found) {
        return Err(bad_data(alloc));
    }
    under(alloc, schema, rows)
}

/// These rows, where no null stands in a column that has none.
fn under(alloc: Global, schema: Schema, rows: RowList) -> Result<Local, ResolveStop>
    ensures ok { IfOk result (λ local. rules.under schema rows ≡ Ok local) }
    ensures refused { IfErr result (λ e. e ≢ no_memory → rules.under schema rows ≡ Err e) }
{
    if has_misplaced_nulls(&schema, &rows) {
        return Err(bad_data(alloc));
    }
    Ok(Local { schema, rows })
}

fn has_misplaced_nulls(schema: &Schema, rows: &RowList) -> bool
    ensures { result ≡ list_any (rules.has_misplaced_null schema.now) rows.now }
{
    rows.as_slice()
        .iter()
        .any(|row| has_misplaced_null(schema, row))
}

#[tactic(auto, unfolding(crate::specs::Local::has_misplaced_null))]
fn has_misplaced_null(schema: &Schema, row: &Row) -> bool
    ensures { result ≡ rules.has_misplaced_null schema.now row.now }
{
    schema
        .0
        .as_slice()
        .iter()
        .zip(row.0.as_slice().iter())
        .any(|cell| is_misplaced(cell.0, cell.1))
}

fn is_misplaced(field: &Field, value: &Value) -> bool
    ensures { result ≡ rules.is_misplaced (field.now, value.now) }
{
    !field.nullable && !is_present(value)
}

fn is_present(value: &Value) -> bool
    ensures { result ≡ is_there value.now }
{
    match value {
        Value::Null => false,
        Value::Boolean(_) => true,
        Value::Integer(_) => true,
        Value::Long(_) => true,
        Value::Text(_) => true,
        Value::Date(_) => true,
    }
}

#[tactic(auto, unfolding(crate::specs::Local::have_same_types))]
fn have_same_types(left: &Schema, right: &Schema) -> bool
    ensures { result ≡ rules.have_same_types left.now right.now }
{
    if left.0.len() != right.0.len() {
        return false;
    }
    all_have_type_of(left.0.as_slice(), right.0.as_slice())
}

fn all_have_type_of(left: &[Field], right: &[Field]) -> bool
    ensures { result ≡ list_all rules.has_type_of (zip left.now right.now) }
{
    left.iter()
        .zip(right.iter())
        .all(|pair| has_type_of(pair.0, pair.1))
}

fn has_type_of(one: &Field, other: &Field) -> bool
    ensures { result ≡ rules.has_type_of (one.now, other.now) }
{
    one.kind == other.kind
}

/// A schema by its text.
fn schema_of_text(alloc: Global, text: &Text) -> Result<Schema, ResolveStop>
    ensures ok { IfOk result (λ schema. rules.or_bad (schema_in text.now) ≡ Ok schema) }
    ensures refused { IfErr result (λ e. e ≢ no_memory → rules.or_bad (schema_in text.now) ≡ Err e) }
{
    match Schema::from_json(alloc, text.as_str()) {
        Ok(schema) => Ok(schema),
        Err(SchemaFault::OutOfMemory) => Err(ResolveStop::OutOfMemory),
        Err(_) => Err(bad_data(alloc)),
    }
}

/// The schema and the rows of a stream.
fn rows_of_stream(alloc: Global, bytes: &Bytes) -> Result<(Schema, RowList), ResolveStop>
    ensures ok { IfOk result (λ found. rules.or_bad (stream_in bytes.now Any) ≡ Ok (found.0, found.1)) }
    ensures refused { IfErr result (λ e. e ≢ no_memory → rules.or_bad (stream_in bytes.now Any) ≡ Err e) }
{
    match read_stream(alloc, bytes.as_slice(), Batches::Any) {
        Ok(found) => Ok(found),
        Err(ArrowFault::OutOfMemory) => Err(ResolveStop::OutOfMemory),
        Err(_) => Err(bad_data(alloc)),
    }
}

fn local_found(alloc: Global, base: u64, local: Local) -> Result<Found, ResolveStop>
    ensures ok { IfOk result (λ found. found ≡ rules.local_found (columns_of.ids_from base) local) }
    ensures refused { IfErr result (λ e. e ≡ no_memory) }
{
    let Local { schema, rows } = local;
    let columns = local_columns(alloc, base, &schema)?;
    Ok(Found {
        node: Node::Rows { schema, rows },
        columns: ColumnList::of(alloc, columns)?,
        relations: List::new(alloc),
    })
}

#[tactic(auto, using(resolve_relations::proofs::Numbered::number_steps))]
fn local_columns(
    alloc: Global,
    base: u64,
    schema: &Schema,
) -> Result<List<ScopeColumn>, OutOfMemory>
    ensures { IfOk result (λ columns. columns ≡ columns_of.numbered (rules.local_column (columns_of.ids_from base)) schema.now.0) }
{
    let mut columns = List::new(alloc);
    for (number, field) in schema.0.as_slice().iter().enumerate() {
        columns.push(local_column(alloc, base, number, field)?)?;
    }
    Ok(columns)
}

fn local_column(
    alloc: Global,
    base: u64,
    number: usize,
    field: &Field,
) -> Result<ScopeColumn, OutOfMemory>
    ensures { IfOk result (λ c. c ≡ rules.local_column (columns_of.ids_from base) number field.now) }
{
    let id = id_at(base, number)?;
    Ok(fresh_column(
        alloc,
        id,
        field.name.copy(alloc)?,
        field.kind,
        field.nullable,
    ))
}
