ghost use Rattle.std.specs.Prelude.{◌≡◌, ◌≢◌, ◌↔◌, map, IfOk, IfErr, option_map, is_none, position};
ghost use Rattle.std.specs.List.{list_all};
ghost use Rattle.serde_json.specs.View.{view};
ghost use Rattle.serde_json.specs.Errors.{IsMemory};
ghost use Rattle.cn_types.specs.JsonLaws.{NoStructIsRefused};
ghost use Rattle.cn_types.specs.Json.{text_at as said_at, kind_named as named_kind, kind_of as said_kind, nullable_of as said_nullable, is_field as says_field, column_of, struct_fields as said_fields, schema_of as said_schema, items_at as items_under};

use crate::{DataType, Field, Schema, SchemaFault};
use cn_base::{List, OutOfMemory, Text};
use serde_json::{Category, Error, Value};
use std::alloc::Global;

/// The schema that a JSON value says.
pub(crate) fn schema_of(alloc: Global, value: &Value) -> Result<Schema, SchemaFault>
    ensures ok { IfOk result (λ s. said_schema (view value.now) ≡ Ok s) }
    ensures refused { IfErr result (λ e. e ≢ SchemaFault.OutOfMemory → said_schema (view value.now) ≡ Err e) }
{
    let Some(fields) = struct_fields(value) else {
        return Err(SchemaFault::NotStruct);
    };
    if !are_fields(fields) {
        return Err(SchemaFault::NotStruct);
    }
    if let Some(place) = unknown_type_in(fields) {
        return Err(SchemaFault::UnknownType { place });
    }
    Ok(Schema(columns_of(alloc, fields)?))
}

/// Why serde_json read no value: the text is no JSON, or there was no memory.
pub(crate) fn fault_of(error: &Error) -> SchemaFault
    ensures memory { (result ≡ SchemaFault.OutOfMemory) ↔ IsMemory error.now }
    ensures text { result ≢ SchemaFault.OutOfMemory → result ≡ SchemaFault.NotJson }
{
    match error.classify() {
        Category::Memory => SchemaFault::OutOfMemory,
        _ => SchemaFault::NotJson,
    }
}

fn are_fields(fields: &[Value]) -> bool
    ensures { result ≡ list_all (λ field. says_field (view field)) fields.now }
{
    fields.iter().all(|field| is_field(field))
}

/// The place of the first field that has none of the five types.
fn unknown_type_in(fields: &[Value]) -> Option<usize>
    ensures { result ≡ position (λ field. is_none (said_kind (view field))) fields.now }
{
    fields.iter().position(|field| kind_of(field).is_none())
}

#[tactic(auto, unfolding(crate::specs::Json::column_of))]
fn columns_of(alloc: Global, fields: &[Value]) -> Result<List<Field>, OutOfMemory>
    ensures { IfOk result (λ columns. columns ≡ map (λ field. column_of (view field)) fields.now) }
{
    let mut columns = List::new(alloc);
    for field in fields {
        columns.push(Field {
            name: Text::of(alloc, text_at(field, "name").unwrap_or(""))?,
            kind: kind_of(field).unwrap_or(DataType::Text),
            nullable: nullable_of(field).unwrap_or(true),
        })?;
    }
    Ok(columns)
}

#[tactic(auto, unfolding(crate::specs::Json::struct_fields))]
fn struct_fields(value: &Value) -> Option<&[Value]>
    ensures { option_map (λ fields. map view fields.now) result ≡ said_fields (view value.now) }
{
    match (text_at(value, "type"), items_at(value, "fields")) {
        (Some("struct"), Some(fields)) => Some(fields),
        _ => None,
    }
}

#[tactic(auto, using(crate::proofs::JsonFacts::items_in_items_of))]
fn items_at<'v>(value: &'v Value, key: &str) -> Option<&'v [Value]>
    ensures { option_map (λ items. map view items.now) result
        ≡ items_under key.now (view value.now) }
{
    Some(value.get(key)?.as_array()?.as_slice())
}

#[tactic(auto, unfolding(crate::specs::Json::is_field))]
fn is_field(value: &Value) -> bool
    ensures { result ≡ says_field (view value.now) }
{
    text_at(value, "name").is_some() && nullable_of(value).is_some()
}

#[tactic(auto, unfolding(crate::specs::Json::kind_of))]
fn kind_of(field: &Value) -> Option<DataType>
    ensures { result ≡ said_kind (view field.now) }
{
    kind_named(text_at(field, "type")?)
}

fn kind_named(name: &str) -> Option<DataType>
    ensures { result ≡ named_kind name.now }
{
    match name {
        "boolean" => Some(DataType::Boolean),
        "integer" => Some(DataType::Integer),
        "long" => Some(DataType::Long),
        "string" => Some(DataType::Text),
        "date" => Some(DataType::Date),
        _ => None,
    }
}

#[tactic(auto, unfolding(crate::specs::Json::nullable_of))]
fn nullable_of(field: &Value) -> Option<bool>
    ensures { result ≡ said_nullable (view field.now) }
{
    match field.get("nullable") {
        Some(value) => value.as_bool(),
        None => Some(true),
    }
}

fn text_at<'v>(value: &'v Value, key: &str) -> Option<&'v str>
    ensures { option_map (λ text. text.now) result ≡ said_at key.now (view value.now) }
{
    value.get(key)?.as_str()
}

/// Law: a JSON value is refused as no struct exactly where it is no object with `"type":"struct"` and a list `fields` of objects with a
/// text `name`, whose `nullable`, where it is there, is a truth value.
pub fn no_struct_is_refused()
    ensures { NoStructIsRefused }
{}
