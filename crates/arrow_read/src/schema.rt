ghost use Rattle.std.specs.Prelude.{◌≡◌, ◌≢◌, ◌≤◌, ◌+◌, length, map, sum_by, Ok, Err, IfOk, IfErr};
ghost use Rattle.arrow_read.specs.Tables.{fields_from, schema_in as said_schema_in, first_header as said_first};
ghost use Rattle.arrow_read.specs.Reading.{or_fault, unsupported as said_unsupported, field_of, schema_of as said_schema, first_message as said_message};

use crate::ArrowFault;
use crate::field::{RawField, field_in};
use crate::head::{Head, head_in};
use crate::message::{body_at, metadata_at, metadata_size};
use crate::room::left;
use cn_base::{List, OutOfMemory, Text};
use cn_types::{DataType, Field, Schema};
use flat_tables::{Table, Vector};
use std::alloc::Global;

/// All fields of a schema, if there is room for their names, which may share bytes.
fn fields_in<'a>(
    alloc: Global,
    fields: &Vector<'a>,
    room: usize,
) -> Result<List<RawField<'a>>, ArrowFault>
    requires { fields.now.width ≡ 4 }
    ensures names { IfOk result (λ found. sum_by (λ field. length field.name) found ≤ room) }
    ensures ok { IfOk result (λ found. or_fault (ArrowFault.BadTable 0) (fields_from fields.now 0 fields.now.count) ≡ Ok found) }
    ensures refused { IfErr result (λ e. e ≢ ArrowFault.OutOfMemory → or_fault (ArrowFault.BadTable 0) (fields_from fields.now 0 fields.now.count) ≡ Err e) }
{
    let mut found = List::new(alloc);
    let mut names = room;
    for place in 0..fields.len() {
        let Some(field) = field_in(fields, place) else {
            return Err(ArrowFault::BadTable { at: 0 });
        };
        names = left(names, field.name.len())?;
        found.push(field)?;
    }
    Ok(found)
}

/// The fields of a schema (Schema.fbs), or none where its numbers are big-endian.
#[tactic(auto, unfolding(crate::specs::Tables::schema_in))]
fn schema_in<'a>(
    alloc: Global,
    header: &Table<'a>,
    room: usize,
) -> Result<Option<List<RawField<'a>>>, ArrowFault>
    ensures ok { IfOk result (λ found. or_fault (ArrowFault.BadTable 0) (said_schema_in header.now) ≡ Ok found) }
    ensures refused { IfErr result (λ e. e ≢ ArrowFault.OutOfMemory → or_fault (ArrowFault.BadTable 0) (said_schema_in header.now) ≡ Err e) }
{
    let Ok(endianness) = header.i16_at(0) else {
        return Err(ArrowFault::BadTable { at: 0 });
    };
    let Ok(Some(vector)) = header.vector_at(1, 4) else {
        return Err(ArrowFault::BadTable { at: 0 });
    };
    let fields = fields_in(alloc, &vector, room)?;
    if endianness.unwrap_or(0) == 0 {
        Ok(Some(fields))
    } else {
        Ok(None)
    }
}

/// The first message's header, where it is a schema, or none for another header. It isn't a batch.
fn first_header<'a>(
    alloc: Global,
    head: &Head<'a>,
    room: usize,
) -> Result<Option<List<RawField<'a>>>, ArrowFault>
    ensures ok { IfOk result (λ found. or_fault (ArrowFault.BadTable 0) (said_first head.now) ≡ Ok found) }
    ensures refused { IfErr result (λ e. e ≢ ArrowFault.OutOfMemory → or_fault (ArrowFault.BadTable 0) (said_first head.now) ≡ Err e) }
{
    match head.number {
        1 => schema_in(alloc, &head.header, room),
        3 => Err(ArrowFault::BadTable { at: 0 }),
        _ => Ok(None),
    }
}

/// The first field of another type.
fn unsupported(fields: &[RawField]) -> Option<usize>
    ensures { result ≡ said_unsupported fields.now }
{
    fields.iter().position(|field| field.kind.is_none())
}

fn columns_of(alloc: Global, fields: &[RawField]) -> Result<List<Field>, OutOfMemory>
    ensures { IfOk result (λ columns. columns ≡ map field_of fields.now) }
{
    let mut columns = List::new(alloc);
    for field in fields {
        columns.push(Field {
            name: Text::of(alloc, field.name)?,
            kind: field.kind.unwrap_or(DataType::Text),
            nullable: field.nullable,
        })?;
    }
    Ok(columns)
}

/// The schema of the fields, all of which have one of the five types.
fn schema_of(alloc: Global, fields: &Option<List<RawField>>) -> Result<Schema, ArrowFault>
    ensures ok { IfOk result (λ schema. said_schema fields.now ≡ Ok schema) }
    ensures refused { IfErr result (λ e. e ≢ ArrowFault.OutOfMemory → said_schema fields.now ≡ Err e) }
{
    let Some(fields) = fields else {
        return Err(ArrowFault::UnsupportedType { field: 0 });
    };
    if let Some(field) = unsupported(fields.as_slice()) {
        return Err(ArrowFault::UnsupportedType { field });
    }
    Ok(Schema(columns_of(alloc, fields.as_slice())?))
}

/// What the first message says, a schema, and where the next message stands. The error is the message's first fault.
#[tactic(auto, unfolding(crate::specs::Reading::first_message))]
pub(crate) fn first_message(
    alloc: Global,
    bytes: &[u8],
    room: usize,
) -> Result<(Schema, usize), ArrowFault>
    ensures ok { IfOk result (λ begun. said_message bytes.now ≡ Ok (begun.0, begun.1)) }
    ensures within { IfOk result (λ begun. begun.1 ≤ length bytes.now) }
    ensures refused { IfErr result (λ e. e ≢ ArrowFault.OutOfMemory → said_message bytes.now ≡ Err e) }
{
    let size = metadata_size(bytes, 0)?;
    if size == 0 {
        return Err(ArrowFault::Truncated);
    }
    let Some(head) = head_in(metadata_at(bytes, 0, size)) else {
        return Err(ArrowFault::BadTable { at: 0 });
    };
    let fields = first_header(alloc, &head, room)?;
    let schema = schema_of(alloc, &fields)?;
    let body = body_at(bytes, 8 + size, head.body)?;
    Ok((schema, 8 + size + body.len()))
}
