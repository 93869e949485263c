ghost use Rattle.std.specs.Prelude.{◌≡◌, ◌<◌, ◌^◌, length, map, IfOk};
ghost use Rattle.flat_tables.specs.declared.object.FlatObject.{FlatObject};
ghost use Rattle.arrow_ipc.specs.Messages.{type_number, type_table, field_table, schema_table, batch_table, message_table, schema_message};

use cn_base::{Copied, List, OutOfMemory};
use cn_types::{DataType, Field, Schema};
use flat_tables::{FlatObject, FlatPair, FlatSlot};
use std::alloc::Global;

/// A table with these slots.
fn table<const N: usize>(alloc: Global, slots: [FlatSlot; N]) -> Result<FlatObject, OutOfMemory>
    ensures { IfOk result (λ object. object ≡ FlatObject.Table slots.entry) }
{
    Ok(FlatObject::Table(List::from_vec(Vec::from_array(alloc, slots)?)))
}

/// The number of a type in the union `Type`.
fn type_number(kind: DataType) -> u8
    ensures { result ≡ type_number kind }
{
    match kind {
        DataType::Boolean => 6,
        DataType::Integer => 2,
        DataType::Long => 2,
        DataType::Text => 5,
        DataType::Date => 8,
    }
}

#[tactic(auto, unfolding(crate::specs::Messages::type_table))]
fn type_table(alloc: Global, kind: DataType) -> Result<FlatObject, OutOfMemory>
    ensures { IfOk result (λ object. object ≡ type_table kind) }
{
    match kind {
        DataType::Boolean => table(alloc, []),
        DataType::Integer => table(alloc, [FlatSlot::I32(32), FlatSlot::U8(1)]),
        DataType::Long => table(alloc, [FlatSlot::I32(64), FlatSlot::U8(1)]),
        DataType::Text => table(alloc, []),
        DataType::Date => table(alloc, [FlatSlot::I16(0)]),
    }
}

#[tactic(auto, unfolding(crate::specs::Messages::field_table))]
fn field_table(alloc: Global, field: &Field) -> Result<FlatObject, OutOfMemory>
    ensures { IfOk result (λ object. object ≡ field_table field.now) }
{
    let name = FlatObject::Text(field.name.copy(alloc)?);
    let kind = type_table(alloc, field.kind)?;
    let children = FlatObject::Tables(List::new(alloc));
    table(
        alloc,
        [
            FlatSlot::Object(name),
            FlatSlot::U8(u8::from(field.nullable)),
            FlatSlot::U8(type_number(field.kind)),
            FlatSlot::Object(kind),
            FlatSlot::Absent,
            FlatSlot::Object(children),
        ],
    )
}

fn field_tables(alloc: Global, fields: &[Field]) -> Result<List<FlatObject>, OutOfMemory>
    ensures { IfOk result (λ tables. tables ≡ map field_table fields.now) }
{
    let mut tables = List::new(alloc);
    for field in fields {
        tables.push(field_table(alloc, field)?)?;
    }
    Ok(tables)
}

#[tactic(auto, unfolding(crate::specs::Messages::schema_table))]
fn schema_table(alloc: Global, schema: &Schema) -> Result<FlatObject, OutOfMemory>
    ensures { IfOk result (λ object. object ≡ schema_table schema.now) }
{
    let fields = FlatObject::Tables(field_tables(alloc, schema.0.as_slice())?);
    table(alloc, [FlatSlot::I16(0), FlatSlot::Object(fields)])
}

#[tactic(auto, unfolding(crate::specs::Messages::message_table))]
fn message_table(
    alloc: Global,
    number: u8,
    header: FlatObject,
    body: usize,
) -> Result<FlatObject, OutOfMemory>
    requires { body < 2 ^ 63 }
    ensures { IfOk result (λ object. object ≡ message_table number header body) }
{
    table(
        alloc,
        [
            FlatSlot::I16(4),
            FlatSlot::U8(number),
            FlatSlot::Object(header),
            FlatSlot::I64(body as i64),
        ],
    )
}

/// The message of a schema, which has no body.
#[tactic(auto, unfolding(crate::specs::Messages::schema_message))]
pub(crate) fn schema_message(alloc: Global, schema: &Schema) -> Result<FlatObject, OutOfMemory>
    ensures { IfOk result (λ object. object ≡ schema_message schema.now) }
{
    message_table(alloc, 1, schema_table(alloc, schema)?, 0)
}

/// The message of a batch of `count` rows with a body of `body` bytes.
#[tactic(auto, unfolding(crate::specs::Messages::batch_table))]
pub(crate) fn batch_message(
    alloc: Global,
    count: usize,
    nodes: List<FlatPair>,
    spans: List<FlatPair>,
    body: usize,
) -> Result<FlatObject, OutOfMemory>
    requires count { count < 2 ^ 63 }
    requires body { body < 2 ^ 63 }
    ensures { IfOk result (λ object. object ≡ message_table 3 (batch_table count nodes spans) body) }
{
    let header = table(
        alloc,
        [
            FlatSlot::I64(count as i64),
            FlatSlot::Object(FlatObject::Pairs(nodes)),
            FlatSlot::Object(FlatObject::Pairs(spans)),
        ],
    )?;
    message_table(alloc, 3, header, body)
}
