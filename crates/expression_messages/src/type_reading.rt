ghost use Rattle.std.specs.Prelude.{◌≡◌, IfOk};
ghost use Rattle.proto_fields.specs.Readings.{text_field, bool_field};
ghost use Rattle.proto_fields.specs.Views.{seen};
ghost use Rattle.expression_messages.specs.Types as types;

use crate::message::message_records;
use crate::{StructField, TypeMessage};
use cn_base::{List, OutOfMemory};
use proto_fields::{MessageKind, Record, bool_field, latest, payloads, records, text_field};
use std::alloc::Global;

/// The type without fields that a member's number stands for; a number outside the profile stands for itself.
fn plain_type(number: u32) -> TypeMessage
    ensures { result ≡ types.plain_type number }
{
    match number {
        1 => TypeMessage::Null,
        3 => TypeMessage::Boolean,
        4 => TypeMessage::Byte,
        5 => TypeMessage::Short,
        6 => TypeMessage::Integer,
        7 => TypeMessage::Long,
        11 => TypeMessage::String,
        14 => TypeMessage::Date,
        _ => TypeMessage::Other(number),
    }
}

/// The type that a message's records hold, with so many levels of nesting at most, its own among them. Where no level is left, and where no
/// type is there, it is `Other(0)`.
#[cycle(types)]
pub fn type_from(alloc: Global, items: &[Record], level: u32) -> Result<TypeMessage, OutOfMemory>
    ensures { IfOk result (λ kind. kind ≡ types.type_at level (seen items.now)) }
{
    if level == 0 {
        return Ok(TypeMessage::Other(0));
    }
    // Lent again: in a cycle of calls the proof takes a parameter at its own lifetime alone.
    match latest(MessageKind::DataType, &*items) {
        Some(member) => {
            if member.number != 21 {
                return Ok(plain_type(member.number));
            }
            let found = message_records(alloc, member.since, 21)?;
            let fields = struct_fields_from(alloc, found.as_slice(), level.saturating_sub(3))?;
            Ok(TypeMessage::Struct(fields))
        }
        None => Ok(TypeMessage::Other(0)),
    }
}

/// The fields that a struct's records hold, with so many levels for the type of each.
#[cycle(types)]
fn struct_fields_from(
    alloc: Global,
    items: &[Record],
    level: u32,
) -> Result<List<StructField>, OutOfMemory>
    ensures { IfOk result
        (λ fields. fields ≡ types.struct_fields_of (types.type_at level) (seen items.now)) }
{
    let mut fields = List::new(alloc);
    for payload in payloads(alloc, items, 1)?.as_slice() {
        let found = records(alloc, *payload)?;
        let inner = message_records(alloc, found.as_slice(), 2)?;
        let data_type = type_from(alloc, inner.as_slice(), level)?;
        fields.push(struct_field_of(alloc, found.as_slice(), data_type)?)?;
    }
    Ok(fields)
}

/// The field of this type that a message's records hold.
fn struct_field_of(
    alloc: Global,
    items: &[Record],
    data_type: TypeMessage,
) -> Result<StructField, OutOfMemory>
    ensures name { IfOk result (λ field. field.name ≡ text_field 1 (seen items.now)) }
    ensures data_type { IfOk result (λ field. field.data_type ≡ data_type) }
    ensures nullable { IfOk result (λ field. field.nullable ≡ bool_field 3 (seen items.now)) }
{
    Ok(StructField {
        name: text_field(alloc, items, 1)?,
        data_type,
        nullable: bool_field(items, 3),
    })
}
