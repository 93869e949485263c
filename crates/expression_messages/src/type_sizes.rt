ghost use Rattle.std.specs.Prelude.{◌≡◌, ◌-◌, ◌^◌, min};
ghost use Rattle.proto_fields.specs.Sizes.{size_of};
ghost use Rattle.expression_messages.specs.Depths as depths;
ghost use Rattle.expression_messages.specs.Spelled as spelled;

use crate::{StructField, TypeMessage};
use proto_fields::{bool_size, message_size, payload_size, text_size};

/// How many bytes the type's message takes; 2^64 - 1 where it is above that. It takes no memory.
#[cycle(type_sizes)]
#[tactic(auto, using(crate::proofs::TypeCases::type_spellings, crate::proofs::Measured::size_of_nil))]
pub fn type_size(kind: &TypeMessage) -> u64
    ensures { result ≡ size_of (spelled.type_fields kind.now) }
{
    match kind {
        TypeMessage::Null => payload_size(1, 0),
        TypeMessage::Boolean => payload_size(3, 0),
        TypeMessage::Byte => payload_size(4, 0),
        TypeMessage::Short => payload_size(5, 0),
        TypeMessage::Integer => payload_size(6, 0),
        TypeMessage::Long => payload_size(7, 0),
        TypeMessage::String => payload_size(11, 0),
        TypeMessage::Date => payload_size(14, 0),
        TypeMessage::Struct(fields) => message_size(21, struct_fields_size(fields.as_slice())),
        TypeMessage::Other(_) => 0,
    }
}

/// How many bytes the fields of a struct take; 2^64 - 1 where it is above that.
#[cycle(type_sizes)]
fn struct_fields_size(fields: &[StructField]) -> u64
    ensures { result ≡ size_of (spelled.struct_type_fields spelled.type_fields fields.now) }
{
    let mut total = 0u64;
    for field in fields {
        let data_type = message_size(2, type_size(&field.data_type));
        let size = text_size(1, field.name.as_str())
            .saturating_add(data_type)
            .saturating_add(bool_size(3, field.nullable));
        total = total.saturating_add(message_size(1, size));
    }
    total
}
