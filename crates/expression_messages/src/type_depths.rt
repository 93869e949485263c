ghost use Rattle.std.specs.Prelude.{◌≡◌};
ghost use Rattle.expression_messages.specs.Depths as depths;

use crate::{StructField, TypeMessage};

/// How many messages are nested in the type's message, itself among them; 2^32 - 1 where there are more. It takes no memory.
#[cycle(type_depths)]
#[tactic(auto, using(crate::proofs::TypeCases::type_depths))]
pub fn type_depth(kind: &TypeMessage) -> u32
    ensures { result ≡ depths.told (depths.type_depth kind.now) }
{
    match kind {
        TypeMessage::Struct(fields) => deepest_field(fields.as_slice()).saturating_add(2),
        TypeMessage::Other(_) => 1,
        TypeMessage::Null
        | TypeMessage::Boolean
        | TypeMessage::Byte
        | TypeMessage::Short
        | TypeMessage::Integer
        | TypeMessage::Long
        | TypeMessage::String
        | TypeMessage::Date => 2,
    }
}

/// How deep the deepest field of a struct is; 0 where there is none.
#[cycle(type_depths)]
fn deepest_field(fields: &[StructField]) -> u32
    ensures { result ≡ depths.told (depths.deepest_field depths.type_depth fields.now) }
{
    let mut deepest = 0u32;
    for field in fields {
        deepest = deepest.max(type_depth(&field.data_type).saturating_add(1));
    }
    deepest
}
