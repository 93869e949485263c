ghost use Rattle.std.specs.Prelude.{◌≡◌, ◌++◌, OnOk};
ghost use Rattle.proto_fields.specs.Sizes.{size_of};
ghost use Rattle.proto_fields.specs.Spelling.{spell};
ghost use Rattle.expression_messages.specs.Spelled as spelled;

use crate::message::put_message_head;
use crate::{StructField, TypeMessage};
use cn_base::OutOfMemory;
use proto_fields::MessageWriter;

/// Puts the type's message before what stands. A type outside the profile has no fields. Where memory runs out, nothing is promised of what
/// stands then.
#[cycle(put_types)]
#[tactic(auto, using(crate::proofs::TypeCases::type_spellings, crate::proofs::Written::spell_nil))]
pub fn put_type(out: &mut MessageWriter, kind: &TypeMessage) -> Result<(), OutOfMemory>
    ensures { OnOk result (out.new ≡ spell (spelled.type_fields kind.now) ++ out.old) }
{
    match kind {
        TypeMessage::Null => out.put_payload(1, &[]),
        TypeMessage::Boolean => out.put_payload(3, &[]),
        TypeMessage::Byte => out.put_payload(4, &[]),
        TypeMessage::Short => out.put_payload(5, &[]),
        TypeMessage::Integer => out.put_payload(6, &[]),
        TypeMessage::Long => out.put_payload(7, &[]),
        TypeMessage::String => out.put_payload(11, &[]),
        TypeMessage::Date => out.put_payload(14, &[]),
        TypeMessage::Struct(fields) => {
            let end = out.len();
            put_struct_fields(out, fields.as_slice())?;
            put_message_head(out, 21, end)
        }
        TypeMessage::Other(_) => Ok(()),
    }
}

/// Puts the fields of a struct before what stands.
#[cycle(put_types)]
fn put_struct_fields(out: &mut MessageWriter, fields: &[StructField]) -> Result<(), OutOfMemory>
    ensures { OnOk result (out.new
        ≡ spell (spelled.struct_type_fields spelled.type_fields fields.now) ++ out.old) }
{
    for index in (0..fields.len()).rev() {
        let field = &fields[index];
        let end = out.len();
        out.put_bool(3, field.nullable)?;
        let type_end = out.len();
        put_type(out, &field.data_type)?;
        put_message_head(out, 2, type_end)?;
        out.put_text(1, field.name.as_str())?;
        put_message_head(out, 1, end)?;
    }
    Ok(())
}
