ghost use Rattle.std.specs.Prelude.{◌≡◌, ◌≤◌, IfOk};
ghost use Rattle.proto_fields.specs.Spelling.{spell};
ghost use Rattle.expression_messages.specs.Depths.{type_depth};
ghost use Rattle.proto_fields.specs.declared.kind.MessageKind.{MessageKind};
ghost use Rattle.expression_messages.specs.Known.{IsKnownType, HasTypeBits};
ghost use Rattle.expression_messages.specs.Laws.{IsReadAs};
ghost use Rattle.expression_messages.specs.Types.{type_at};
ghost use Rattle.expression_messages.specs.Spelled.{type_fields};

use crate::TypeMessage;
use crate::type_sizes::type_size;
use crate::type_writing::put_type;
use cn_base::{Bytes, OutOfMemory};
use proto_fields::MessageWriter;
use std::alloc::Global;

/// The type's message in its one spelling: fields by ascending number, each varint the shortest, a scalar left out at its default, the member
/// of a type written. No type in it may be outside the profile (`is_known_type` tells), and messages may be nested at most 200 deep
/// (`type_depth` tells).
pub fn encode_type(alloc: Global, kind: &TypeMessage) -> Result<Bytes, OutOfMemory>
    requires known { IsKnownType kind.now }
    requires depth { type_depth kind.now ≤ 200 }
    ensures exact { IfOk result (λ bytes. bytes ≡ spell (type_fields kind.now)) }

    // What is given is sound, and is read as the type, whose texts are UTF-8 as every text of a program is.
    ensures read { HasTypeBits kind.now
        → IfOk result (λ bytes. IsReadAs 200 MessageKind.DataType bytes (type_at 200) kind.now) }
{
    let mut out = MessageWriter::with_room(alloc, type_size(kind) as usize)?;
    put_type(&mut out, kind)?;
    let bytes = out.finish();
    prove!(bytes.len() <= usize::MAX);
    Ok(bytes)
}
