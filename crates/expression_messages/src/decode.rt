ghost use Rattle.std.specs.Prelude.{◌≡◌, Ok, Err, IfOk, IfErr};
ghost use Rattle.proto_fields.specs.declared.fault.MessageFault.{MessageFault};
ghost use Rattle.proto_fields.specs.declared.kind.MessageKind.{MessageKind};
ghost use Rattle.proto_fields.specs.Faults.{IsSound, IsCause, HasFault, Gives};
ghost use Rattle.proto_fields.specs.Fields.{fields_of};
ghost use Rattle.expression_messages.specs.Known.{HasTypeBits};
ghost use Rattle.expression_messages.specs.Types.{type_at};

use crate::TypeMessage;
use crate::type_reading::type_from;
use proto_fields::{MessageFault, MessageKind, find_fault, records};
use std::alloc::Global;

/// The levels of nesting that a message may have, its own among them.
const MOST_LEVELS: u32 = 200;

/// The type that these bytes spell (Protocol Buffers, Encoding; `types.proto`, DataType). Fields outside the profile are skipped.
///
/// The error is the first fault of the message, its own before those of its payloads, with its place in the bytes: `Wire`, `NotUtf8` or
/// `TooDeep`. `OutOfMemory` says nothing of the bytes.
#[tactic(auto, using(crate::proofs::Valid::type_is_valid))]
pub fn decode_type(alloc: Global, bytes: &[u8]) -> Result<TypeMessage, MessageFault>
    ensures sound { IfOk result (λ kind. IsSound 200 MessageKind.DataType bytes.now) }
    ensures fault { IfErr result (IsCause 200 MessageKind.DataType bytes.now) }

    // What is read has UTF-8 texts, so that it can be written again.
    ensures valid { IfOk result HasTypeBits }

    // A sound message is read, and a fault is the answer.
    ensures read { IsSound 200 MessageKind.DataType bytes.now
        → Gives result (Ok (type_at 200 (fields_of bytes.now))) }
    ensures faulty { (cause : MessageFault) → HasFault 200 MessageKind.DataType 0 bytes.now cause
        → Gives result (Err cause) }
{
    find_fault(alloc, MessageKind::DataType, bytes)?;
    let found = records(alloc, bytes)?;
    Ok(type_from(alloc, found.as_slice(), MOST_LEVELS)?)
}
