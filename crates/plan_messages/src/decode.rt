ghost use Rattle.std.specs.Prelude.{◌≡◌, Ok, Err, IfOk, IfErr};
ghost use Rattle.proto_fields.specs.declared.fault.MessageFault.{MessageFault};
ghost use Rattle.proto_fields.specs.declared.kind.MessageKind.{MessageKind};
ghost use Rattle.proto_fields.specs.Faults.{IsSound, IsCause, HasFault, Gives};
ghost use Rattle.proto_fields.specs.Fields.{fields_of};
ghost use Rattle.plan_messages.specs.Known.{HasPlanBits};
ghost use Rattle.plan_messages.specs.Plans.{plan_at};

use crate::Plan;
use crate::plan_reading::plan_from;
use proto_fields::{MessageFault, MessageKind, find_fault, records};
use std::alloc::Global;

/// The levels of nesting that a message may have, its own among them.
const MOST_LEVELS: u32 = 200;

/// The plan that these bytes spell (Protocol Buffers, Encoding; `base.proto`, Plan). Fields outside the profile are skipped.
///
/// The error is the first fault of the message, its own before those of its payloads, with its place in the bytes: `Wire`, `NotUtf8` or
/// `TooDeep`. `OutOfMemory` says nothing of the bytes.
#[tactic(auto, using(crate::proofs::PlanValid::plan_is_valid))]
pub fn decode_plan(alloc: Global, bytes: &[u8]) -> Result<Plan, MessageFault>
    ensures sound { IfOk result (λ plan. IsSound 200 MessageKind.Plan bytes.now) }
    ensures fault { IfErr result (IsCause 200 MessageKind.Plan bytes.now) }

    // What is read has the bits of its types and UTF-8 texts, so that it can be written again.
    ensures valid { IfOk result HasPlanBits }

    // A sound message is read, and a fault is the answer.
    ensures read { IsSound 200 MessageKind.Plan bytes.now → Gives result (Ok (plan_at 200 (fields_of bytes.now))) }
    ensures faulty { (cause : MessageFault) → HasFault 200 MessageKind.Plan 0 bytes.now cause → Gives result (Err cause) }
{
    find_fault(alloc, MessageKind::Plan, bytes)?;
    let found = records(alloc, bytes)?;
    Ok(plan_from(alloc, found.as_slice(), MOST_LEVELS)?)
}
