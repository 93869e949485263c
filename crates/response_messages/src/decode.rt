ghost use Rattle.std.specs.Prelude.{◌≡◌, Ok, Err, IfOk, IfErr};
ghost use Rattle.proto_fields.specs.declared.fault.MessageFault.{MessageFault};
ghost use Rattle.proto_fields.specs.Faults.{IsSound, IsCause, HasFault, Gives};
ghost use Rattle.proto_fields.specs.Fields.{fields_of};
ghost use Rattle.proto_fields.specs.Views.{seen};
ghost use Rattle.response_messages.specs.Known.{HasResponseBits};
ghost use Rattle.response_messages.specs.Responses as responses;

use crate::answer_reading::{analyze_from, config_from, interrupt_from, release_from};
use crate::execute_reading::execute_from;
use crate::{Method, Response};
use cn_base::OutOfMemory;
use proto_fields::{MessageFault, MessageKind, Record, find_fault, records};
use std::alloc::Global;

/// The levels of nesting that a message may have, its own among them.
const MOST_LEVELS: u32 = 200;

/// The message that a method answers.
fn response_kind(method: Method) -> MessageKind
    ensures { result ≡ responses.response_kind method }
{
    match method {
        Method::ExecutePlan => MessageKind::ExecutePlanResponse,
        Method::AnalyzePlan => MessageKind::AnalyzePlanResponse,
        Method::Config => MessageKind::ConfigResponse,
        Method::Interrupt => MessageKind::InterruptResponse,
        Method::ReattachExecute => MessageKind::ExecutePlanResponse,
        Method::ReleaseExecute => MessageKind::ReleaseExecuteResponse,
    }
}

/// The response of this method that a message's records hold, with so many levels of nesting at most, its own among them.
fn response_from(
    alloc: Global,
    method: Method,
    items: &[Record],
    level: u32,
) -> Result<Response, OutOfMemory>
    ensures { IfOk result
        (λ response. response ≡ responses.response_at level method (seen items.now)) }
{
    match method {
        Method::ExecutePlan => Ok(Response::ExecutePlan(execute_from(alloc, items, level)?)),
        Method::AnalyzePlan => Ok(Response::AnalyzePlan(analyze_from(alloc, items, level)?)),
        Method::Config => Ok(Response::Config(config_from(alloc, items)?)),
        Method::Interrupt => Ok(Response::Interrupt(interrupt_from(alloc, items)?)),
        Method::ReattachExecute => {
            Ok(Response::ReattachExecute(execute_from(alloc, items, level)?))
        }
        Method::ReleaseExecute => Ok(Response::ReleaseExecute(release_from(alloc, items)?)),
    }
}

/// The response of this method that these bytes spell (Protocol Buffers, Encoding; `base.proto`). Fields outside the profile are skipped.
///
/// The error is the first fault of the message, its own before those of its payloads, with its place in the bytes: `Wire`, `NotUtf8` or
/// `TooDeep`. `OutOfMemory` says nothing of the bytes.
#[tactic(auto, using(crate::proofs::ResponsesValid::response_is_valid, crate::proofs::ResponsesValid::response_answers))]
pub fn decode_response(
    alloc: Global,
    method: Method,
    bytes: &[u8],
) -> Result<Response, MessageFault>
    ensures sound { IfOk result (λ response. IsSound 200 (responses.response_kind method) bytes.now) }
    ensures fault { IfErr result (IsCause 200 (responses.response_kind method) bytes.now) }

    // What is read has the bits of its types and UTF-8 texts, so that it can be written again, and it answers the method.
    ensures valid { IfOk result HasResponseBits }
    ensures method { IfOk result (λ response. responses.method_answered response ≡ method) }

    // A sound message is read, and a fault is the answer.
    ensures read { IsSound 200 (responses.response_kind method) bytes.now
        → Gives result (Ok (responses.response_at 200 method (fields_of bytes.now))) }
    ensures faulty { (cause : MessageFault)
        → HasFault 200 (responses.response_kind method) 0 bytes.now cause
        → Gives result (Err cause) }
{
    find_fault(alloc, response_kind(method), bytes)?;
    let found = records(alloc, bytes)?;
    Ok(response_from(alloc, method, found.as_slice(), MOST_LEVELS)?)
}
