ghost use Rattle.std.specs.Prelude.{◌≡◌, Ok, Err, IfOk, IfErr};
ghost use Rattle.proto_fields.specs.declared.fault.MessageFault.{MessageFault};
ghost use Rattle.proto_fields.specs.Faults.{IsSound, IsCause, HasFault, Gives};
ghost use Rattle.proto_fields.specs.Fields.{fields_of};
ghost use Rattle.proto_fields.specs.Views.{seen};
ghost use Rattle.connect_messages.specs.Known.{HasRequestBits};
ghost use Rattle.connect_messages.specs.Requests as requests;

use crate::Request;
use crate::analyze::analyze_from;
use crate::execute::execute_from;
use cn_base::OutOfMemory;
use proto_fields::{MessageFault, MessageKind, Record, find_fault, records};
use request_messages::{config_from, interrupt_from, reattach_from, release_from};
use response_messages::Method;
use std::alloc::Global;

/// The levels of nesting that a message may have, its own among them.
const MOST_LEVELS: u32 = 200;

/// The message that a method is asked with.
fn request_kind(method: Method) -> MessageKind
    ensures { result ≡ requests.request_kind method }
{
    match method {
        Method::ExecutePlan => MessageKind::ExecutePlanRequest,
        Method::AnalyzePlan => MessageKind::AnalyzePlanRequest,
        Method::Config => MessageKind::ConfigRequest,
        Method::Interrupt => MessageKind::InterruptRequest,
        Method::ReattachExecute => MessageKind::ReattachExecuteRequest,
        Method::ReleaseExecute => MessageKind::ReleaseExecuteRequest,
    }
}

/// The request of this method that a message's records hold, with so many levels of nesting at most, its own among them.
fn request_from(
    alloc: Global,
    method: Method,
    items: &[Record],
    level: u32,
) -> Result<Request, OutOfMemory>
    ensures { IfOk result (λ request. request ≡ requests.request_at level method (seen items.now)) }
{
    match method {
        Method::ExecutePlan => Ok(Request::ExecutePlan(execute_from(alloc, items, level)?)),
        Method::AnalyzePlan => Ok(Request::AnalyzePlan(analyze_from(alloc, items, level)?)),
        Method::Config => Ok(Request::Config(config_from(alloc, items)?)),
        Method::Interrupt => Ok(Request::Interrupt(interrupt_from(alloc, items)?)),
        Method::ReattachExecute => Ok(Request::ReattachExecute(reattach_from(alloc, items)?)),
        Method::ReleaseExecute => Ok(Request::ReleaseExecute(release_from(alloc, items)?)),
    }
}

/// The request of this method that these bytes spell (Protocol Buffers, Encoding; `base.proto`). Fields outside the profile are skipped.
///
/// The error is the first fault of the message, its own before those of its payloads, with its place in the bytes: `Wire`, `NotUtf8` or
/// `TooDeep`. `OutOfMemory` says nothing of the bytes.
#[tactic(auto, using(crate::proofs::AskedValid::request_is_valid, crate::proofs::AskedValid::request_asks))]
pub fn decode_request(alloc: Global, method: Method, bytes: &[u8]) -> Result<Request, MessageFault>
    ensures sound { IfOk result (λ request. IsSound 200 (requests.request_kind method) bytes.now) }
    ensures fault { IfErr result (IsCause 200 (requests.request_kind method) bytes.now) }

    // What is read has the bits of its types and UTF-8 texts, so that it can be written again, and it asks the method.
    ensures valid { IfOk result HasRequestBits }
    ensures method { IfOk result (λ request. requests.method_asked request ≡ method) }

    // A sound message is read, and a fault is the answer.
    ensures read { IsSound 200 (requests.request_kind method) bytes.now
        → Gives result (Ok (requests.request_at 200 method (fields_of bytes.now))) }
    ensures faulty { (cause : MessageFault)
        → HasFault 200 (requests.request_kind method) 0 bytes.now cause
        → Gives result (Err cause) }
{
    find_fault(alloc, request_kind(method), bytes)?;
    let found = records(alloc, bytes)?;
    Ok(request_from(alloc, method, found.as_slice(), MOST_LEVELS)?)
}
