ghost use Rattle.std.specs.Prelude.{◌≡◌, ◌≤◌, ◌++◌, IfOk, OnOk};
ghost use Rattle.proto_fields.specs.Spelling.{spell};
ghost use Rattle.connect_messages.specs.Depths.{request_depth};
ghost use Rattle.expression_messages.specs.Laws.{IsReadAs};
ghost use Rattle.connect_messages.specs.Known.{IsKnownRequest, HasRequestBits};
ghost use Rattle.connect_messages.specs.Requests.{request_kind, method_asked, request_at};
ghost use Rattle.connect_messages.specs.Spelled.{request_fields};

use crate::Request;
use crate::analyze_writing::put_analyze;
use crate::execute_writing::put_execute;
use crate::request_measures::request_size;
use cn_base::{Bytes, OutOfMemory};
use proto_fields::MessageWriter;
use request_messages::{put_config, put_interrupt, put_reattach, put_release};
use std::alloc::Global;

/// Puts the request's message before what stands.
fn put_request(out: &mut MessageWriter, request: &Request) -> Result<(), OutOfMemory>
    ensures { OnOk result (out.new ≡ spell (request_fields request.now) ++ out.old) }
{
    match request {
        Request::ExecutePlan(request) => put_execute(out, request),
        Request::AnalyzePlan(request) => put_analyze(out, request),
        Request::Config(request) => put_config(out, request),
        Request::Interrupt(request) => put_interrupt(out, request),
        Request::ReattachExecute(request) => put_reattach(out, request),
        Request::ReleaseExecute(request) => put_release(out, request),
    }
}

/// The request's message in its one spelling: fields by ascending number, each varint the shortest, a scalar left out at its default, a
/// present optional one and a set member of a oneof written. No part of its plan may be outside the profile (`is_known_request` tells), and
/// messages may be nested at most 200 deep (`request_depth` tells).
pub fn encode_request(alloc: Global, request: &Request) -> Result<Bytes, OutOfMemory>
    requires known { IsKnownRequest request.now }
    requires depth { request_depth request.now ≤ 200 }
    ensures exact { IfOk result (λ bytes. bytes ≡ spell (request_fields request.now)) }

    // What is given is sound, and is read by the request's method as the request, whose numbers and texts are as those of every request that was
    // read.
    ensures read { HasRequestBits request.now
        → IfOk result (λ bytes. IsReadAs 200 (request_kind (method_asked request.now)) bytes (request_at 200 (method_asked request.now)) request.now) }
{
    let mut out = MessageWriter::with_room(alloc, request_size(request) as usize)?;
    put_request(&mut out, request)?;
    let bytes = out.finish();
    prove!(bytes.len() <= usize::MAX);
    Ok(bytes)
}
