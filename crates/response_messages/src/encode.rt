ghost use Rattle.std.specs.Prelude.{◌≡◌, ◌≤◌, ◌++◌, IfOk, OnOk};
ghost use Rattle.proto_fields.specs.Spelling.{spell};
ghost use Rattle.response_messages.specs.Depths.{response_depth};
ghost use Rattle.expression_messages.specs.Laws.{IsReadAs};
ghost use Rattle.response_messages.specs.Known.{IsKnownResponse, HasResponseBits};
ghost use Rattle.response_messages.specs.Responses.{response_kind, method_answered, response_at};
ghost use Rattle.response_messages.specs.Spelled.{response_fields};

use crate::Response;
use crate::answer_writing::{put_analyze, put_config, put_interrupt, put_release};
use crate::execute_writing::put_execute;
use crate::sizes::response_size;
use cn_base::{Bytes, OutOfMemory};
use proto_fields::MessageWriter;
use std::alloc::Global;

/// Puts the response's message before what stands.
fn put_response(out: &mut MessageWriter, response: &Response) -> Result<(), OutOfMemory>
    ensures { OnOk result (out.new ≡ spell (response_fields response.now) ++ out.old) }
{
    match response {
        Response::ExecutePlan(response) => put_execute(out, response),
        Response::AnalyzePlan(response) => put_analyze(out, response),
        Response::Config(response) => put_config(out, response),
        Response::Interrupt(response) => put_interrupt(out, response),
        Response::ReattachExecute(response) => put_execute(out, response),
        Response::ReleaseExecute(response) => put_release(out, response),
    }
}

/// The response's message in its one spelling: fields by ascending number, each varint the shortest, a scalar left out at its default, a
/// present optional one and a set member of a oneof written. No type in it may be outside the profile (`is_known_response` tells), and
/// messages may be nested at most 200 deep (`response_depth` tells).
pub fn encode_response(alloc: Global, response: &Response) -> Result<Bytes, OutOfMemory>
    requires known { IsKnownResponse response.now }
    requires depth { response_depth response.now ≤ 200 }
    ensures exact { IfOk result (λ bytes. bytes ≡ spell (response_fields response.now)) }

    // What is given is sound, and is read by the response's method as the response, whose numbers and texts are as those of every response that
    // was read.
    ensures read { HasResponseBits response.now
        → IfOk result (λ bytes. IsReadAs 200 (response_kind (method_answered response.now)) bytes (response_at 200 (method_answered response.now)) response.now) }
{
    let mut out = MessageWriter::with_room(alloc, response_size(response) as usize)?;
    put_response(&mut out, response)?;
    let bytes = out.finish();
    prove!(bytes.len() <= usize::MAX);
    Ok(bytes)
}
