ghost use Rattle.std.specs.Prelude.{◌≡◌, ◌++◌, OnOk};
ghost use Rattle.proto_fields.specs.Sizes.{size_of};
ghost use Rattle.proto_fields.specs.Spelling.{spell};
ghost use Rattle.request_messages.specs.Spelled as spelled;

use crate::context_field::{context_size, put_context};
use crate::{InterruptRequest, InterruptTarget};
use cn_base::OutOfMemory;
use proto_fields::{MessageWriter, int_size, payload_size, text_size};

/// Puts the member of the request's oneof before what stands.
#[tactic(auto, using(expression_messages::proofs::Written::spell_nil))]
fn put_target(out: &mut MessageWriter, target: &InterruptTarget) -> Result<(), OutOfMemory>
    ensures { OnOk result (out.new ≡ spell (spelled.interrupt_target_fields target.now) ++ out.old) }
{
    match target {
        InterruptTarget::OperationTag(tag) => out.put_payload(5, tag.as_str().as_bytes()),
        InterruptTarget::OperationId(id) => out.put_payload(6, id.as_str().as_bytes()),
        InterruptTarget::Absent => Ok(()),
    }
}

/// Puts the request's message before what stands. Where memory runs out, nothing is promised of what stands then.
#[tactic(auto, using(field_groups::proofs::Sequences::stand_four))]
pub fn put_interrupt(out: &mut MessageWriter, request: &InterruptRequest) -> Result<(), OutOfMemory>
    ensures { OnOk result (out.new ≡ spell (spelled.interrupt_fields request.now) ++ out.old) }
{
    put_target(out, &request.target)?;
    out.put_int32(4, request.interrupt_type)?;
    put_context(out, &request.user_context)?;
    out.put_text(1, request.session_id.as_str())
}

/// How many bytes the member of the request's oneof takes; 2^64 - 1 where it is above that.
#[tactic(auto, using(expression_messages::proofs::Measured::size_of_nil))]
fn target_size(target: &InterruptTarget) -> u64
    ensures { result ≡ size_of (spelled.interrupt_target_fields target.now) }
{
    match target {
        InterruptTarget::OperationTag(tag) => payload_size(5, tag.as_str().len()),
        InterruptTarget::OperationId(id) => payload_size(6, id.as_str().len()),
        InterruptTarget::Absent => 0,
    }
}

/// How many bytes the request's message takes; 2^64 - 1 where it is above that. It takes no memory.
#[tactic(auto, using(field_groups::proofs::Sequences::sized_four))]
pub fn interrupt_size(request: &InterruptRequest) -> u64
    ensures { result ≡ size_of (spelled.interrupt_fields request.now) }
{
    let session = text_size(1, request.session_id.as_str());
    let context = context_size(&request.user_context);
    let kind = int_size(4, i64::from(request.interrupt_type));
    let target = target_size(&request.target);
    session
        .saturating_add(context)
        .saturating_add(kind)
        .saturating_add(target)
}
