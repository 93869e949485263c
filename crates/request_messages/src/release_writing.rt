ghost use Rattle.std.specs.Prelude.{◌≡◌, ◌++◌, OnOk};
ghost use Rattle.proto_fields.specs.Sizes.{size_of};
ghost use Rattle.proto_fields.specs.Spelling.{spell};
ghost use Rattle.request_messages.specs.Spelled as spelled;

use crate::context_field::{context_size, put_context};
use crate::{Release, ReleaseRequest};
use cn_base::OutOfMemory;
use expression_messages::put_message_head;
use proto_fields::{MessageWriter, message_size, payload_size, text_size};

/// Puts the member of the request's oneof before what stands.
#[tactic(auto, using(expression_messages::proofs::Written::spell_nil))]
fn put_member(out: &mut MessageWriter, release: &Release) -> Result<(), OutOfMemory>
    ensures { OnOk result
        (out.new ≡ spell (spelled.release_member_fields release.now) ++ out.old) }
{
    match release {
        Release::All => out.put_payload(5, &[]),
        Release::Until { response_id } => {
            let end = out.len();
            out.put_text(1, response_id.as_str())?;
            put_message_head(out, 6, end)
        }
        Release::Absent => Ok(()),
    }
}

/// Puts the request's message before what stands. Where memory runs out, nothing is promised of what stands then.
#[tactic(auto, using(field_groups::proofs::Sequences::stand_four))]
pub fn put_release(out: &mut MessageWriter, request: &ReleaseRequest) -> Result<(), OutOfMemory>
    ensures { OnOk result (out.new ≡ spell (spelled.release_fields request.now) ++ out.old) }
{
    put_member(out, &request.release)?;
    out.put_text(3, request.operation_id.as_str())?;
    put_context(out, &request.user_context)?;
    out.put_text(1, request.session_id.as_str())
}

/// How many bytes the member of the request's oneof takes; 2^64 - 1 where it is above that.
#[tactic(auto, using(expression_messages::proofs::Measured::size_of_nil))]
fn member_size(release: &Release) -> u64
    ensures { result ≡ size_of (spelled.release_member_fields release.now) }
{
    match release {
        Release::All => payload_size(5, 0),
        Release::Until { response_id } => message_size(6, text_size(1, response_id.as_str())),
        Release::Absent => 0,
    }
}

/// How many bytes the request's message takes; 2^64 - 1 where it is above that. It takes no memory.
#[tactic(auto, using(field_groups::proofs::Sequences::sized_four))]
pub fn release_size(request: &ReleaseRequest) -> u64
    ensures { result ≡ size_of (spelled.release_fields request.now) }
{
    let session = text_size(1, request.session_id.as_str());
    let context = context_size(&request.user_context);
    let operation = text_size(3, request.operation_id.as_str());
    let release = member_size(&request.release);
    session
        .saturating_add(context)
        .saturating_add(operation)
        .saturating_add(release)
}
