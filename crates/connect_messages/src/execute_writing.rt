ghost use Rattle.std.specs.Prelude.{◌≡◌, ◌++◌, OnOk};
ghost use Rattle.proto_fields.specs.Sizes.{size_of};
ghost use Rattle.proto_fields.specs.Spelling.{spell};
ghost use Rattle.connect_messages.specs.Spelled as spelled;

use crate::ExecuteRequest;
use cn_base::OutOfMemory;
use expression_messages::{put_message_head, put_texts, texts_size};
use plan_messages::put_plan;
use proto_fields::{MessageWriter, message_size, optional_text_size, text_size};
use request_messages::{context_size, put_context, put_reattachable, reattachable_size};

/// Puts the fields behind the request's plan before what stands.
#[tactic(auto, using(expression_messages::proofs::Written::stand_three))]
fn put_options(out: &mut MessageWriter, request: &ExecuteRequest) -> Result<(), OutOfMemory>
    ensures { OnOk result (out.new ≡ spell (spelled.execute_option_fields request.now) ++ out.old) }
{
    put_texts(out, 7, request.tags.as_slice())?;
    out.put_optional_text(6, &request.operation_id)?;
    put_reattachable(out, request.reattachable)
}

/// Puts the request's message before what stands. Where memory runs out, nothing is promised of what stands then.
#[tactic(auto, using(field_groups::proofs::Sequences::stand_four))]
pub(crate) fn put_execute(
    out: &mut MessageWriter,
    request: &ExecuteRequest,
) -> Result<(), OutOfMemory>
    ensures { OnOk result (out.new ≡ spell (spelled.execute_fields request.now) ++ out.old) }
{
    put_options(out, request)?;
    let end = out.len();
    put_plan(out, &request.plan)?;
    put_message_head(out, 3, end)?;
    put_context(out, &request.user_context)?;
    out.put_text(1, request.session_id.as_str())
}

/// How many bytes the fields behind the request's plan take; 2^64 - 1 where it is above that.
#[tactic(auto, using(expression_messages::proofs::Measured::sized_three))]
fn options_size(request: &ExecuteRequest) -> u64
    ensures { result ≡ size_of (spelled.execute_option_fields request.now) }
{
    let flag = reattachable_size(request.reattachable);
    let operation = optional_text_size(6, &request.operation_id);
    let tags = texts_size(7, request.tags.as_slice());
    flag.saturating_add(operation).saturating_add(tags)
}

/// How many bytes the request's message takes; 2^64 - 1 where it is above that.
#[tactic(auto, using(field_groups::proofs::Sequences::sized_four))]
pub(crate) fn execute_size(request: &ExecuteRequest) -> u64
    ensures { result ≡ size_of (spelled.execute_fields request.now) }
{
    let session = text_size(1, request.session_id.as_str());
    let context = context_size(&request.user_context);
    let plan = message_size(3, request.plan.spelled());
    session
        .saturating_add(context)
        .saturating_add(plan)
        .saturating_add(options_size(request))
}
