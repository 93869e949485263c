ghost use Rattle.std.specs.Prelude.{◌≡◌, ◌≤◌, ◌++◌, OnOk};
ghost use Rattle.proto_fields.specs.Sizes.{size_of};
ghost use Rattle.proto_fields.specs.Spelling.{spell};
ghost use Rattle.connect_messages.specs.Spelled as spelled;

use crate::{Analysis, AnalyzeRequest};
use cn_base::OutOfMemory;
use expression_messages::put_message_head;
use plan_messages::{Plan, put_plan};
use proto_fields::{MessageWriter, message_size, payload_size, text_size};
use request_messages::{context_size, put_context};

/// Puts the member of this number that holds the plan before what stands.
fn put_analyzed(out: &mut MessageWriter, number: u32, plan: &Plan) -> Result<(), OutOfMemory>
    requires low { 1 ≤ number }
    requires high { number ≤ 536870911 }
    ensures { OnOk result (out.new ≡ spell (spelled.analyzed_fields number plan.now) ++ out.old) }
{
    let end = out.len();
    put_plan(out, plan)?;
    put_message_head(out, 1, end)?;
    put_message_head(out, number, end)
}

/// Puts the member of the request's oneof before what stands; nothing where it is outside the profile.
#[tactic(auto, using(expression_messages::proofs::Written::spell_nil))]
fn put_analysis(out: &mut MessageWriter, analysis: &Analysis) -> Result<(), OutOfMemory>
    ensures { OnOk result (out.new ≡ spell (spelled.analysis_fields analysis.now) ++ out.old) }
{
    match analysis {
        Analysis::Schema(plan) => put_analyzed(out, 4, plan),
        Analysis::IsStreaming(plan) => put_analyzed(out, 8, plan),
        Analysis::SparkVersion => out.put_payload(10, &[]),
        Analysis::Other(_) => Ok(()),
    }
}

/// Puts the request's message before what stands. Where memory runs out, nothing is promised of what stands then.
#[tactic(auto, using(expression_messages::proofs::Written::stand_three))]
pub(crate) fn put_analyze(
    out: &mut MessageWriter,
    request: &AnalyzeRequest,
) -> Result<(), OutOfMemory>
    ensures { OnOk result (out.new ≡ spell (spelled.analyze_fields request.now) ++ out.old) }
{
    put_analysis(out, &request.analysis)?;
    put_context(out, &request.user_context)?;
    out.put_text(1, request.session_id.as_str())
}

/// How many bytes the member of the request's oneof takes; 2^64 - 1 where it is above that.
#[tactic(auto, using(expression_messages::proofs::Measured::size_of_nil))]
fn analysis_size(analysis: &Analysis) -> u64
    ensures { result ≡ size_of (spelled.analysis_fields analysis.now) }
{
    match analysis {
        Analysis::Schema(plan) => message_size(4, message_size(1, plan.spelled())),
        Analysis::IsStreaming(plan) => message_size(8, message_size(1, plan.spelled())),
        Analysis::SparkVersion => payload_size(10, 0),
        Analysis::Other(_) => 0,
    }
}

/// How many bytes the request's message takes; 2^64 - 1 where it is above that.
#[tactic(auto, using(expression_messages::proofs::Measured::sized_three))]
pub(crate) fn analyze_size(request: &AnalyzeRequest) -> u64
    ensures { result ≡ size_of (spelled.analyze_fields request.now) }
{
    let session = text_size(1, request.session_id.as_str());
    let context = context_size(&request.user_context);
    session
        .saturating_add(context)
        .saturating_add(analysis_size(&request.analysis))
}
