ghost use Rattle.std.specs.Prelude.{◌≡◌, ◌++◌, OnOk};
ghost use Rattle.proto_fields.specs.Spelling.{spell};
ghost use Rattle.response_messages.specs.Spelled as spelled;

use crate::key_value::put_pairs;
use crate::{
    AnalyzePlanResponse, AnalyzeResult, ConfigResponse, InterruptResponse, ReleaseExecuteResponse,
};
use cn_base::OutOfMemory;
use expression_messages::{put_message_head, put_texts, put_type};
use proto_fields::MessageWriter;

/// Puts the result of an analysis before what stands.
#[tactic(auto, using(expression_messages::proofs::Written::spell_nil))]
fn put_result(out: &mut MessageWriter, answer: &AnalyzeResult) -> Result<(), OutOfMemory>
    ensures { OnOk result (out.new ≡ spell (spelled.result_fields answer.now) ++ out.old) }
{
    let end = out.len();
    match answer {
        AnalyzeResult::Schema(kind) => {
            put_type(out, kind)?;
            put_message_head(out, 1, end)?;
            put_message_head(out, 2, end)
        }
        AnalyzeResult::IsStreaming(value) => {
            out.put_bool(1, *value)?;
            put_message_head(out, 6, end)
        }
        AnalyzeResult::SparkVersion(version) => {
            out.put_text(1, version.as_str())?;
            put_message_head(out, 8, end)
        }
        AnalyzeResult::Absent => Ok(()),
    }
}

/// Puts the message of an analysis's response before what stands. Where memory runs out, nothing is promised of what stands then.
#[tactic(auto, using(expression_messages::proofs::Written::stand_two))]
pub(crate) fn put_analyze(
    out: &mut MessageWriter,
    response: &AnalyzePlanResponse,
) -> Result<(), OutOfMemory>
    ensures { OnOk result (out.new ≡ spell (spelled.analyze_response_fields response.now) ++ out.old) }
{
    put_result(out, &response.result)?;
    out.put_text(1, response.session_id.as_str())
}

/// Puts the message of a settings' response before what stands. Where memory runs out, nothing is promised of what stands then.
#[tactic(auto, using(expression_messages::proofs::Written::stand_two))]
pub(crate) fn put_config(
    out: &mut MessageWriter,
    response: &ConfigResponse,
) -> Result<(), OutOfMemory>
    ensures { OnOk result (out.new ≡ spell (spelled.config_response_fields response.now) ++ out.old) }
{
    put_pairs(out, 2, response.pairs.as_slice())?;
    out.put_text(1, response.session_id.as_str())
}

/// Puts the message of an interruption's response before what stands. Where memory runs out, nothing is promised of what stands then.
#[tactic(auto, using(expression_messages::proofs::Written::stand_two))]
pub(crate) fn put_interrupt(
    out: &mut MessageWriter,
    response: &InterruptResponse,
) -> Result<(), OutOfMemory>
    ensures { OnOk result (out.new ≡ spell (spelled.interrupt_response_fields response.now) ++ out.old) }
{
    put_texts(out, 2, response.interrupted_ids.as_slice())?;
    out.put_text(1, response.session_id.as_str())
}

/// Puts the message of a release's response before what stands. Where memory runs out, nothing is promised of what stands then.
#[tactic(auto, using(expression_messages::proofs::Written::stand_two))]
pub(crate) fn put_release(
    out: &mut MessageWriter,
    response: &ReleaseExecuteResponse,
) -> Result<(), OutOfMemory>
    ensures { OnOk result (out.new ≡ spell (spelled.release_response_fields response.now) ++ out.old) }
{
    out.put_optional_text(2, &response.operation_id)?;
    out.put_text(1, response.session_id.as_str())
}
