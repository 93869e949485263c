ghost use Rattle.std.specs.Prelude.{◌≡◌, ◌≤◌, ◌++◌, OnOk};
ghost use Rattle.proto_fields.specs.Spelling.{spell, text_fields};
ghost use Rattle.response_messages.specs.Spelled as spelled;

use crate::{ArrowBatch, ExecutePlanResponse, ResponseType};
use cn_base::OutOfMemory;
use expression_messages::{TypeMessage, put_message_head, put_type};
use proto_fields::MessageWriter;

/// Puts plain bytes before what stands, or nothing where there are none.
#[tactic(auto, using(expression_messages::proofs::Written::spell_nil))]
fn put_bytes(out: &mut MessageWriter, number: u32, bytes: &[u8]) -> Result<(), OutOfMemory>
    requires low { 1 ≤ number }
    requires high { number ≤ 536870911 }
    ensures { OnOk result (out.new ≡ spell (text_fields number bytes.now) ++ out.old) }
{
    if bytes.is_empty() {
        return Ok(());
    }
    out.put_payload(number, bytes)
}

/// Puts the batch's message before what stands.
fn put_arrow_batch(out: &mut MessageWriter, batch: &ArrowBatch) -> Result<(), OutOfMemory>
    ensures { OnOk result (out.new ≡ spell (spelled.arrow_batch_fields batch.now) ++ out.old) }
{
    put_bytes(out, 2, batch.payload.as_slice())?;
    out.put_int64(1, batch.row_count)
}

/// Puts the member `arrow_batch` before what stands, where it is set.
#[tactic(auto, using(expression_messages::proofs::Written::spell_nil))]
fn put_batch(out: &mut MessageWriter, part: &ResponseType) -> Result<(), OutOfMemory>
    ensures { OnOk result (out.new ≡ spell (spelled.batch_fields part.now) ++ out.old) }
{
    match part {
        ResponseType::ArrowBatch(batch) => {
            let end = out.len();
            put_arrow_batch(out, batch)?;
            put_message_head(out, 2, end)
        }
        ResponseType::ResultComplete => Ok(()),
        ResponseType::Absent => Ok(()),
    }
}

/// Puts the member `result_complete` before what stands, where it is set: an empty message.
#[tactic(auto, using(expression_messages::proofs::Written::spell_nil))]
fn put_complete(out: &mut MessageWriter, part: &ResponseType) -> Result<(), OutOfMemory>
    ensures { OnOk result (out.new ≡ spell (spelled.complete_fields part.now) ++ out.old) }
{
    match part {
        ResponseType::ArrowBatch(_) => Ok(()),
        ResponseType::ResultComplete => out.put_payload(14, &[]),
        ResponseType::Absent => Ok(()),
    }
}

/// Puts the schema before what stands, where there is one.
#[tactic(auto, using(expression_messages::proofs::Written::spell_nil))]
fn put_schema(out: &mut MessageWriter, schema: &Option<TypeMessage>) -> Result<(), OutOfMemory>
    ensures { OnOk result (out.new ≡ spell (spelled.schema_fields schema.now) ++ out.old) }
{
    match schema {
        Some(kind) => {
            let end = out.len();
            put_type(out, kind)?;
            put_message_head(out, 7, end)
        }
        None => Ok(()),
    }
}

/// Puts the message of a running plan's response before what stands. Where memory runs out, nothing is promised of what stands then.
pub(crate) fn put_execute(
    out: &mut MessageWriter,
    response: &ExecutePlanResponse,
) -> Result<(), OutOfMemory>
    ensures { OnOk result (out.new ≡ spell (spelled.execute_response_fields response.now) ++ out.old) }
{
    put_complete(out, &response.response_type)?;
    out.put_text(13, response.response_id.as_str())?;
    out.put_text(12, response.operation_id.as_str())?;
    put_schema(out, &response.schema)?;
    put_batch(out, &response.response_type)?;
    out.put_text(1, response.session_id.as_str())
}
