ghost use Rattle.std.specs.Prelude.{◌≡◌, ◌≤◌};
ghost use Rattle.proto_fields.specs.Sizes.{size_of};
ghost use Rattle.proto_fields.specs.Spelling.{text_fields};
ghost use Rattle.response_messages.specs.Spelled as spelled;

use crate::key_value::pairs_size;
use crate::{
    AnalyzePlanResponse, AnalyzeResult, ArrowBatch, ConfigResponse, ExecutePlanResponse,
    InterruptResponse, ReleaseExecuteResponse, Response, ResponseType,
};
use expression_messages::{TypeMessage, texts_size, type_size};
use proto_fields::{
    bool_size, int_size, message_size, optional_text_size, payload_size, text_size,
};

/// How many bytes plain bytes take with their tag and their length: none where there are none; 2^64 - 1 where it is above that.
#[tactic(auto, using(expression_messages::proofs::Measured::size_of_nil))]
fn bytes_size(number: u32, bytes: &[u8]) -> u64
    requires low { 1 ≤ number }
    requires high { number ≤ 536870911 }
    ensures { result ≡ size_of (text_fields number bytes.now) }
{
    if bytes.is_empty() {
        0
    } else {
        payload_size(number, bytes.len())
    }
}

/// How many bytes the batch's message takes; 2^64 - 1 where it is above that.
fn arrow_batch_size(batch: &ArrowBatch) -> u64
    ensures { result ≡ size_of (spelled.arrow_batch_fields batch.now) }
{
    int_size(1, batch.row_count).saturating_add(bytes_size(2, batch.payload.as_slice()))
}

/// How many bytes the member `arrow_batch` takes; 2^64 - 1 where it is above that.
#[tactic(auto, using(expression_messages::proofs::Measured::size_of_nil))]
fn batch_size(part: &ResponseType) -> u64
    ensures { result ≡ size_of (spelled.batch_fields part.now) }
{
    match part {
        ResponseType::ArrowBatch(batch) => message_size(2, arrow_batch_size(batch)),
        ResponseType::ResultComplete => 0,
        ResponseType::Absent => 0,
    }
}

/// How many bytes the member `result_complete` takes.
#[tactic(auto, using(expression_messages::proofs::Measured::size_of_nil))]
fn complete_size(part: &ResponseType) -> u64
    ensures { result ≡ size_of (spelled.complete_fields part.now) }
{
    match part {
        ResponseType::ArrowBatch(_) => 0,
        ResponseType::ResultComplete => payload_size(14, 0),
        ResponseType::Absent => 0,
    }
}

/// How many bytes the schema takes with its tag; 2^64 - 1 where it is above that.
#[tactic(auto, using(expression_messages::proofs::Measured::size_of_nil))]
fn schema_size(schema: &Option<TypeMessage>) -> u64
    ensures { result ≡ size_of (spelled.schema_fields schema.now) }
{
    match schema {
        Some(kind) => message_size(7, type_size(kind)),
        None => 0,
    }
}

/// How many bytes the message of a running plan's response takes; 2^64 - 1 where it is above that.
fn execute_size(response: &ExecutePlanResponse) -> u64
    ensures { result ≡ size_of (spelled.execute_response_fields response.now) }
{
    let session_id = text_size(1, response.session_id.as_str());
    let batch = batch_size(&response.response_type);
    let schema = schema_size(&response.schema);
    let operation_id = text_size(12, response.operation_id.as_str());
    let response_id = text_size(13, response.response_id.as_str());
    let complete = complete_size(&response.response_type);
    let front = session_id.saturating_add(batch).saturating_add(schema);
    front
        .saturating_add(operation_id)
        .saturating_add(response_id)
        .saturating_add(complete)
}

/// How many bytes the result of an analysis takes; 2^64 - 1 where it is above that.
#[tactic(auto, using(expression_messages::proofs::Measured::size_of_nil))]
fn result_size(answer: &AnalyzeResult) -> u64
    ensures { result ≡ size_of (spelled.result_fields answer.now) }
{
    match answer {
        AnalyzeResult::Schema(kind) => message_size(2, message_size(1, type_size(kind))),
        AnalyzeResult::IsStreaming(value) => message_size(6, bool_size(1, *value)),
        AnalyzeResult::SparkVersion(version) => message_size(8, text_size(1, version.as_str())),
        AnalyzeResult::Absent => 0,
    }
}

/// How many bytes the message of an analysis's response takes; 2^64 - 1 where it is above that.
#[tactic(auto, using(expression_messages::proofs::Measured::sized_two))]
fn analyze_size(response: &AnalyzePlanResponse) -> u64
    ensures { result ≡ size_of (spelled.analyze_response_fields response.now) }
{
    text_size(1, response.session_id.as_str()).saturating_add(result_size(&response.result))
}

/// How many bytes the message of a settings' response takes; 2^64 - 1 where it is above that.
#[tactic(auto, using(expression_messages::proofs::Measured::sized_two))]
fn config_size(response: &ConfigResponse) -> u64
    ensures { result ≡ size_of (spelled.config_response_fields response.now) }
{
    text_size(1, response.session_id.as_str()).saturating_add(pairs_size(
        2,
        response.pairs.as_slice(),
    ))
}

/// How many bytes the message of an interruption's response takes; 2^64 - 1 where it is above that.
#[tactic(auto, using(expression_messages::proofs::Measured::sized_two))]
fn interrupt_size(response: &InterruptResponse) -> u64
    ensures { result ≡ size_of (spelled.interrupt_response_fields response.now) }
{
    text_size(1, response.session_id.as_str()).saturating_add(texts_size(
        2,
        response.interrupted_ids.as_slice(),
    ))
}

/// How many bytes the message of a release's response takes; 2^64 - 1 where it is above that.
#[tactic(auto, using(expression_messages::proofs::Measured::sized_two))]
fn release_size(response: &ReleaseExecuteResponse) -> u64
    ensures { result ≡ size_of (spelled.release_response_fields response.now) }
{
    text_size(1, response.session_id.as_str()).saturating_add(optional_text_size(
        2,
        &response.operation_id,
    ))
}

/// How many bytes the response's message takes; 2^64 - 1 where it is above that. It takes no memory.
pub fn response_size(response: &Response) -> u64
    ensures { result ≡ size_of (spelled.response_fields response.now) }
{
    match response {
        Response::ExecutePlan(response) => execute_size(response),
        Response::AnalyzePlan(response) => analyze_size(response),
        Response::Config(response) => config_size(response),
        Response::Interrupt(response) => interrupt_size(response),
        Response::ReattachExecute(response) => execute_size(response),
        Response::ReleaseExecute(response) => release_size(response),
    }
}
