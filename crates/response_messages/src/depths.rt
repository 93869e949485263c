ghost use Rattle.std.specs.Prelude.{◌≡◌};
ghost use Rattle.expression_messages.specs.Depths.{told};
ghost use Rattle.response_messages.specs.Depths as depths;

use crate::{AnalyzeResult, ExecutePlanResponse, Response, ResponseType};
use expression_messages::{TypeMessage, type_depth};

/// How many messages a batch or the mark of the end nests.
fn response_type_depth(part: &ResponseType) -> u32
    ensures { result ≡ told (depths.response_type_depth part.now) }
{
    match part {
        ResponseType::ArrowBatch(_) => 1,
        ResponseType::ResultComplete => 1,
        ResponseType::Absent => 0,
    }
}

/// How many messages a schema nests; 2^32 - 1 where there are more.
fn schema_depth(schema: &Option<TypeMessage>) -> u32
    ensures { result ≡ told (depths.schema_depth schema.now) }
{
    match schema {
        Some(kind) => type_depth(kind),
        None => 0,
    }
}

/// How many messages are nested in a running plan's response, itself among them; 2^32 - 1 where there are more.
fn execute_depth(response: &ExecutePlanResponse) -> u32
    ensures { result ≡ told (depths.execute_response_depth response.now) }
{
    response_type_depth(&response.response_type)
        .max(schema_depth(&response.schema))
        .saturating_add(1)
}

/// How many messages the result of an analysis nests; 2^32 - 1 where there are more.
fn result_depth(answer: &AnalyzeResult) -> u32
    ensures { result ≡ told (depths.result_depth answer.now) }
{
    match answer {
        AnalyzeResult::Schema(kind) => type_depth(kind).saturating_add(1),
        AnalyzeResult::IsStreaming(_) => 1,
        AnalyzeResult::SparkVersion(_) => 1,
        AnalyzeResult::Absent => 0,
    }
}

/// How many messages are nested in the response's message, itself among them; 2^32 - 1 where there are more. It takes no memory.
pub fn response_depth(response: &Response) -> u32
    ensures { result ≡ told (depths.response_depth response.now) }
{
    match response {
        Response::ExecutePlan(response) => execute_depth(response),
        Response::AnalyzePlan(response) => result_depth(&response.result).saturating_add(1),
        Response::Config(response) => { if response.pairs.is_empty() { 1 } else { 2 } }
        Response::Interrupt(_) => 1,
        Response::ReattachExecute(response) => execute_depth(response),
        Response::ReleaseExecute(_) => 1,
    }
}
