ghost use Rattle.std.specs.Prelude.{◌≡◌};
ghost use Rattle.response_messages.specs.Known as known;

use crate::{AnalyzeResult, Response};
use expression_messages::{TypeMessage, is_known_type};

/// Whether a schema has a spelling.
fn is_known_schema(schema: &Option<TypeMessage>) -> bool
    ensures { result ≡ known.is_known_schema schema.now }
{
    match schema {
        Some(kind) => is_known_type(kind),
        None => true,
    }
}

/// Whether the result of an analysis has a spelling.
fn is_known_result(answer: &AnalyzeResult) -> bool
    ensures { result ≡ known.is_known_result answer.now }
{
    match answer {
        AnalyzeResult::Schema(kind) => is_known_type(kind),
        AnalyzeResult::IsStreaming(_) => true,
        AnalyzeResult::SparkVersion(_) => true,
        AnalyzeResult::Absent => true,
    }
}

/// Whether the response has a spelling: no type in it is outside the profile. It takes no memory.
pub fn is_known_response(response: &Response) -> bool
    ensures { result ≡ known.is_known_response response.now }
{
    match response {
        Response::ExecutePlan(response) => is_known_schema(&response.schema),
        Response::AnalyzePlan(response) => is_known_result(&response.result),
        Response::Config(_) => true,
        Response::Interrupt(_) => true,
        Response::ReattachExecute(response) => is_known_schema(&response.schema),
        Response::ReleaseExecute(_) => true,
    }
}
