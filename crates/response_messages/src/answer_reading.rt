ghost use Rattle.std.specs.Prelude.{◌≡◌, IfOk};
ghost use Rattle.proto_fields.specs.Views.{seen, member_of};
ghost use Rattle.expression_messages.specs.Types.{type_at};
ghost use Rattle.response_messages.specs.Responses as responses;

use crate::key_value::pairs_from;
use crate::{
    AnalyzePlanResponse, AnalyzeResult, ConfigResponse, InterruptResponse, ReleaseExecuteResponse,
};
use cn_base::OutOfMemory;
use expression_messages::{message_records, type_from};
use proto_fields::{
    Member, MessageKind, Record, bool_field, latest, optional_text, text_field, texts,
};
use std::alloc::Global;

/// The result that a member of the oneof is, with so many levels for a type.
fn result_of_member(
    alloc: Global,
    member: &Member,
    level: u32,
) -> Result<AnalyzeResult, OutOfMemory>
    ensures { IfOk result
        (λ found. found ≡ responses.analyze_member (type_at level) (member_of member.now)) }
{
    match member.number {
        2 => {
            let answer = message_records(alloc, member.since, 2)?;
            let schema = message_records(alloc, answer.as_slice(), 1)?;
            Ok(AnalyzeResult::Schema(type_from(alloc, schema.as_slice(), level)?))
        }
        6 => {
            let answer = message_records(alloc, member.since, 6)?;
            Ok(AnalyzeResult::IsStreaming(bool_field(answer.as_slice(), 1)))
        }
        _ => {
            let answer = message_records(alloc, member.since, 8)?;
            Ok(AnalyzeResult::SparkVersion(text_field(alloc, answer.as_slice(), 1)?))
        }
    }
}

/// The result of an analysis, with so many levels for a type.
fn result_from(alloc: Global, items: &[Record], level: u32) -> Result<AnalyzeResult, OutOfMemory>
    ensures { IfOk result (λ found. found ≡ responses.result_of (type_at level) (seen items.now)) }
{
    match latest(MessageKind::AnalyzePlanResponse, items) {
        Some(member) => result_of_member(alloc, &member, level),
        None => Ok(AnalyzeResult::Absent),
    }
}

/// The response of an analysis that a message's records hold, with so many levels of nesting at most, its own among them.
pub(crate) fn analyze_from(
    alloc: Global,
    items: &[Record],
    level: u32,
) -> Result<AnalyzePlanResponse, OutOfMemory>
    ensures { IfOk result (λ response. response ≡ responses.analyze_response_at level (seen items.now)) }
{
    Ok(AnalyzePlanResponse {
        session_id: text_field(alloc, items, 1)?,
        result: result_from(alloc, items, level.saturating_sub(2))?,
    })
}

/// The response of a settings' operation that a message's records hold.
pub(crate) fn config_from(alloc: Global, items: &[Record]) -> Result<ConfigResponse, OutOfMemory>
    ensures { IfOk result (λ response. response ≡ responses.config_response_of (seen items.now)) }
{
    Ok(ConfigResponse {
        session_id: text_field(alloc, items, 1)?,
        pairs: pairs_from(alloc, items, 2)?,
    })
}

/// The response of an interruption that a message's records hold.
pub(crate) fn interrupt_from(
    alloc: Global,
    items: &[Record],
) -> Result<InterruptResponse, OutOfMemory>
    ensures { IfOk result (λ response. response ≡ responses.interrupt_response_of (seen items.now)) }
{
    Ok(InterruptResponse {
        session_id: text_field(alloc, items, 1)?,
        interrupted_ids: texts(alloc, items, 2)?,
    })
}

/// The response of a release that a message's records hold.
pub(crate) fn release_from(
    alloc: Global,
    items: &[Record],
) -> Result<ReleaseExecuteResponse, OutOfMemory>
    ensures { IfOk result (λ response. response ≡ responses.release_response_of (seen items.now)) }
{
    Ok(ReleaseExecuteResponse {
        session_id: text_field(alloc, items, 1)?,
        operation_id: optional_text(alloc, items, 2)?,
    })
}
