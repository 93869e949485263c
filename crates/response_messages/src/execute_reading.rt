ghost use Rattle.std.specs.Prelude.{◌≡◌, IfOk, option_map};
ghost use Rattle.proto_fields.specs.Readings as read;
ghost use Rattle.proto_fields.specs.Views.{seen, member_of};
ghost use Rattle.expression_messages.specs.Types.{type_at};
ghost use Rattle.response_messages.specs.Responses as responses;

use crate::{ArrowBatch, ExecutePlanResponse, ResponseType};
use cn_base::{Bytes, OutOfMemory};
use expression_messages::{TypeMessage, message_records, type_from};
use proto_fields::{
    Member, MessageKind, Record, int64_field, last_payload, latest, merged, text_field,
};
use std::alloc::Global;

/// Plain bytes, which are empty where no record has them.
fn bytes_field(alloc: Global, items: &[Record], number: u32) -> Result<Bytes, OutOfMemory>
    ensures { IfOk result (λ bytes. bytes ≡ responses.bytes_field number (seen items.now)) }
{
    match last_payload(items, number) {
        Some(payload) => Bytes::of(alloc, payload),
        None => Ok(Bytes::new(alloc)),
    }
}

/// The batch that a message's records hold.
fn arrow_batch_from(alloc: Global, items: &[Record]) -> Result<ArrowBatch, OutOfMemory>
    ensures { IfOk result (λ batch. batch ≡ responses.arrow_batch_of (seen items.now)) }
{
    Ok(ArrowBatch {
        row_count: int64_field(items, 1),
        payload: bytes_field(alloc, items, 2)?,
    })
}

/// What a member of the oneof is.
fn response_type_of_member(alloc: Global, member: &Member) -> Result<ResponseType, OutOfMemory>
    ensures { IfOk result (λ found. found ≡ responses.execute_member (member_of member.now)) }
{
    if member.number == 2 {
        let found = message_records(alloc, member.since, 2)?;
        Ok(ResponseType::ArrowBatch(arrow_batch_from(alloc, found.as_slice())?))
    } else {
        Ok(ResponseType::ResultComplete)
    }
}

/// What a response of a running plan holds beside its ids.
fn response_type_from(alloc: Global, items: &[Record]) -> Result<ResponseType, OutOfMemory>
    ensures { IfOk result (λ found. found ≡ responses.response_type_of (seen items.now)) }
{
    match latest(MessageKind::ExecutePlanResponse, items) {
        Some(member) => response_type_of_member(alloc, &member),
        None => Ok(ResponseType::Absent),
    }
}

/// The schema of a response, with so many levels for its type; none where it is absent.
fn schema_from(
    alloc: Global,
    items: &[Record],
    level: u32,
) -> Result<Option<TypeMessage>, OutOfMemory>
    ensures { IfOk result
        (λ schema. schema ≡ option_map (type_at level) (read.merged 7 (seen items.now))) }
{
    match merged(alloc, items, 7)? {
        Some(found) => Ok(Some(type_from(alloc, found.as_slice(), level)?)),
        None => Ok(None),
    }
}

/// The response of a running plan that a message's records hold, with so many levels of nesting at most, its own among them.
pub(crate) fn execute_from(
    alloc: Global,
    items: &[Record],
    level: u32,
) -> Result<ExecutePlanResponse, OutOfMemory>
    ensures { IfOk result (λ response. response ≡ responses.execute_response_at level (seen items.now)) }
{
    Ok(ExecutePlanResponse {
        session_id: text_field(alloc, items, 1)?,
        response_type: response_type_from(alloc, items)?,
        schema: schema_from(alloc, items, level.saturating_sub(1))?,
        operation_id: text_field(alloc, items, 12)?,
        response_id: text_field(alloc, items, 13)?,
    })
}
