use cn_base::{Bytes, Copied, OutOfMemory, Text};
use expression_messages::TypeMessage;
use std::alloc::Global;

/// Some rows of a result (`base.proto`, ExecutePlanResponse.ArrowBatch).
#[derive(Debug, Drop)]
pub struct ArrowBatch {
    /// How many rows there are.
    pub row_count: i64,
    /// The rows as one Arrow stream (the field `data`).
    pub payload: Bytes,
}

/// What a response of a running plan holds beside its ids: the oneof `response_type`.
#[derive(Debug, Drop)]
pub enum ResponseType {
    ArrowBatch(ArrowBatch),
    /// The responses of the plan are complete.
    ResultComplete,
    /// Nothing of both.
    Absent,
}

/// One of the responses of a running plan (`base.proto`, ExecutePlanResponse).
#[derive(Debug, Drop)]
pub struct ExecutePlanResponse {
    pub session_id: Text,
    pub response_type: ResponseType,
    /// The type of the result's rows.
    pub schema: Option<TypeMessage>,
    pub operation_id: Text,
    pub response_id: Text,
}

impl Copied for ArrowBatch {
    fn copy(&self, alloc: Global) -> Result<ArrowBatch, OutOfMemory> {
        Ok(ArrowBatch {
            row_count: self.row_count,
            payload: self.payload.copy(alloc)?,
        })
    }
}

impl Copied for ResponseType {
    fn copy(&self, alloc: Global) -> Result<ResponseType, OutOfMemory> {
        match self {
            ResponseType::ArrowBatch(batch) => Ok(ResponseType::ArrowBatch(batch.copy(alloc)?)),
            ResponseType::ResultComplete => Ok(ResponseType::ResultComplete),
            ResponseType::Absent => Ok(ResponseType::Absent),
        }
    }
}

impl Copied for ExecutePlanResponse {
    fn copy(&self, alloc: Global) -> Result<ExecutePlanResponse, OutOfMemory> {
        Ok(ExecutePlanResponse {
            session_id: self.session_id.copy(alloc)?,
            response_type: self.response_type.copy(alloc)?,
            schema: self.schema.copy(alloc)?,
            operation_id: self.operation_id.copy(alloc)?,
            response_id: self.response_id.copy(alloc)?,
        })
    }
}
