use crate::KeyValue;
use cn_base::{Copied, List, OutOfMemory, Text};
use expression_messages::TypeMessage;
use std::alloc::Global;

/// What an analysis says: the oneof `result` of its response.
#[derive(Debug, Drop)]
pub enum AnalyzeResult {
    /// The type of the plan's rows; `Other(0)` where the answer holds none.
    Schema(TypeMessage),
    IsStreaming(bool),
    SparkVersion(Text),
    /// No member of the profile.
    Absent,
}

/// The response of an analysis (`base.proto`, AnalyzePlanResponse).
#[derive(Debug, Drop)]
pub struct AnalyzePlanResponse {
    pub session_id: Text,
    pub result: AnalyzeResult,
}

/// The response of a settings' operation (`base.proto`, ConfigResponse). Its warnings are neither read nor written.
#[derive(Debug, Drop)]
pub struct ConfigResponse {
    pub session_id: Text,
    pub pairs: List<KeyValue>,
}

/// The response of an interruption (`base.proto`, InterruptResponse).
#[derive(Debug, Drop)]
pub struct InterruptResponse {
    pub session_id: Text,
    /// The operations that were interrupted.
    pub interrupted_ids: List<Text>,
}

/// The response of a release (`base.proto`, ReleaseExecuteResponse).
#[derive(Debug, Drop)]
pub struct ReleaseExecuteResponse {
    pub session_id: Text,
    /// The operation whose responses were released; `None` where it was not there.
    pub operation_id: Option<Text>,
}

impl Copied for AnalyzeResult {
    fn copy(&self, alloc: Global) -> Result<AnalyzeResult, OutOfMemory> {
        match self {
            AnalyzeResult::Schema(kind) => Ok(AnalyzeResult::Schema(kind.copy(alloc)?)),
            AnalyzeResult::IsStreaming(value) => Ok(AnalyzeResult::IsStreaming(*value)),
            AnalyzeResult::SparkVersion(version) => {
                Ok(AnalyzeResult::SparkVersion(version.copy(alloc)?))
            }
            AnalyzeResult::Absent => Ok(AnalyzeResult::Absent),
        }
    }
}

impl Copied for AnalyzePlanResponse {
    fn copy(&self, alloc: Global) -> Result<AnalyzePlanResponse, OutOfMemory> {
        Ok(AnalyzePlanResponse {
            session_id: self.session_id.copy(alloc)?,
            result: self.result.copy(alloc)?,
        })
    }
}

impl Copied for ConfigResponse {
    fn copy(&self, alloc: Global) -> Result<ConfigResponse, OutOfMemory> {
        Ok(ConfigResponse {
            session_id: self.session_id.copy(alloc)?,
            pairs: self.pairs.copy(alloc)?,
        })
    }
}

impl Copied for InterruptResponse {
    fn copy(&self, alloc: Global) -> Result<InterruptResponse, OutOfMemory> {
        Ok(InterruptResponse {
            session_id: self.session_id.copy(alloc)?,
            interrupted_ids: self.interrupted_ids.copy(alloc)?,
        })
    }
}

impl Copied for ReleaseExecuteResponse {
    fn copy(&self, alloc: Global) -> Result<ReleaseExecuteResponse, OutOfMemory> {
        Ok(ReleaseExecuteResponse {
            session_id: self.session_id.copy(alloc)?,
            operation_id: self.operation_id.copy(alloc)?,
        })
    }
}
