use crate::{AnalyzeRequest, ExecuteRequest};
use cn_base::{Copied, OutOfMemory};
use request_messages::{ConfigRequest, InterruptRequest, ReattachRequest, ReleaseRequest};
use std::alloc::Global;

/// A request of the service (`base.proto`, SparkConnectService).
#[derive(Debug, Drop)]
pub enum Request {
    ExecutePlan(ExecuteRequest),
    AnalyzePlan(AnalyzeRequest),
    Config(ConfigRequest),
    Interrupt(InterruptRequest),
    ReattachExecute(ReattachRequest),
    ReleaseExecute(ReleaseRequest),
}

impl Copied for Request {
    fn copy(&self, alloc: Global) -> Result<Request, OutOfMemory> {
        match self {
            Request::ExecutePlan(request) => Ok(Request::ExecutePlan(request.copy(alloc)?)),
            Request::AnalyzePlan(request) => Ok(Request::AnalyzePlan(request.copy(alloc)?)),
            Request::Config(request) => Ok(Request::Config(request.copy(alloc)?)),
            Request::Interrupt(request) => Ok(Request::Interrupt(request.copy(alloc)?)),
            Request::ReattachExecute(request) => Ok(Request::ReattachExecute(request.copy(alloc)?)),
            Request::ReleaseExecute(request) => Ok(Request::ReleaseExecute(request.copy(alloc)?)),
        }
    }
}
