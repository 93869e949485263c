ghost use Rattle.std.specs.Prelude.{◌≡◌};
ghost use Rattle.response_messages.specs.Responses.{method_answered};

use crate::{
    AnalyzePlanResponse, ConfigResponse, ExecutePlanResponse, InterruptResponse, Method,
    ReleaseExecuteResponse,
};
use cn_base::{Copied, OutOfMemory};
use std::alloc::Global;

/// A response, by the method that it answers.
#[derive(Debug, Drop)]
pub enum Response {
    ExecutePlan(ExecutePlanResponse),
    AnalyzePlan(AnalyzePlanResponse),
    Config(ConfigResponse),
    Interrupt(InterruptResponse),
    /// One of the responses of a plan that is running already.
    ReattachExecute(ExecutePlanResponse),
    ReleaseExecute(ReleaseExecuteResponse),
}

impl Response {
    /// The method that the response answers. It takes no memory.
    pub fn method(&self) -> Method
        ensures { result ≡ method_answered self.now }
    {
        match self {
            Response::ExecutePlan(_) => Method::ExecutePlan,
            Response::AnalyzePlan(_) => Method::AnalyzePlan,
            Response::Config(_) => Method::Config,
            Response::Interrupt(_) => Method::Interrupt,
            Response::ReattachExecute(_) => Method::ReattachExecute,
            Response::ReleaseExecute(_) => Method::ReleaseExecute,
        }
    }
}

impl Copied for Response {
    fn copy(&self, alloc: Global) -> Result<Response, OutOfMemory> {
        match self {
            Response::ExecutePlan(response) => Ok(Response::ExecutePlan(response.copy(alloc)?)),
            Response::AnalyzePlan(response) => Ok(Response::AnalyzePlan(response.copy(alloc)?)),
            Response::Config(response) => Ok(Response::Config(response.copy(alloc)?)),
            Response::Interrupt(response) => Ok(Response::Interrupt(response.copy(alloc)?)),
            Response::ReattachExecute(response) => {
                Ok(Response::ReattachExecute(response.copy(alloc)?))
            }
            Response::ReleaseExecute(response) => {
                Ok(Response::ReleaseExecute(response.copy(alloc)?))
            }
        }
    }
}
