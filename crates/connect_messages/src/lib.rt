//! The requests and responses of the six methods as messages: read of their bytes exactly, and written in one spelling.
#![tactic(auto)]

mod analyze;
mod analyze_writing;
mod decode;
mod encode;
mod execute;
mod execute_writing;
mod laws;
mod request;
mod request_measures;

pub use analyze::{Analysis, AnalyzeRequest};
pub use decode::decode_request;
pub use encode::encode_request;
pub use execute::ExecuteRequest;
pub use laws::{
    asked_are_valid, asked_texts_are_kept, request_levels_agree, requests_are_read_back,
};
pub use request::Request;
pub use request_measures::{is_known_request, request_depth, request_size};
pub use request_messages::{
    ConfigOperation, ConfigRequest, InterruptRequest, InterruptTarget, ReattachRequest, Release,
    ReleaseRequest, UserContext,
};
pub use response_messages::{
    AnalyzePlanResponse, AnalyzeResult, ArrowBatch, ConfigResponse, ExecutePlanResponse,
    InterruptResponse, KeyValue, Method, ReleaseExecuteResponse, Response, ResponseType,
    decode_response, encode_response, is_known_response, response_depth, response_size,
};
