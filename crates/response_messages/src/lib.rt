//! The methods of the service, and their responses as messages: read of their fields exactly, and written in one spelling.
#![tactic(auto)]

mod answer_reading;
mod answer_writing;
mod answers;
mod decode;
mod depths;
mod encode;
mod execute;
mod execute_reading;
mod execute_writing;
mod key_value;
mod known;
mod laws;
mod method;
mod response;
mod sizes;

pub use answers::{
    AnalyzePlanResponse, AnalyzeResult, ConfigResponse, InterruptResponse, ReleaseExecuteResponse,
};
pub use decode::decode_response;
pub use depths::response_depth;
pub use encode::encode_response;
pub use execute::{ArrowBatch, ExecutePlanResponse, ResponseType};
pub use key_value::{
    KeyValue, key_value_from, key_value_size, pairs_from, pairs_size, put_key_value, put_pairs,
};
pub use known::is_known_response;
pub use laws::{
    key_values_are_read_back, response_levels_agree, response_texts_are_kept,
    responses_are_read_back, responses_are_valid,
};
pub use method::Method;
pub use response::Response;
pub use sizes::response_size;
