//! gRPC-Web over HTTP/1.1 (RFC 9112; gRPC-Web protocol): the readers of requests and of responses, in whatever pieces their bytes come, and
//! the writers of both, whose bytes the readers read back; and what a server answers a refused request with.
#![tactic(auto)]

mod answer;
mod laws;

pub use answer::{FaultAnswer, FaultName, answer_of};
pub use laws::{
    answers_are_begun, answers_are_read_back, faults_are_answered, refusals_are_read_back,
};
pub use web_contents::WebFault;
pub use web_frames::Trailers;
pub use web_requests::RequestReader;
pub use web_responses::{ResponseReader, WebEvent};
pub use web_writers::{
    refused_head, requests_are_read_back, response_end, response_head, response_message,
    responses_are_said, write_request,
};

#[cfg(test)]
mod tests;
