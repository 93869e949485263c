ghost use Rattle.std.specs.Prelude.{◌≡◌};
ghost use Rattle.proto_fields.specs.Sizes.{size_of};
ghost use Rattle.expression_messages.specs.Depths.{told};
ghost use Rattle.connect_messages.specs.Depths as depths;
ghost use Rattle.connect_messages.specs.Known as known;
ghost use Rattle.connect_messages.specs.Spelled as spelled;

use crate::analyze_writing::analyze_size;
use crate::execute_writing::execute_size;
use crate::{Analysis, AnalyzeRequest, ExecuteRequest, Request};
use plan_messages::is_known_plan;
use request_messages::{
    config_depth, config_size, context_depth, interrupt_depth, interrupt_size, reattach_depth,
    reattach_size, reattachable_depth, release_depth, release_size,
};

/// How many bytes the request's spelling has; 2^64 - 1 where it is above that. It takes no memory.
pub fn request_size(request: &Request) -> u64
    ensures { result ≡ size_of (spelled.request_fields request.now) }
{
    match request {
        Request::ExecutePlan(request) => execute_size(request),
        Request::AnalyzePlan(request) => analyze_size(request),
        Request::Config(request) => config_size(request),
        Request::Interrupt(request) => interrupt_size(request),
        Request::ReattachExecute(request) => reattach_size(request),
        Request::ReleaseExecute(request) => release_size(request),
    }
}

/// How many messages are nested in the request's message, itself among them; 2^32 - 1 where there are more.
fn execute_depth(request: &ExecuteRequest) -> u32
    ensures { result ≡ told (depths.execute_depth request.now) }
{
    let options = reattachable_depth(request.reattachable);
    request
        .plan
        .depth()
        .max(context_depth(&request.user_context))
        .max(options)
        .saturating_add(1)
}

/// How many messages are nested in what is asked; 2^32 - 1 where there are more.
fn analysis_depth(analysis: &Analysis) -> u32
    ensures { result ≡ told (depths.analysis_depth analysis.now) }
{
    match analysis {
        Analysis::Schema(plan) | Analysis::IsStreaming(plan) => plan.depth().saturating_add(1),
        Analysis::SparkVersion => 1,
        Analysis::Other(_) => 0,
    }
}

/// How many messages are nested in the request's message, itself among them; 2^32 - 1 where there are more.
fn analyze_depth(request: &AnalyzeRequest) -> u32
    ensures { result ≡ told (depths.analyze_depth request.now) }
{
    analysis_depth(&request.analysis)
        .max(context_depth(&request.user_context))
        .saturating_add(1)
}

/// How many messages are nested in the request's spelling, its own among them; 2^32 - 1 where there are more. It takes no memory.
pub fn request_depth(request: &Request) -> u32
    ensures { result ≡ told (depths.request_depth request.now) }
{
    match request {
        Request::ExecutePlan(request) => execute_depth(request),
        Request::AnalyzePlan(request) => analyze_depth(request),
        Request::Config(request) => config_depth(request),
        Request::Interrupt(request) => interrupt_depth(request),
        Request::ReattachExecute(request) => reattach_depth(request),
        Request::ReleaseExecute(request) => release_depth(request),
    }
}

/// Whether what is asked has a spelling.
fn is_known_analysis(analysis: &Analysis) -> bool
    ensures { result ≡ known.is_known_analysis analysis.now }
{
    match analysis {
        Analysis::Schema(plan) => is_known_plan(plan),
        Analysis::IsStreaming(plan) => is_known_plan(plan),
        Analysis::SparkVersion => true,
        Analysis::Other(_) => false,
    }
}

/// Whether the request has a spelling: no part of its plan is outside the profile, and neither is what it asks. It takes no memory.
pub fn is_known_request(request: &Request) -> bool
    ensures { result ≡ known.is_known_request request.now }
{
    match request {
        Request::ExecutePlan(request) => is_known_plan(&request.plan),
        Request::AnalyzePlan(request) => is_known_analysis(&request.analysis),
        Request::Config(_)
        | Request::Interrupt(_)
        | Request::ReattachExecute(_)
        | Request::ReleaseExecute(_) => true,
    }
}
