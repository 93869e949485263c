ghost use Rattle.std.specs.Prelude.{◌≡◌, Ok};
ghost use Rattle.web_frames.specs.Trailers as texts;
ghost use Rattle.web_responses.specs.Openings as openings;

use cn_base::Bytes;
use std::alloc::Global;
use web_contents::WebFault;
use web_frames::{FrameFault, Trailers, trailers_of};
use web_head_reader::HeadReadFault;
use web_heads::{BodyKind, ResponseHead, read_response_head};

/// What the head of a response says of the answer.
#[derive(Debug, Drop)]
pub struct Opening {
    pub status: u16,
    pub body: BodyKind,
    /// The trailers, where they stand in the head: then the body has no frames.
    pub trailers: Option<Trailers>,
}

/// The fault of a head that isn't whole.
pub fn fault_of_reading(fault: HeadReadFault) -> WebFault
    ensures { result ≡ openings.fault_of_reading fault }
{
    match fault {
        HeadReadFault::HeadTooLong => WebFault::HeadTooLong,
        HeadReadFault::OutOfMemory => WebFault::OutOfMemory,
    }
}

/// The trailers of these values.
fn trailers_with(
    alloc: Global,
    status: &[u8],
    message: &Option<Bytes>,
) -> Result<Trailers, FrameFault>
    ensures { texts.GivesTrailers result (texts.trailers_of status.now message.now) }
{
    match message {
        Some(message) => trailers_of(alloc, status, Some(message.as_slice())),
        None => trailers_of(alloc, status, None),
    }
}

/// The trailers in a head, where it has a `grpc-status`.
fn trailers_in_head(alloc: Global, head: &ResponseHead) -> Result<Option<Trailers>, FrameFault>
    ensures { openings.ReadsTrailers result (openings.trailers_in_head head.now.grpc_status head.now.grpc_message) }
{
    match &head.grpc_status {
        Some(status) => match trailers_with(alloc, status.as_slice(), &head.grpc_message) {
            Ok(trailers) => Ok(Some(trailers)),
            Err(fault) => Err(fault),
        },
        None => Ok(None),
    }
}

/// What the head says besides its trailers.
fn opening_with(alloc: Global, head: &ResponseHead) -> Result<Opening, WebFault>
    ensures { openings.Reads result (openings.opening_of (Ok head.now)) }
{
    match trailers_in_head(alloc, head) {
        Ok(trailers) => Ok(Opening {
            status: head.status,
            body: head.body,
            trailers,
        }),
        Err(fault) => Err(WebFault::from(fault)),
    }
}

/// What the whole head of a response says, or why the answer is refused for it.
#[tactic(auto, unfolding(crate::specs::Openings::opening))]
pub fn read_opening(alloc: Global, head: &[u8]) -> Result<Opening, WebFault>
    ensures { openings.Reads result (openings.opening head.now) }
{
    match read_response_head(alloc, head) {
        Ok(head) => opening_with(alloc, &head),
        Err(fault) => Err(WebFault::from(fault)),
    }
}
