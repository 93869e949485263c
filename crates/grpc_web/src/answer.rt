ghost use Rattle.std.specs.Prelude.{◌≡◌};
ghost use Rattle.grpc_web.specs.FaultAnswers as answers;

use web_contents::WebFault;

/// What a server answers a refused request with.
#[derive(Clone, Copy, Debug, PartialEq, Eq)]
pub enum FaultAnswer {
    /// A response of this HTTP status without a body (RFC 9110, section 15), as [`crate::refused_head`] writes it.
    Http { status: u16 },
    /// A response with the HTTP status 200 and no message, whose trailers have this `grpc-status` and a message of this name.
    Grpc { status: u32, name: FaultName },
}

/// The name of a fault in the message of trailers.
#[derive(Clone, Copy, Debug, PartialEq, Eq)]
pub enum FaultName {
    /// A frame is compressed, and compression isn't supported.
    Compressed,
    /// A request isn't one message.
    BadRequest,
}

impl FaultName {
    /// The name as it is written. It takes no memory.
    pub fn as_str(self) -> &'static str
        ensures { result.now ≡ answers.text_of self }
    {
        match self {
            FaultName::Compressed => "COMPRESSED",
            FaultName::BadRequest => "BAD_REQUEST",
        }
    }
}

/// What a server answers a request with that this fault refuses: None for faults that only answers have, for a connection that ended within
/// the request, and for want of memory. It takes no memory.
pub fn answer_of(fault: WebFault) -> Option<FaultAnswer>
    ensures { result ≡ answers.answer_of fault }
{
    match fault {
        WebFault::HeadTooLong => Some(FaultAnswer::Http { status: 413 }),
        WebFault::TooManyHeaders => Some(FaultAnswer::Http { status: 413 }),
        WebFault::BadHead => Some(FaultAnswer::Http { status: 400 }),
        WebFault::BadMethod => Some(FaultAnswer::Http { status: 405 }),
        WebFault::BadType => Some(FaultAnswer::Http { status: 415 }),
        WebFault::BadLength => Some(FaultAnswer::Http { status: 400 }),
        WebFault::BadChunk { at: _ } => Some(FaultAnswer::Http { status: 400 }),
        WebFault::FrameTooLong { length: _ } => Some(FaultAnswer::Http { status: 413 }),
        WebFault::Compressed => Some(FaultAnswer::Grpc {
            status: 12,
            name: FaultName::Compressed,
        }),
        WebFault::AfterMessage => Some(FaultAnswer::Grpc {
            status: 3,
            name: FaultName::BadRequest,
        }),
        WebFault::NoMessage => Some(FaultAnswer::Grpc {
            status: 3,
            name: FaultName::BadRequest,
        }),
        WebFault::AfterTrailers => None,
        WebFault::BadTrailer => None,
        WebFault::Truncated => None,
        WebFault::OutOfMemory => None,
    }
}
