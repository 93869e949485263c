ghost use Rattle.std.specs.Prelude.{◌≡◌};
ghost use Rattle.web_contents.specs.Faults.{fault_of_body, fault_of_frames, fault_of_head};

use thiserror::Error;
use web_bodies::BodyFault;
use web_frames::FrameFault;
use web_heads::HeadFault;

/// Why the bytes of a connection are refused. The fault that the fewest bytes settle is the one that is answered. Of the faults that one byte
/// settles it is the one that stands first here.
#[derive(Clone, Copy, Debug, PartialEq, Eq, Error)]
pub enum WebFault {
    /// A head has 16 KiB without its end, or the trailer section of a body in chunks has 16 KiB without its end.
    #[error("a head of more than 16 KiB")]
    HeadTooLong,
    /// A head has more than 64 lines after its first.
    #[error("a head of more than 64 fields")]
    TooManyHeaders,
    /// The bytes up to the first empty line are no head (RFC 9112, sections 2 to 5).
    #[error("not an HTTP/1.1 head")]
    BadHead,
    /// The method of a request isn't POST.
    #[error("not a POST")]
    BadMethod,
    /// The content type is none of gRPC-Web with protobuf.
    #[error("not application/grpc-web+proto")]
    BadType,
    /// What frames the body is missing, doubled, or no number up to 2^62 (RFC 9112, section 6.3).
    #[error("the body's length isn't known")]
    BadLength,
    /// A chunk line is none, or has more than 256 bytes: then `at` is the place of its first byte. Or the data of a chunk isn't followed by
    /// CR LF: then `at` is the place of the byte that should have been the CR. Places count the bytes of the connection from 0.
    #[error("bad chunk at byte {at}")]
    BadChunk { at: u64 },
    /// A frame's length is above the limit of its side.
    #[error("a frame of {length} bytes")]
    FrameTooLong { length: u64 },
    /// A frame is marked as compressed.
    #[error("a compressed frame")]
    Compressed,
    /// A byte of the payload follows the one message of a request.
    #[error("bytes after the message")]
    AfterMessage,
    /// The body of a request ends before its message does, or has trailers in place of it.
    #[error("no message")]
    NoMessage,
    /// A byte of the payload follows the trailers of a response.
    #[error("bytes after the trailers")]
    AfterTrailers,
    /// The trailers have no `grpc-status`, or one that is no decimal number up to 2^32 - 1.
    #[error("trailers without a right status")]
    BadTrailer,
    /// The body of a response ends within a frame, or the connection ends within a body by length or in chunks.
    #[error("the body is cut off")]
    Truncated,
    /// Memory ran out. It says nothing of the bytes.
    #[error("out of memory")]
    OutOfMemory,
}

impl From<HeadFault> for WebFault {
    ghost from_gives = { λ fault e. e ≡ fault_of_head fault };

    fn from(fault: HeadFault) -> WebFault {
        match fault {
            HeadFault::TooManyHeaders => WebFault::TooManyHeaders,
            HeadFault::BadHead => WebFault::BadHead,
            HeadFault::BadMethod => WebFault::BadMethod,
            HeadFault::BadType => WebFault::BadType,
            HeadFault::BadLength => WebFault::BadLength,
            HeadFault::OutOfMemory => WebFault::OutOfMemory,
        }
    }
}

impl From<BodyFault> for WebFault {
    ghost from_gives = { λ fault e. e ≡ fault_of_body fault };

    fn from(fault: BodyFault) -> WebFault {
        match fault {
            BodyFault::BadChunk { at } => WebFault::BadChunk { at },
            BodyFault::HeadTooLong => WebFault::HeadTooLong,
            BodyFault::OutOfMemory => WebFault::OutOfMemory,
        }
    }
}

impl From<FrameFault> for WebFault {
    ghost from_gives = { λ fault e. e ≡ fault_of_frames fault };

    fn from(fault: FrameFault) -> WebFault {
        match fault {
            FrameFault::FrameTooLong { length } => WebFault::FrameTooLong { length },
            FrameFault::Compressed => WebFault::Compressed,
            FrameFault::AfterMessage => WebFault::AfterMessage,
            FrameFault::NoMessage => WebFault::NoMessage,
            FrameFault::AfterTrailers => WebFault::AfterTrailers,
            FrameFault::BadTrailer => WebFault::BadTrailer,
            FrameFault::OutOfMemory => WebFault::OutOfMemory,
        }
    }
}
