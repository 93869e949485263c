ghost use Rattle.std.specs.Prelude.{◌≡◌};
ghost use Rattle.web_frames.specs.declared.fault.FrameFault.TheVariants.{OutOfMemory};

use thiserror::Error;

/// Why payload bytes are refused. Each fault is settled by one byte, the last of the shortest beginning of which it holds; of the faults that
/// one byte settles, a flag of a compressed frame comes before one of trailers in a request, as they stand here.
#[derive(Clone, Copy, Debug, PartialEq, Eq, Error)]
pub enum FrameFault {
    /// A frame's length is above the limit of its side. It is settled by the last byte of the length, and nothing was reserved for it.
    #[error("a frame of {length} bytes")]
    FrameTooLong { length: u64 },
    /// The lowest bit of a frame's flag marks it as compressed. It is settled by the flag.
    #[error("a compressed frame")]
    Compressed,
    /// A byte follows the one message of a request.
    #[error("bytes after the message")]
    AfterMessage,
    /// Trailers stand in a request. It is settled by their flag.
    #[error("trailers in place of a message")]
    NoMessage,
    /// A byte follows the trailers of a response.
    #[error("bytes after the trailers")]
    AfterTrailers,
    /// The trailers have no `grpc-status`, or one that is no decimal number up to 2^32 - 1. It is settled by the last byte of their frame.
    #[error("trailers without a right status")]
    BadTrailer,
    /// Memory ran out. It says nothing of the bytes.
    #[error("out of memory")]
    OutOfMemory,
}

impl From<cn_base::OutOfMemory> for FrameFault {
    ghost from_gives = { λ _ e. e ≡ OutOfMemory };

    fn from(_error: cn_base::OutOfMemory) -> FrameFault {
        FrameFault::OutOfMemory
    }
}
