ghost use Rattle.std.specs.Prelude.{◌≡◌};
ghost use Rattle.web_heads.specs.declared.fault.HeadFault.TheVariants.{OutOfMemory};

use thiserror::Error;

/// Why a head is refused. Where several faults hold, the first of this list is answered; memory comes last.
#[derive(Debug, PartialEq, Eq, Drop, Error)]
pub enum HeadFault {
    /// More than 64 lines stand between the first line and the empty line, each ended by LF.
    #[error("more than 64 header lines")]
    TooManyHeaders,
    /// The bytes are no head, all of them and of at most 64 fields (RFC 9112, section 2.1).
    #[error("not a head of HTTP/1.1")]
    BadHead,
    /// The method of a request is not POST.
    #[error("the method is not POST")]
    BadMethod,
    /// The content type, without parameters and in lower case, is neither `application/grpc-web` nor `application/grpc-web+proto`. In a
    /// response this is a fault with the status 200 alone.
    #[error("the content type is not gRPC-Web")]
    BadType,
    /// The body has both framings, or a request's neither; a framing field stands there twice; or a length is not decimal or above 2^62.
    #[error("the length of the body is not clear")]
    BadLength,
    /// Memory ran out. It says nothing of the bytes.
    #[error("out of memory")]
    OutOfMemory,
}

impl From<cn_base::OutOfMemory> for HeadFault {
    ghost from_gives = { λ _ e. e ≡ OutOfMemory };

    fn from(_error: cn_base::OutOfMemory) -> HeadFault {
        HeadFault::OutOfMemory
    }
}
