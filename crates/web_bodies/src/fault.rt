use thiserror::Error;

/// Why a body is refused. The fault that the fewest bytes of the body settle is the one that is answered.
#[derive(Clone, Copy, Debug, PartialEq, Eq, Error)]
pub enum BodyFault {
    /// A chunk line is none (RFC 9112, section 7.1) or has more than 256 bytes, its CR LF included: then `at` is the place of its first
    /// byte, and the fault is settled by its LF or by its 257th byte, whichever comes first. Or the data of a chunk isn't followed by CR LF:
    /// then `at` is the place of the byte that should have been the CR, and the fault is settled by the first byte that is wrong. Places
    /// count the bytes of the connection from 0.
    #[error("bad chunk at byte {at}")]
    BadChunk { at: u64 },
    /// The trailer section of a body in chunks has more than 16 KiB, the empty line included. It is settled by the last of 16 KiB that
    /// come after the last chunk line without the end of an empty line.
    #[error("the trailer section has more than 16 KiB")]
    HeadTooLong,
    /// Memory ran out. It says nothing of the bytes.
    #[error("out of memory")]
    OutOfMemory,
}
