use thiserror::Error;

/// Why the bytes of a head are refused.
#[derive(Clone, Copy, Debug, PartialEq, Eq, Error)]
pub enum HeadReadFault {
    /// 16 KiB have come without the end of the head. It is settled by the last byte of the first 16,384, where it isn't that end.
    #[error("the head has more than 16 KiB")]
    HeadTooLong,
    /// Memory ran out. It says nothing of the bytes.
    #[error("out of memory")]
    OutOfMemory,
}
