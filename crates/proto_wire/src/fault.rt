ghost use Rattle.std.specs.Prelude.{◌≡◌};
ghost use Rattle.proto_wire.specs.declared.fault.WireFault.TheVariants.{OutOfMemory};

use thiserror::Error;

/// Why bytes are no message: the first fault in byte order. Places count bytes from 0.
#[derive(Debug, PartialEq, Eq, Drop, Error)]
pub enum WireFault {
    /// The input ends inside a tag, a varint or a payload. The place is the input's length.
    #[error("the input ends inside a record, at {at}")]
    Truncated { at: usize },
    /// The tenth byte of the varint that begins at this place says that more follow ("Base 128 Varints").
    #[error("a varint of more than ten bytes at {at}")]
    VarintTooLong { at: usize },
    /// The varint at this place is no tag: its field number is 0 or above 536,870,911, or its wire type is 3, 4, 6 or 7 ("Message
    /// Structure").
    #[error("no tag at {at}")]
    BadTag { at: usize },
    /// Memory ran out. It says nothing of the bytes.
    #[error("out of memory")]
    OutOfMemory,
}

impl From<cn_base::OutOfMemory> for WireFault {
    ghost from_gives = { λ _ e. e ≡ OutOfMemory };

    fn from(_error: cn_base::OutOfMemory) -> WireFault {
        WireFault::OutOfMemory
    }
}
