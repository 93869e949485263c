ghost use Rattle.std.specs.Prelude.{◌≡◌};
ghost use Rattle.proto_fields.specs.declared.fault.MessageFault.TheVariants.{OutOfMemory};

use proto_wire::WireFault;
use thiserror::Error;

/// Why bytes are no message of a kind: the first fault, of a message before those of its payloads. Places count bytes of the outermost
/// message from 0.
#[derive(Debug, PartialEq, Eq, Drop, Error)]
pub enum MessageFault {
    /// A message's bytes aren't records. The place of `Truncated` is the end of the message that breaks off.
    #[error("{0}")]
    Wire(WireFault),
    /// A text whose first byte stands at this place isn't UTF-8.
    #[error("a text that is no UTF-8 at {at}")]
    NotUtf8 { at: usize },
    /// A message whose first byte stands at this place is nested deeper than 200, where the outermost one counts as 1.
    #[error("a message nested too deep at {at}")]
    TooDeep { at: usize },
    /// Memory ran out. It says nothing of the bytes.
    #[error("out of memory")]
    OutOfMemory,
}

impl From<cn_base::OutOfMemory> for MessageFault {
    ghost from_gives = { λ _ e. e ≡ OutOfMemory };

    fn from(_error: cn_base::OutOfMemory) -> MessageFault {
        MessageFault::OutOfMemory
    }
}
