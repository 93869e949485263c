ghost use Rattle.std.specs.Prelude.{◌≡◌};
ghost use Rattle.session_core.specs.declared.refusal.ConfigRefusal.TheVariants.{OutOfMemory as no_memory};

use cn_base::{OutOfMemory, Text};
use thiserror::Error;

/// Why an operation on settings was refused.
#[derive(Debug, Drop, Error)]
pub enum ConfigRefusal {
    /// The session is new, and there are as many sessions as there may be.
    #[error("there are {limit} sessions already")]
    SessionLimit { limit: u32 },
    /// The first key of a `Get` that has no value.
    #[error("a key has no value")]
    NotFound { key: Text },
    /// The key of the first pair of a `Set` that has no value, or one that its key may not take.
    #[error("a key may not take the value")]
    BadSetting { key: Text },
    /// No operation was set.
    #[error("there is no operation")]
    Unsupported,
    /// The answered pairs weigh more than this many bytes.
    #[error("the answer weighs more than {limit} bytes")]
    ReplyTooLarge { limit: u32 },
    /// There was no memory.
    #[error("out of memory")]
    OutOfMemory,
}

impl From<OutOfMemory> for ConfigRefusal {
    ghost from_gives = { λ _ e. e ≡ no_memory };

    fn from(_error: OutOfMemory) -> ConfigRefusal {
        ConfigRefusal::OutOfMemory
    }
}
