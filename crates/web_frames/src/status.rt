ghost use Rattle.std.specs.Prelude.{◌≡◌, IfOk};

use cn_base::{Copied, OutOfMemory, Text};
use std::alloc::Global;

/// How a call ended (gRPC over HTTP2, "Responses").
#[derive(Debug, Drop)]
pub struct Trailers {
    /// The number of the status, 0 where the call went well.
    pub status: u32,
    /// What there is to say of it, decoded; empty where it was not sent.
    pub message: Text,
}

impl Copied for Trailers {
    fn copy(&self, alloc: Global) -> Result<Trailers, OutOfMemory> {
        let message = self.message.copy(alloc)?;
        Ok(Trailers {
            status: self.status,
            message,
        })
    }
}
