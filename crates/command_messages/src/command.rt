use crate::WriteOperation;
use cn_base::{Copied, OutOfMemory};
use std::alloc::Global;

/// A command (`commands.proto`, Command).
#[derive(Debug, Drop)]
pub enum Command<R> {
    WriteOperation(WriteOperation<R>),
    /// A command outside the profile, by its field number; 0 where no command is there.
    Other(u32),
}

impl<R: Copied + Drop> Copied for Command<R> {
    fn copy(&self, alloc: Global) -> Result<Command<R>, OutOfMemory> {
        match self {
            Command::WriteOperation(it) => Ok(Command::WriteOperation(it.copy(alloc)?)),
            Command::Other(number) => Ok(Command::Other(*number)),
        }
    }
}
