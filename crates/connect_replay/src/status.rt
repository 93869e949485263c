ghost use Rattle.std.specs.Prelude.{◌≡◌};

/// How a run of `replay` ended.
#[derive(Clone, Copy, Debug, PartialEq, Eq)]
pub enum ReplayStatus {
    /// Every ask printed `complete`.
    Done,
    /// There are words, and `replay` takes none.
    BadWords,
    /// The script's first line that isn't one.
    BadScript { line: u64 },
    /// A read failed.
    ReadFault,
    /// A write failed.
    WriteFault,
    /// There was no memory.
    OutOfMemory,
}

impl ReplayStatus {
    ghost use Rattle.connect_replay.specs.Exit.{exit_code_of};

    /// The exit status of the program.
    pub fn exit_code(&self) -> u8
        ensures { result ≡ exit_code_of self.now }
    {
        match self {
            ReplayStatus::Done => 0,
            ReplayStatus::BadWords => 2,
            ReplayStatus::BadScript { .. } => 3,
            ReplayStatus::ReadFault => 4,
            ReplayStatus::WriteFault => 5,
            ReplayStatus::OutOfMemory => 6,
        }
    }
}
