ghost use Rattle.std.specs.Prelude.{◌≡◌, ◌↔◌, ℕ, Bool, IsTrue, IsFalse, Option, None, Result, Ok, List, [], ◌∷◌};
ghost use Rattle.cn_base.specs.Outside.{Counted, Adds};
ghost use Rattle.cn_base.specs.Peers.{given_after};

use crate::{Failed, Sink, Source, Text};

/// Where connections come from.
pub trait Acceptor {
    /// What a connection sends. It can be let go, which ends the connection's reading.
    type Input: Source + Drop + Send + 'static;

    /// Where a connection's answer goes. It can be let go, which ends the connection's writing.
    type Output: Sink + Drop + Send + 'static;

    /// How many calls have failed. The count never falls, and stays at 2^64 - 1.
    ghost faults: { Self → ℕ };

    /// How many connections were given. The count stays at 2^64 - 1.
    ghost given: { Self → ℕ };

    /// Whether the last call was an `accept` that told the end of connections.
    ghost ended: { Self → Bool };

    /// Listens at an address from now on.
    fn bind(&mut self, address: &Text) -> Result<(), Failed>
        ensures cause { Counted (faults self.old) (faults self.new) result }
        ensures given { given self.new ≡ given self.old }
        ensures ended { IsFalse (ended self.new) };

    /// The next connection, what it sends and where its answer goes. None is the end of connections; a socket never tells it.
    fn accept(&mut self) -> Result<Option<(Self::Input, Self::Output)>, Failed>
        ensures cause { Counted (faults self.old) (faults self.new) result }
        ensures given { given self.new ≡ given_after (given self.old) result }
        ensures ended { IsTrue (ended self.new) ↔ (result ≡ Ok None) };
}

/// What tells the time.
pub trait Clock {
    /// The last answer. Before the first it is whatever the clock was made with, and nothing is said of it.
    ghost last: { Self → ℕ };

    /// The time in milliseconds. It can't fail, and nothing is said of one answer by another.
    fn now_ms(&mut self) -> u64
        ensures { last self.new ≡ result };
}

/// What waits.
pub trait Pauser {
    /// The lengths of the pauses so far in milliseconds, where they are told. It may stop telling, and does not begin to.
    ghost told: { Self → Option (List ℕ) };

    /// Waits so many milliseconds. It can't fail.
    fn pause_ms(&mut self, ms: u64)
        ensures { Adds (told self.old) (told self.new) (ms ∷ []) };
}

/// What makes ids.
pub trait Ids {
    /// The last id; 0 before the first.
    ghost last: { Self → ℕ };

    /// The id before the last one; 0 before the second.
    ghost before: { Self → ℕ };

    /// The next id. It can't fail, and nothing is said of one id by another.
    fn next_id(&mut self) -> u128
        ensures last { last self.new ≡ result }
        ensures before { before self.new ≡ last self.old };
}
