ghost use Rattle.std.specs.Prelude.{◌≡◌, ℕ, ◌<◌, ◌≤◌, List, Option, length, IfOk, OnOk, OnErr};
ghost use Rattle.std.specs.Io.{ReadsAtMost};
ghost use Rattle.std.specs.Io.KnownBytes.{ReadConsumes};
ghost use Rattle.cn_base.specs.Outside.{Counted, Adds, AddsPart, Writes};

/// A call on the outside failed. Its object's count of faults rose in that call.
#[derive(Clone, Copy, Debug, PartialEq, Eq)]
pub struct Failed;

/// Where bytes come from.
pub trait Source {
    /// The bytes that reads will give from here on, where the source tells them.
    ghost left: { Self → Option (List ℕ) };

    /// How many calls have failed. The count never falls, and stays at 2^64 - 1.
    ghost faults: { Self → ℕ };

    /// Fills the beginning of `into`, which isn't empty, and says how many bytes: at most all of it. `Ok(0)` is the end of input.
    /// Where the source tells its bytes, these are the next ones, and a failed call takes none.
    fn read(&mut self, into: &mut [u8]) -> Result<usize, Failed>
        requires { 0 < length into.old }
        ensures count { ReadsAtMost result into.new }
        ensures told { ReadConsumes (left self.old) (left self.new) result into.new }
        ensures cause { Counted (faults self.old) (faults self.new) result };
}

/// Where bytes go to.
pub trait Sink {
    /// The bytes that the sink has taken, where it tells them. It may stop telling, and does not begin to.
    ghost told: { Self → Option (List ℕ) };

    /// How many calls have failed. The count never falls, and stays at 2^64 - 1.
    ghost faults: { Self → ℕ };

    /// Takes a beginning of `from`, which isn't empty, and says how many bytes: at least one. A failed call takes none, and to take
    /// nothing is a failure.
    fn write(&mut self, from: &[u8]) -> Result<usize, Failed>
        requires { 0 < length from.now }
        ensures count { IfOk result (λ n. (0 < n) × (n ≤ length from.now)) }
        ensures told { Writes (told self.old) (told self.new) from.now result }
        ensures cause { Counted (faults self.old) (faults self.new) result };
}

/// Writes all of `bytes`, by as many writes as it takes. After `Failed` a beginning of them that isn't the whole was written, and the
/// sink's count of faults rose. It takes no memory.
pub fn write_all<K: Sink>(sink: &mut K, bytes: &[u8]) -> Result<(), Failed>
    ensures whole { OnOk result (Adds (K.told sink.old) (K.told sink.new) bytes.now) }
    ensures part { OnErr result (AddsPart (K.told sink.old) (K.told sink.new) bytes.now) }
    ensures cause { Counted (K.faults sink.old) (K.faults sink.new) result }
{
    let mut at = 0;
    while at < bytes.len() {
        at += sink.write(&bytes[at..])?;
    }
    Ok(())
}
