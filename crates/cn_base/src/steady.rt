ghost use Rattle.std.specs.Prelude.{◌≡◌, ◌+◌, ◌<◌, ◌≤◌, List, [], ◌++◌, take, length, min, Some, true, false, Ok, IsOk, IfOk, cond, ◌&&◌, nat_le};
ghost use Rattle.std.specs.Io.{ReadsAtMost};
ghost use Rattle.std.specs.Io.KnownBytes.{ReadConsumes};
ghost use Rattle.cn_base.specs.Outside.{Counted, Writes};
ghost use Rattle.cn_base.specs.Memory.{room_told, room_after};

use crate::{Bytes, Failed, OutOfMemory, Sink, Source};
use std::alloc::Global;
use std::marker::Model;

/// A source of given bytes that never fails.
#[derive(Debug, Drop)]
pub struct SteadySource {
    bytes: Bytes,
    at: usize,
}

impl Model for SteadySource {
    ghost use Rattle.std.specs.Prelude.{ℕ, List, ◌≤◌, length, drop};

    ghost Value = { List ℕ };

    ghost view = { λ s. drop s.at s.bytes };

    ghost invariant = { λ s. s.at ≤ length s.bytes };
}

impl SteadySource {
    /// A source of `bytes`. It takes no memory.
    pub fn new(bytes: Bytes) -> SteadySource
        ensures { result ≡ bytes }
    {
        SteadySource { bytes, at: 0 }
    }
}

impl Source for SteadySource {
    ghost left = { λ s. Some s };

    ghost faults = { λ _. 0 };

    /// Gives as many of the bytes that are left as `into` has room for.
    fn read(&mut self, into: &mut [u8]) -> Result<usize, Failed>
        requires { 0 < length into.old }
        ensures count { ReadsAtMost result into.new }
        ensures told { ReadConsumes (Some self.old) (Some self.new) result into.new }
        ensures cause { Counted 0 0 result }
        ensures all { result ≡ Ok (min (length into.old) (length self.old)) }
    {
        let count = copy_front(&self.bytes.as_slice()[self.at..], into);
        self.at += count;
        Ok(count)
    }
}

/// Copies the beginning of `from` to the beginning of `into`, as much as both have, and says how much that is.
fn copy_front(from: &[u8], into: &mut [u8]) -> usize
    ensures count { result ≡ min (length into.old) (length from.now) }
    ensures copied { take result into.new ≡ take result from.now }
    ensures length { length into.new ≡ length into.old }
{
    let count = into.len().min(from.len());
    into[..count].copy_from_slice(&from[..count]);
    count
}

/// A sink of fixed room that never fails. It takes its memory when it is made. A piece that doesn't fit what is left of its room is
/// taken and not kept; from then on the sink keeps no piece and tells no bytes.
#[derive(Debug, Drop)]
pub struct SteadySink {
    bytes: Vec<u8>,
    room: usize,
    whole: bool,
}

impl Model for SteadySink {
    ghost use Rattle.std.specs.Prelude.{◌≤◌, vec_len, vec_capacity};
    ghost use Rattle.cn_base.specs.Memory.{RoomState};

    ghost Value = { RoomState };

    ghost view = { λ s. record { kept = s.bytes.items; room = s.room; whole = s.whole } };

    ghost invariant = { λ s. (vec_len s.bytes ≤ s.room) × (s.room ≤ vec_capacity s.bytes) };
}

impl SteadySink {
    /// A sink with room for `room` bytes.
    pub fn new(alloc: Global, room: usize) -> Result<SteadySink, OutOfMemory>
        ensures { IfOk result (λ s. s ≡ record { kept = []; room = room; whole = true }) }
    {
        let bytes = Vec::with_capacity(alloc, room)?;
        Ok(SteadySink {
            bytes,
            room,
            whole: true,
        })
    }

    /// Lends the bytes that the sink has kept.
    pub fn as_slice(&self) -> &[u8]
        ensures { result.now ≡ self.now.kept }
    {
        self.bytes.as_slice()
    }
}

impl Sink for SteadySink {
    ghost told = { room_told };

    ghost faults = { λ _. 0 };

    /// Takes all of `from`, and keeps it where it fits and every piece before it did.
    fn write(&mut self, from: &[u8]) -> Result<usize, Failed>
        requires { 0 < length from.now }
        ensures count { result ≡ Ok (length from.now) }
        ensures told { Writes (room_told self.old) (room_told self.new) from.now result }
        ensures cause { Counted 0 0 result }
        ensures kept { self.new ≡ room_after self.old from.now }
    {
        self.whole = self.whole
            && from.len() <= self.room - self.bytes.len()
            && self.bytes.extend_from_slice(from).is_ok();
        Ok(from.len())
    }
}
