ghost use Rattle.std.specs.Prelude.{◌≡◌, ◌↔◌, ◌<◌, ◌≤◌, ◌++◌, Some, None, Ok, Contains, IsErr, IsTrue, IsFalse, IfOk, option_to_list, List, [], ◌∷◌, true, false, length};
ghost use Rattle.cn_base.specs.Outside.{counted, Counted, Adds};
ghost use Rattle.cn_base.specs.Memory.{room_told, room_after};
ghost use Rattle.cn_base.specs.Peers.{given_after, id_after};

use crate::memory::Calls;
use crate::{
    Acceptor, Clock, Failed, Ids, List, OutOfMemory, Pauser, SteadySink, SteadySource, Text,
};
use std::alloc::Global;
use std::marker::Model;

/// An acceptor of given connections, in their order, of which given calls fail. A failed call takes no connection.
#[derive(Debug, Drop)]
pub struct MemoryAcceptor {
    left: List<(SteadySource, SteadySink)>,
    calls: Calls,
    given: u64,
    ended: bool,
}

impl Model for MemoryAcceptor {
    ghost use Rattle.std.specs.Prelude.{ℕ, List};
    ghost use Rattle.cn_base.specs.Memory.{RoomState};
    ghost use Rattle.cn_base.specs.Peers.{AcceptorState};

    ghost Value = { AcceptorState (List ℕ × RoomState) };

    ghost view = { λ s. record { left = s.left; failing = s.calls.failing; calls = s.calls.made; faults = s.calls.failed; given = s.given; ended = s.ended } };
}

impl MemoryAcceptor {
    /// An acceptor of `pairs`. The calls of `bind` and `accept` whose numbers, counted from 1, are in `failing` are to fail. It takes no
    /// memory.
    pub fn new(pairs: List<(SteadySource, SteadySink)>, failing: List<u64>) -> MemoryAcceptor
        ensures { result ≡ record { left = pairs; failing = failing; calls = 0; faults = 0; given = 0; ended = false } }
    {
        MemoryAcceptor {
            left: pairs,
            calls: Calls::new(failing),
            given: 0,
            ended: false,
        }
    }
}

impl Acceptor for MemoryAcceptor {
    type Input = SteadySource;

    type Output = SteadySink;

    ghost faults = { λ s. s.faults };

    ghost given = { λ s. s.given };

    ghost ended = { λ s. s.ended };

    /// Does nothing, or fails where this call is to fail.
    fn bind(&mut self, _address: &Text) -> Result<(), Failed>
        ensures cause { Counted self.old.faults self.new.faults result }
        ensures given { self.new.given ≡ self.old.given }
        ensures ended { IsFalse self.new.ended }
        ensures fails { IsErr result ↔ Contains self.old.failing (counted self.old.calls) }
        ensures left { self.new.left ≡ self.old.left }
        ensures calls { self.new.calls ≡ counted self.old.calls }
        ensures failing { self.new.failing ≡ self.old.failing }
    {
        self.ended = false;
        if self.calls.next_fails() {
            return Err(self.calls.fail());
        }
        Ok(())
    }

    /// Gives the next of the connections that are left, and the end only where none is left, or fails where this call is to fail.
    fn accept(&mut self) -> Result<Option<(SteadySource, SteadySink)>, Failed>
        ensures cause { Counted self.old.faults self.new.faults result }
        ensures given { self.new.given ≡ given_after self.old.given result }
        ensures ended { IsTrue self.new.ended ↔ (result ≡ Ok None) }
        ensures fails { IsErr result ↔ Contains self.old.failing (counted self.old.calls) }
        ensures next { IfOk result (λ pair. self.old.left ≡ option_to_list pair ++ self.new.left) }
        ensures end { result ≡ Ok None → self.old.left ≡ [] }
        ensures kept { IsErr result → self.new.left ≡ self.old.left }
        ensures calls { self.new.calls ≡ counted self.old.calls }
        ensures failing { self.new.failing ≡ self.old.failing }
    {
        self.ended = false;
        if self.calls.next_fails() {
            return Err(self.calls.fail());
        }
        if self.left.is_empty() {
            self.ended = true;
            return Ok(None);
        }
        self.given = self.given.saturating_add(1);
        Ok(Some(self.left.remove(0)))
    }
}

/// A clock that always tells the same time.
#[derive(Clone, Copy, Debug, PartialEq, Eq)]
pub struct FixedClock {
    ms: u64,
}

impl FixedClock {
    /// A clock that stands at `ms` milliseconds.
    pub fn new(ms: u64) -> FixedClock
        ensures { ⟦<FixedClock as Clock>⟧.last result ≡ ms }
    {
        FixedClock { ms }
    }
}

impl Clock for FixedClock {
    ghost last = { λ c. c.ms };

    /// The time at which the clock stands.
    fn now_ms(&mut self) -> u64
        ensures told { self.new.ms ≡ result }
        ensures fixed { result ≡ self.old.ms }
        ensures unchanged { self.new ≡ self.old }
    {
        self.ms
    }
}

/// A pauser that doesn't wait: it counts its pauses in room of a fixed size, and keeps their list while they fit. A pause past the room isn't
/// kept, and from then on the list isn't told.
#[derive(Debug, Drop)]
pub struct PauseList {
    pauses: Vec<u64>,
    room: usize,
    whole: bool,
}

impl Model for PauseList {
    ghost use Rattle.std.specs.Prelude.{◌≤◌, vec_len, vec_capacity};
    ghost use Rattle.cn_base.specs.Memory.{RoomState};

    ghost Value = { RoomState };

    ghost view = { λ s. record { kept = s.pauses.items; room = s.room; whole = s.whole } };

    ghost invariant = { λ s. (vec_len s.pauses ≤ s.room) × (s.room ≤ vec_capacity s.pauses) };
}

impl PauseList {
    /// A list with room for `room` pauses, for which it takes the memory now.
    pub fn new(alloc: Global, room: usize) -> Result<PauseList, OutOfMemory>
        ensures { IfOk result (λ s. s ≡ record { kept = []; room = room; whole = true }) }
    {
        let pauses = Vec::with_capacity(alloc, room)?;
        Ok(PauseList {
            pauses,
            room,
            whole: true,
        })
    }

    /// Lends the lengths of the pauses that are kept, in milliseconds.
    pub fn pauses(&self) -> &[u64]
        ensures { result.now ≡ self.now.kept }
    {
        self.pauses.as_slice()
    }
}

impl Pauser for PauseList {
    ghost told = { room_told };

    /// Keeps the length where there is room and every one before it was kept.
    fn pause_ms(&mut self, ms: u64)
        ensures told { Adds (room_told self.old) (room_told self.new) (ms ∷ []) }
        ensures kept { self.new ≡ room_after self.old (ms ∷ []) }
    {
        self.whole = self.whole && self.pauses.len() < self.room && self.pauses.push(ms).is_ok();
    }
}

/// Ids that count up from a first one. After the last id of 128 bits comes 0.
#[derive(Debug, Drop)]
pub struct CountIds {
    next: u128,
    last: u128,
    before: u128,
}

impl Model for CountIds {
    ghost use Rattle.cn_base.specs.Peers.{IdState};

    ghost Value = { IdState };

    ghost view = { λ s. record { next = s.next; last = s.last; before = s.before } };
}

impl CountIds {
    /// Ids from `first` on.
    pub fn new(first: u128) -> CountIds
        ensures { result ≡ record { next = first; last = 0; before = 0 } }
    {
        CountIds {
            next: first,
            last: 0,
            before: 0,
        }
    }
}

impl Ids for CountIds {
    ghost last = { λ s. s.last };

    ghost before = { λ s. s.before };

    /// The next id: the first, and then each time one more.
    fn next_id(&mut self) -> u128
        ensures last { self.new.last ≡ result }
        ensures before { self.new.before ≡ self.old.last }
        ensures next { result ≡ self.old.next }
        ensures counts { self.new.next ≡ id_after self.old.next }
    {
        self.before = self.last;
        self.last = self.next;
        self.next = self.next.wrapping_add(1);
        self.last
    }
}
