ghost use Rattle.std.specs.Prelude.{◌≡◌, ◌↔◌, ◌<◌, ◌≤◌, List, [], length, min, Some, Contains, IsErr, IsTrue, IfOk, OnOk, OnErr};
ghost use Rattle.std.specs.Io.{ReadsAtMost};
ghost use Rattle.std.specs.Io.KnownBytes.{ReadConsumes};
ghost use Rattle.cn_base.specs.Outside.{counted, Counted, Writes};

use crate::{Bytes, Failed, List, Sink, Source, SteadySource};
use std::alloc::Global;
use std::marker::Model;

/// The calls of a memory form: which are to fail, how many were made and how many failed.
#[derive(Debug, Drop)]
pub(crate) struct Calls {
    pub(crate) failing: List<u64>,
    pub(crate) made: u64,
    pub(crate) failed: u64,
}

impl Calls {
    pub(crate) fn new(failing: List<u64>) -> Calls
        ensures failing { result.failing ≡ failing }
        ensures made { result.made ≡ 0 }
        ensures failed { result.failed ≡ 0 }
    {
        Calls {
            failing,
            made: 0,
            failed: 0,
        }
    }

    /// Counts one more call, and says whether it is to fail.
    pub(crate) fn next_fails(&mut self) -> bool
        ensures fails { IsTrue result ↔ Contains self.old.failing (counted self.old.made) }
        ensures made { self.new ≡ record self.old { made = counted self.old.made } }
    {
        self.made = self.made.saturating_add(1);
        self.failing.as_slice().contains(&self.made)
    }

    /// Counts one more failure.
    pub(crate) fn fail(&mut self) -> Failed
        ensures failed { self.new ≡ record self.old { failed = counted self.old.failed } }
        ensures never_falls { self.old.failed ≤ self.new.failed }
    {
        self.failed = self.failed.saturating_add(1);
        Failed
    }
}

/// A source of given bytes, of which given calls fail.
#[derive(Debug, Drop)]
pub struct MemorySource {
    bytes: SteadySource,
    calls: Calls,
}

impl Model for MemorySource {
    ghost use Rattle.cn_base.specs.Memory.{SourceState};

    ghost Value = { SourceState };

    ghost view = { λ s. record { left = s.bytes; failing = s.calls.failing; calls = s.calls.made; faults = s.calls.failed } };
}

impl MemorySource {
    /// A source of `bytes`. The calls whose numbers, counted from 1, are in `failing` are to fail. It takes no memory.
    pub fn new(bytes: Bytes, failing: List<u64>) -> MemorySource
        ensures { result ≡ record { left = bytes; failing = failing; calls = 0; faults = 0 } }
    {
        MemorySource {
            bytes: SteadySource::new(bytes),
            calls: Calls::new(failing),
        }
    }
}

impl Source for MemorySource {
    ghost left = { λ s. Some s.left };

    ghost faults = { λ s. s.faults };

    /// Gives as many of the bytes that are left as `into` has room for, or fails where this call is to fail.
    fn read(&mut self, into: &mut [u8]) -> Result<usize, Failed>
        requires { 0 < length into.old }
        ensures count { ReadsAtMost result into.new }
        ensures told { ReadConsumes (Some self.old.left) (Some self.new.left) result into.new }
        ensures cause { Counted self.old.faults self.new.faults result }
        ensures fails { IsErr result ↔ Contains self.old.failing (counted self.old.calls) }
        ensures all { IfOk result (λ n. n ≡ min (length into.old) (length self.old.left)) }
        ensures calls { self.new.calls ≡ counted self.old.calls }
        ensures failing { self.new.failing ≡ self.old.failing }
    {
        if self.calls.next_fails() {
            return Err(self.calls.fail());
        }
        self.bytes.read(into)
    }
}

/// A sink that keeps all bytes, of which given calls fail. A write that finds no memory fails too.
#[derive(Debug, Drop)]
pub struct MemorySink {
    bytes: Bytes,
    calls: Calls,
}

impl Model for MemorySink {
    ghost use Rattle.cn_base.specs.Memory.{SinkState};

    ghost Value = { SinkState };

    ghost view = { λ s. record { told = s.bytes; failing = s.calls.failing; calls = s.calls.made; faults = s.calls.failed } };
}

impl MemorySink {
    /// A sink without bytes. The calls whose numbers, counted from 1, are in `failing` are to fail. It takes no memory.
    pub fn new(alloc: Global, failing: List<u64>) -> MemorySink
        ensures { result ≡ record { told = []; failing = failing; calls = 0; faults = 0 } }
    {
        MemorySink {
            bytes: Bytes::new(alloc),
            calls: Calls::new(failing),
        }
    }

    /// Lends the bytes that the sink has taken.
    pub fn as_slice(&self) -> &[u8]
        ensures { result.now ≡ self.now.told }
    {
        self.bytes.as_slice()
    }
}

impl Sink for MemorySink {
    ghost told = { λ s. Some s.told };

    ghost faults = { λ s. s.faults };

    /// Takes all of `from`, or fails where this call is to fail or finds no memory.
    fn write(&mut self, from: &[u8]) -> Result<usize, Failed>
        requires { 0 < length from.now }
        ensures count { IfOk result (λ n. n ≡ length from.now) }
        ensures told { Writes (Some self.old.told) (Some self.new.told) from.now result }
        ensures cause { Counted self.old.faults self.new.faults result }
        ensures fails { Contains self.old.failing (counted self.old.calls) → IsErr result }
        ensures calls { self.new.calls ≡ counted self.old.calls }
        ensures failing { self.new.failing ≡ self.old.failing }
    {
        if self.calls.next_fails() {
            return Err(self.calls.fail());
        }
        match self.bytes.append(from) {
            Ok(()) => Ok(from.len()),
            Err(_) => Err(self.calls.fail()),
        }
    }
}
