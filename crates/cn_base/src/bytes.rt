ghost use Rattle.std.specs.Prelude.{◌≡◌, ◌≤◌, [], ◌++◌, length, take, drop, reverse, IfOk, OnOk, OnErr};

use crate::{Copied, OutOfMemory};
use std::alloc::Global;
use std::marker::Model;

/// Bytes that contracts see as their list. Every call that needs memory leaves them as they were where there is none.
#[derive(Debug, Drop)]
pub struct Bytes {
    items: Vec<u8>,
}

impl Model for Bytes {
    ghost use Rattle.std.specs.Prelude.{ℕ, List};
    ghost use Rattle.std.specs.Coded.{coded_list, coded_ℕ};

    ghost Value = { List ℕ };

    ghost coded = { coded_list coded_ℕ };

    ghost view = { λ b. b.items.items };
}

impl Bytes {
    /// No bytes. It takes no memory.
    pub fn new(alloc: Global) -> Bytes
        ensures { result ≡ [] }
    {
        Bytes {
            items: Vec::new(alloc),
        }
    }

    /// No bytes, with room for `room` bytes. The room is a hint: appending within it takes no more memory, which no clause says.
    pub fn with_room(alloc: Global, room: usize) -> Result<Bytes, OutOfMemory>
        ensures { IfOk result (λ b. b ≡ []) }
    {
        let items = Vec::with_capacity(alloc, room)?;
        Ok(Bytes { items })
    }

    /// The bytes of a vector, which are moved and not copied. It takes no memory.
    pub fn from_vec(items: Vec<u8>) -> Bytes
        ensures { result ≡ items.items }
    {
        Bytes { items }
    }

    /// A copy of these bytes.
    pub fn of(alloc: Global, bytes: &[u8]) -> Result<Bytes, OutOfMemory>
        ensures { IfOk result (λ b. b ≡ bytes.now) }
    {
        let items = Vec::from_slice(alloc, bytes)?;
        Ok(Bytes { items })
    }

    /// Adds `more` at the end, or changes nothing.
    pub fn append(&mut self, more: &[u8]) -> Result<(), OutOfMemory>
        ensures ok { OnOk result (self.new ≡ self.old ++ more.now) }
        ensures err { OnErr result (self.new ≡ self.old) }
    {
        self.items.extend_from_slice(more)
    }

    /// Adds `first` and then `second` at the end, or changes nothing.
    pub fn append_both(&mut self, first: &[u8], second: &[u8]) -> Result<(), OutOfMemory>
        ensures ok { OnOk result (self.new ≡ self.old ++ (first.now ++ second.now)) }
        ensures err { OnErr result (self.new ≡ self.old) }
    {
        self.items.reserve(first.len() + second.len())?;
        self.items.extend_from_slice(first)?;
        self.items.extend_from_slice(second)
    }

    /// Turns the order of the bytes from the place `start` on. It takes no memory.
    pub fn reverse_from(&mut self, start: usize)
        requires { start ≤ length self.old }
        ensures { self.new ≡ take start self.old ++ reverse (drop start self.old) }
    {
        self.items[start..].reverse();
    }

    /// How many bytes there are.
    pub fn len(&self) -> usize
        ensures { result ≡ length self.now }
    {
        self.items.len()
    }

    /// Lends the bytes.
    pub fn as_slice(&self) -> &[u8]
        ensures { result.now ≡ self.now }
    {
        self.items.as_slice()
    }
}

impl Copied for Bytes {
    fn copy(&self, alloc: Global) -> Result<Bytes, OutOfMemory> {
        Bytes::of(alloc, self.as_slice())
    }
}
