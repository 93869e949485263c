ghost use Rattle.std.specs.Prelude.{◌≡◌, ◌↔◌, IsTrue, IfOk, IfErr, Err};
ghost use Rattle.web_head_reader.specs.Steps.{begin, refused_at};
ghost use Rattle.web_head_reader.specs.Calls.{Takes, Refuses};

use crate::{HeadPlace, HeadReadFault};
use std::alloc::Global;
use std::marker::Model;
use web_heads::head_end;

/// The longest head, in bytes: 16 KiB, its empty line included.
const MOST_HEAD: usize = 16_384;

/// A head whose bytes come in pieces. It keeps them up to the head's end, and no more room than they take. It is seen as a `HeadState`: its
/// place, and the bytes that it keeps.
#[derive(Debug, Drop)]
pub struct HeadReader {
    place: HeadPlace,
    held: Vec<u8>,
}

impl Model for HeadReader {
    ghost use Rattle.std.specs.Prelude.{ℕ};
    ghost use Rattle.web_head_reader.specs.Steps.{HeadState};
    ghost use Rattle.web_head_reader.specs.Calls.{HoldsHead};

    ghost Value = { HeadState };

    ghost view = { λ r. record { place = r.place; held = r.held.items } };

    ghost invariant = { λ r. HoldsHead r.place r.held.items };
}

impl HeadReader {
    /// A reader before the first byte of a connection. It takes no memory.
    pub fn new(alloc: Global) -> HeadReader
        ensures { result ≡ begin }
    {
        HeadReader {
            place: HeadPlace::Open,
            held: Vec::new(alloc),
        }
    }

    /// Takes bytes from the beginning of a piece up to the end of the head, and says how many: all of them, unless the head is whole then,
    /// and none where it was whole before. An `Err` is HeadTooLong, or want of memory; the head is refused from then on, and every later
    /// call answers the same.
    pub fn take(&mut self, piece: &[u8]) -> Result<usize, HeadReadFault>
        ensures taken { IfOk result (Takes self.old piece.now self.new) }
        ensures refused { IfErr result (Refuses self.old piece.now self.new) }
        ensures stays_refused { (fault : HeadReadFault) → self.old.place ≡ HeadPlace.Refused fault
            → (result ≡ Err fault) × (self.new ≡ self.old) }
    {
        match self.place {
            HeadPlace::Open => self.search(piece),
            HeadPlace::Whole => Ok(0),
            HeadPlace::Refused(fault) => Err(fault),
        }
    }

    /// Whether the head is whole. It takes no memory.
    pub fn is_whole(&self) -> bool
        ensures { IsTrue result ↔ (self.now.place ≡ HeadPlace.Whole) }
    {
        matches!(self.place, HeadPlace::Whole)
    }

    /// Lends the bytes that have come of the head, all of them where it is whole, and none where it is refused.
    pub fn head(&self) -> &[u8]
        ensures { result.now ≡ self.now.held }
    {
        self.held.as_slice()
    }

    /// Takes bytes of a head that isn't whole.
    fn search(&mut self, piece: &[u8]) -> Result<usize, HeadReadFault>
        requires { self.old.place ≡ HeadPlace.Open }
        ensures taken { IfOk result (Takes self.old piece.now self.new) }
        ensures refused { IfErr result (Refuses self.old piece.now self.new) }
    {
        let before = self.held.len();
        let count = piece.len().min(MOST_HEAD - before);
        if self.held.extend_from_slice(&piece[..count]).is_err() {
            return Err(self.run_out());
        }

        // The first three bytes of the end may have come before.
        match head_end(self.held.as_slice(), before.saturating_sub(3)) {
            Some(stop) => {
                self.held.truncate(stop);
                self.place = HeadPlace::Whole;
                Ok(stop - before)
            }
            None => {
                if before + count < MOST_HEAD {
                    return Ok(count);
                }
                self.place = HeadPlace::Refused(HeadReadFault::HeadTooLong);
                self.held.clear();
                Err(HeadReadFault::HeadTooLong)
            }
        }
    }

    /// Refuses the head for want of memory, and keeps nothing.
    fn run_out(&mut self) -> HeadReadFault
        ensures state { self.new ≡ refused_at HeadReadFault.OutOfMemory }
        ensures fault { result ≡ HeadReadFault.OutOfMemory }
    {
        self.place = HeadPlace::Refused(HeadReadFault::OutOfMemory);
        self.held.clear();
        HeadReadFault::OutOfMemory
    }
}
