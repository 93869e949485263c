ghost use Rattle.std.specs.Prelude.{◌≡◌, ◌≢◌, ◌↔◌, ◌+◌, ◌<◌, ◌≤◌, ◌^◌, ℕ, List, length, false, IsTrue, IfOk, IfErr, IsOk, OnOk, Err, ◌⊎◌};
ghost use Rattle.web_bodies.specs.Body.{IsReached};
ghost use Rattle.web_bodies.specs.Steps.{begin, awaits_payload, moved, line_step, body_step, after, payload_after};
ghost use Rattle.web_bodies.specs.declared.fault.BodyFault.TheVariants.{OutOfMemory};
ghost use Rattle.web_bodies.specs.Calls as calls;
ghost use Rattle.web_bodies.specs.Calls.{TakesPayload, TakesFraming, Refuses};

use crate::{BodyFault, BodyPlace, steps};
use std::alloc::Global;
use std::marker::Model;
use web_heads::{BodyKind, chunk_size};

/// The longest chunk line, in bytes.
const MOST_CHUNK_LINE: usize = 256;

/// A body whose bytes come in pieces. It says which of them are payload and takes the others; the payload stays with the caller. It is seen
/// as what has come of the body: where the next byte stands, its place in the connection, and the bytes of the chunk line so far.
#[derive(Debug, Drop)]
pub struct BodyReader {
    place: BodyPlace,
    count: u64,
    line: Vec<u8>,
}

impl Model for BodyReader {
    ghost use Rattle.std.specs.Prelude.{length, ◌≤◌};
    ghost use Rattle.web_bodies.specs.Body.{Body, IsReached};

    ghost Value = { Body };

    ghost view = { λ r. record { place = r.place; count = r.count; line = r.line.items } };

    ghost invariant = { λ r. IsReached r.place × (length r.line.items ≤ 256) };
}

impl BodyReader {
    /// A body of a kind before its first byte, which is byte `at` of the connection. A body of length 0 is over at once. It takes no memory.
    #[tactic(auto, unfolding(crate::specs::Steps::begin, crate::specs::Steps::first_place))]
    pub fn new(alloc: Global, kind: BodyKind, at: u64) -> BodyReader
        ensures begun { result ≡ begin kind at }
        ensures counted { result.count ≡ at }
    {
        BodyReader {
            place: steps::first_place(kind, at),
            count: at,
            line: Vec::new(alloc),
        }
    }

    /// Whether the body is over. It never is where it ends with the connection. It takes no memory.
    pub fn is_over(&self) -> bool
        ensures { IsTrue result ↔ (self.now.place ≡ BodyPlace.Over) }
    {
        matches!(self.place, BodyPlace::Over)
    }

    /// How many of the next `available` bytes are payload, whatever they are: as many as the body is known to have next. It is 0 where bytes
    /// of the framing are next, and where the body is over or refused. It takes no memory.
    pub fn payload_ahead(&self, available: usize) -> usize
        ensures count { result ≡ calls.payload_ahead self.now.place available }
        ensures within { result ≤ available }
        ensures all { (bytes : List ℕ) → length bytes ≤ result → payload_after self.now bytes ≡ bytes }
        ensures most { result < available → (bytes : List ℕ) → length bytes ≡ result
            → awaits_payload (after self.now bytes).place ≡ false }

        // A caller may take fewer, and where there are none it goes on with the framing.
        ensures fewer { (count : ℕ) → count ≤ result → calls.payload_ahead self.now.place count ≡ count }
        ensures none { result ≡ 0 → 0 < available → awaits_payload self.now.place ≡ false }
    {
        steps::payload_ahead(self.place, available)
    }

    /// Takes the next `count` bytes, all of which have to be payload: `payload_ahead` says how many are. The bytes taken before and these are
    /// together fewer than 2^63. It takes no memory.
    pub fn take_payload(&mut self, count: usize)
        requires ahead { calls.payload_ahead self.old.place count ≡ count }
        requires places { self.old.count + count < 2 ^ 63 }
        ensures taken { (bytes : List ℕ) → length bytes ≡ count → TakesPayload self.old bytes self.new }
        ensures not_refused { 0 < count → (fault : BodyFault) → self.new.place ≢ BodyPlace.Refused fault }
    {
        self.place = steps::place_after(self.place, count as u64);
        self.count += count as u64;
    }

    /// Takes the next bytes of the framing from the beginning of a piece, and says how many it took: at least one, up to where payload
    /// begins, the body is over or the piece ends. The piece isn't empty, no payload is ahead, the body isn't over, and the bytes taken before
    /// and the piece are together fewer than 2^63. An `Err` is the body's fault, or want of memory; the body is refused from then on, and
    /// every later call answers the same.
    pub fn take_framing(&mut self, piece: &[u8]) -> Result<usize, BodyFault>
        requires some { 0 < length piece.now }
        requires framing { calls.payload_ahead self.old.place (length piece.now) ≡ 0 }
        requires not_over { self.old.place ≢ BodyPlace.Over }
        requires places { self.old.count + length piece.now < 2 ^ 63 }
        ensures taken { IfOk result (TakesFraming self.old piece.now self.new) }
        ensures refused { IfErr result (Refuses self.old piece.now self.new) }
        ensures stays_refused { (fault : BodyFault) → self.old.place ≡ BodyPlace.Refused fault
            → (result ≡ Err fault) × (self.new ≡ self.old) }
    {
        if let BodyPlace::Refused { fault } = self.place {
            return Err(fault);
        }
        for (index, byte) in piece.iter().enumerate() {
            self.take_byte(*byte)?;
            match self.place {
                BodyPlace::Refused { fault } => return Err(fault),
                _ => {}
            }
            if !self.is_in_framing() {
                return Ok(index + 1);
            }
        }
        Ok(piece.len())
    }

    /// Takes one byte of the body. Without memory the body is refused.
    #[tactic(auto, unfolding(crate::specs::Steps::body_step, crate::specs::Steps::step_at))]
    fn take_byte(&mut self, byte: u8) -> Result<(), BodyFault>
        requires { self.old.count + 1 < 2 ^ 63 }
        ensures ok { OnOk result (self.new ≡ body_step self.old byte) }
        ensures err { IfErr result (λ fault. (fault ≡ OutOfMemory) × (self.new.place ≡ BodyPlace.Refused OutOfMemory)) }
    {
        match self.place {
            BodyPlace::DataByLength { left } => self.move_to(steps::length_place(left - 1)),
            BodyPlace::DataToEnd => self.move_to(BodyPlace::DataToEnd),
            BodyPlace::ChunkLine { at } => self.take_line_byte(at, byte),
            BodyPlace::ChunkData { left } => self.move_to(steps::data_place(left - 1)),
            BodyPlace::ChunkCr => self.move_to(steps::cr_place(self.count, byte)),
            BodyPlace::ChunkLf { at } => self.move_to(steps::lf_place(at, self.count + 1, byte)),
            BodyPlace::Trailers { count, line } => self.move_to(steps::trailers_place(
                count, line, byte,
            )),
            BodyPlace::Over => Ok(()),
            BodyPlace::Refused { fault: _ } => Ok(()),
        }
    }

    /// Counts one byte, after which the next one stands at this place.
    fn move_to(&mut self, place: BodyPlace) -> Result<(), BodyFault>
        requires reached { IsReached place }
        requires counted { self.old.count + 1 < 2 ^ 63 }
        ensures moved { self.new ≡ moved self.old place }
        ensures ok { IsOk result }
    {
        self.place = place;
        self.count += 1;
        Ok(())
    }

    /// Takes one byte of the chunk line that begins at byte `at`.
    #[tactic(auto, unfolding(crate::specs::Steps::line_step))]
    fn take_line_byte(&mut self, at: u64, byte: u8) -> Result<(), BodyFault>
        requires { self.old.count + 1 < 2 ^ 63 }
        ensures ok { OnOk result (self.new ≡ line_step at self.old byte) }
        ensures err { IfErr result (λ fault. (fault ≡ OutOfMemory) × (self.new.place ≡ BodyPlace.Refused OutOfMemory)) }
    {
        if self.line.push(byte).is_err() {
            return Err(self.run_out());
        }
        self.count += 1;
        if byte == b'\n' {
            self.place = steps::line_place(at, chunk_size(self.line.as_slice()));
            self.line.clear();
        } else if self.line.len() > MOST_CHUNK_LINE {
            self.place = BodyPlace::Refused {
                fault: BodyFault::BadChunk { at },
            };
            self.line.clear();
        } else {
            self.place = BodyPlace::ChunkLine { at };
        }
        Ok(())
    }

    /// Whether bytes of the framing are next.
    #[tactic(auto, unfolding(crate::specs::Steps::awaits_payload))]
    fn is_in_framing(&self) -> bool
        ensures payload { IsTrue (awaits_payload self.now.place) → result ≡ false }
        ensures over { self.now.place ≡ BodyPlace.Over → result ≡ false }
        ensures framing { result ≡ false → (self.now.place ≡ BodyPlace.Over) ⊎ IsTrue (awaits_payload self.now.place) }
    {
        match self.place {
            BodyPlace::DataByLength { left: _ } => false,
            BodyPlace::DataToEnd => false,
            BodyPlace::ChunkData { left: _ } => false,
            BodyPlace::Over => false,
            BodyPlace::ChunkLine { at: _ } => true,
            BodyPlace::ChunkCr => true,
            BodyPlace::ChunkLf { at: _ } => true,
            BodyPlace::Trailers { count: _, line: _ } => true,
            BodyPlace::Refused { fault: _ } => true,
        }
    }

    /// Refuses the body for want of memory.
    fn run_out(&mut self) -> BodyFault
        ensures fault { result ≡ OutOfMemory }
        ensures place { self.new.place ≡ BodyPlace.Refused OutOfMemory }
    {
        self.place = BodyPlace::Refused {
            fault: BodyFault::OutOfMemory,
        };
        BodyFault::OutOfMemory
    }
}
