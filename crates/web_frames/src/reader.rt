ghost use Rattle.std.specs.Prelude.{◌≡◌, ◌<◌, ◌≤◌, ◌∷◌, ◌++◌, ◌↔◌, [], length, IsTrue};
ghost use Rattle.web_frames.specs.Machine as machine;
ghost use Rattle.web_frames.specs.Parts as parts;
ghost use Rattle.web_frames.specs.Machine.{more};

use crate::head::HEAD_LENGTH;
use crate::limits::frame_limit;
use crate::{FrameEvent, FrameFault, FramePlace, Side, read_trailers};
use cn_base::Bytes;
use std::alloc::Global;
use std::marker::Model;
use std::mem;

/// The fault that a frame's flag is.
fn fault_of_flag(side: Side, flag: u8) -> Option<FrameFault>
    ensures { result ≡ machine.fault_of_flag side flag }
{
    if flag & 0x01 != 0 {
        return Some(FrameFault::Compressed);
    }
    match side {
        Side::Request if flag & 0x80 != 0 => Some(FrameFault::NoMessage),
        Side::Request | Side::Response => None,
    }
}

/// What a whole frame tells.
#[tactic(auto, unfolding(crate::specs::Machine::told_by))]
fn told_by(alloc: Global, flag: u8, payload: Bytes) -> Result<FrameEvent, FrameFault>
    ensures { machine.Tells result (machine.told_by flag payload) }
{
    if flag & 0x80 == 0 {
        return Ok(FrameEvent::Message(payload));
    }
    match read_trailers(alloc, payload.as_slice()) {
        Ok(trailers) => Ok(FrameEvent::Trailers(trailers)),
        Err(fault) => Err(fault),
    }
}

/// Where a reader stands behind a frame that told this.
fn place_after(side: Side, event: &FrameEvent) -> FramePlace
    ensures { result ≡ machine.place_behind side event.now }
{
    match event {
        FrameEvent::Message(_) => match side {
            Side::Request => FramePlace::Whole,
            Side::Response => FramePlace::Open,
        },
        FrameEvent::Trailers(_) => FramePlace::Over,
    }
}

/// Reads the frames of a payload that comes in pieces. It holds the bytes so far of the frame that has begun, and no more room than they
/// take. A contract sees it as a `FrameState`: its side, its place, and the bytes that it holds.
#[derive(Debug, Drop)]
pub struct FrameReader {
    alloc: Global,
    side: Side,
    place: FramePlace,
    /// The flag and the length, of which `count` bytes have come.
    head: [u8; 5],
    count: usize,
    payload: Bytes,
}

impl Model for FrameReader {
    ghost use Rattle.std.specs.Prelude.{◌≡◌, ◌++◌, ◌≤◌, take};
    ghost use Rattle.web_frames.specs.Machine.{FrameState};
    ghost use Rattle.web_frames.specs.Parts.{HoldsFrame};

    ghost Value = { FrameState };

    ghost view = { λ r. record { side = r.side; place = r.place; held = take r.count r.head ++ r.payload } };

    ghost invariant = { λ r. HoldsFrame r.side r.place r.head r.count r.payload };
}

impl FrameReader {
    /// A reader before the first byte. It takes no memory.
    pub fn new(alloc: Global, side: Side) -> FrameReader
        ensures { result ≡ machine.begin side }
    {
        FrameReader {
            alloc,
            side,
            place: FramePlace::Open,
            head: [0; 5],
            count: 0,
            payload: Bytes::new(alloc),
        }
    }

    /// Takes bytes of a piece up to and with the last one of the first frame that it makes whole, or all of it. The answer says how many
    /// bytes were taken and what the whole frame tells. A fault is answered by the call that takes the byte that settles it, and by every
    /// later call; want of memory is such a fault too.
    pub fn feed(&mut self, piece: &[u8]) -> Result<(usize, Option<FrameEvent>), FrameFault>
        ensures { machine.Feeds self.old piece.now result self.new }
    {
        match self.place {
            FramePlace::Open => self.take(piece),
            FramePlace::Whole => self.take_none(piece, FrameFault::AfterMessage),
            FramePlace::Over => self.take_none(piece, FrameFault::AfterTrailers),
            FramePlace::Refused(fault) => Err(fault),
        }
    }

    /// Refuses with this fault from now on, and holds nothing more.
    fn refuse(&mut self, fault: FrameFault) -> FrameFault
        ensures state { self.new ≡ machine.refused_at self.old.side fault }
        ensures fault { result ≡ fault }
    {
        self.place = FramePlace::Refused(fault);
        self.count = 0;
        self.payload = Bytes::new(self.alloc);
        fault
    }

    /// Takes a piece where no byte may come any more.
    fn take_none(
        &mut self,
        piece: &[u8],
        fault: FrameFault,
    ) -> Result<(usize, Option<FrameEvent>), FrameFault>
        requires { parts.EndsWith self.old.place fault }
        ensures { machine.Feeds self.old piece.now result self.new }
    {
        if piece.is_empty() {
            Ok((0, None))
        } else {
            Err(self.refuse(fault))
        }
    }

    /// Tells what a frame with this payload tells, which is whole, and goes on behind it.
    fn end_frame(&mut self, flag: u8, payload: Bytes) -> Result<Option<FrameEvent>, FrameFault>
        ensures { parts.Ends self.old.side (machine.told_by flag payload) result self.new }
    {
        match told_by(self.alloc, flag, payload) {
            Ok(event) => {
                self.place = place_after(self.side, &event);
                self.count = 0;
                self.payload = Bytes::new(self.alloc);
                Ok(Some(event))
            }
            Err(fault) => Err(self.refuse(fault)),
        }
    }

    /// Whether a frame has begun and its head is whole.
    fn has_head(&self) -> bool
        ensures { IsTrue result ↔ (5 ≤ length self.now.held) }
    {
        self.count == HEAD_LENGTH
    }

    /// Keeps a byte of a frame's head.
    fn hold(&mut self, byte: u8)
        requires place { self.old.place ≡ FramePlace.Open }
        requires head { length self.old.held < 5 }
        requires unsettled { machine.settled_by self.old.side (self.old.held ++ byte ∷ []) ≡ more }
        ensures { self.new ≡ record self.old { held = self.old.held ++ byte ∷ [] } }
    {
        self.head[self.count] = byte;
        self.count += 1;
    }

    /// Takes a frame's flag.
    fn take_flag(&mut self, byte: u8) -> Result<Option<FrameEvent>, FrameFault>
        requires place { self.old.place ≡ FramePlace.Open }
        requires first { self.old.held ≡ [] }
        ensures { parts.FeedsAll self.old (byte ∷ []) result self.new }
    {
        if let Some(fault) = fault_of_flag(self.side, byte) {
            return Err(self.refuse(fault));
        }
        self.hold(byte);
        Ok(None)
    }

    /// Takes the last byte of a frame's length.
    fn take_length(&mut self, byte: u8) -> Result<Option<FrameEvent>, FrameFault>
        requires place { self.old.place ≡ FramePlace.Open }
        requires fifth { length self.old.held ≡ 4 }
        ensures { parts.FeedsAll self.old (byte ∷ []) result self.new }
    {
        let [flag, first, second, third, _] = self.head;
        let length = u32::from_be_bytes([first, second, third, byte]);
        if length > frame_limit(self.side) {
            let length = u64::from(length);
            return Err(self.refuse(FrameFault::FrameTooLong { length }));
        }
        if length == 0 {
            let payload = Bytes::new(self.alloc);
            return self.end_frame(flag, payload);
        }
        self.hold(byte);
        Ok(None)
    }

    /// Takes a byte of a frame's head.
    fn take_head(&mut self, byte: u8) -> Result<Option<FrameEvent>, FrameFault>
        requires place { self.old.place ≡ FramePlace.Open }
        requires head { length self.old.held < 5 }
        ensures { parts.FeedsAll self.old (byte ∷ []) result self.new }
    {
        if self.count == 0 {
            return self.take_flag(byte);
        }
        if self.count == 4 {
            return self.take_length(byte);
        }
        self.hold(byte);
        Ok(None)
    }

    /// How many bytes of its payload the frame lacks whose head is whole.
    fn lacking(&self) -> usize
        requires place { self.now.place ≡ FramePlace.Open }
        requires head { 5 ≤ length self.now.held }
        ensures value { result ≡ parts.lacking self.now.held }
        ensures some { 0 < result }
    {
        let [_, first, second, third, fourth] = self.head;
        let length = u32::from_be_bytes([first, second, third, fourth]);
        length as usize - self.payload.as_slice().len()
    }

    /// Takes bytes of a frame's payload, as many as it lacks or fewer.
    fn take_payload(&mut self, piece: &[u8]) -> Result<Option<FrameEvent>, FrameFault>
        requires place { self.old.place ≡ FramePlace.Open }
        requires head { 5 ≤ length self.old.held }
        requires some { 0 < length piece.now }
        requires fits { length piece.now ≤ parts.lacking self.old.held }
        ensures { parts.FeedsAll self.old piece.now result self.new }
    {
        let lacking = self.lacking();
        match self.payload.append(piece) {
            Ok(()) => {}
            Err(_) => return Err(self.refuse(FrameFault::OutOfMemory)),
        }
        if piece.len() < lacking {
            return Ok(None);
        }
        let flag = self.head[0];
        let payload = mem::replace(&mut self.payload, Bytes::new(self.alloc));
        self.count = 0;
        self.end_frame(flag, payload)
    }

    /// Takes the next byte of a frame's head, or bytes of its payload.
    fn take_some(&mut self, piece: &[u8]) -> Result<(usize, Option<FrameEvent>), FrameFault>
        requires place { self.old.place ≡ FramePlace.Open }
        requires some { 0 < length piece.now }
        ensures { parts.TakesSome self.old piece.now result self.new }
    {
        if !self.has_head() {
            return match self.take_head(piece[0]) {
                Ok(told) => Ok((1, told)),
                Err(fault) => Err(fault),
            };
        }
        let count = self.lacking().min(piece.len());
        match self.take_payload(&piece[..count]) {
            Ok(told) => Ok((count, told)),
            Err(fault) => Err(fault),
        }
    }

    /// Takes bytes of a piece where a frame may come or has begun.
    fn take(&mut self, piece: &[u8]) -> Result<(usize, Option<FrameEvent>), FrameFault>
        requires { self.old.place ≡ FramePlace.Open }
        ensures { machine.Feeds self.old piece.now result self.new }
    {
        let mut taken = 0;
        while taken < piece.len() {
            let (count, told) = self.take_some(&piece[taken..])?;
            taken += count;
            if let Some(event) = told {
                return Ok((taken, Some(event)));
            }
        }
        Ok((taken, None))
    }

    /// Whether no frame has begun that is not whole, and there is no fault: the payload may end here.
    pub fn is_between(&self) -> bool
        ensures { result ≡ machine.is_between self.now }
    {
        match self.place {
            FramePlace::Open => self.count == 0,
            FramePlace::Whole | FramePlace::Over => true,
            FramePlace::Refused(_) => false,
        }
    }

    /// Whether the message of a request has come, and no byte after it.
    pub fn is_whole(&self) -> bool
        ensures { result ≡ machine.is_whole self.now }
    {
        match self.place {
            FramePlace::Whole => true,
            FramePlace::Open | FramePlace::Over | FramePlace::Refused(_) => false,
        }
    }
}
