ghost use Rattle.std.specs.Prelude.{◌≡◌, ◌≢◌, ◌+◌, ◌<◌, ◌≤◌, ◌^◌, ℕ, List, length, IfOk, Ok, Err};
ghost use Rattle.web_contents.specs.Contents.{begin, place_of};
ghost use Rattle.web_contents.specs.Contents as contents;
ghost use Rattle.web_contents.specs.Calls.{TakesPiece, TakesRun};
ghost use Rattle.web_contents.specs.Calls as calls;
ghost use Rattle.web_bodies.specs.Steps.{payload_after};
ghost use Rattle.web_bodies.specs.Calls.{payload_ahead};
ghost use Rattle.web_bodies.specs.declared.fault.BodyFault.{BodyFault};
ghost use Rattle.web_bodies.specs.declared.place.BodyPlace.{BodyPlace};
ghost use Rattle.web_frames.specs.declared.fault.FrameFault.{FrameFault};

use crate::{ContentEvent, ContentPlace, WebFault};
use std::alloc::Global;
use std::marker::Model;
use web_bodies::{BodyPlace, BodyReader};
use web_frames::{FrameEvent, FramePlace, FrameReader, Side};
use web_heads::BodyKind;

/// Reads a body whose payload is frames, in whatever pieces its bytes come. It holds no more than the bytes so far of the chunk line or of
/// the frame that has begun. A contract sees it as a `Content`: what has come of the body, and of the frames in it.
#[derive(Debug, Drop)]
pub struct ContentReader {
    side: Side,
    /// The body ends with the connection.
    to_end: bool,
    place: ContentPlace,
    body: BodyReader,
    frames: FrameReader,
}

impl Model for ContentReader {
    ghost use Rattle.std.specs.Prelude.{◌≡◌};
    ghost use Rattle.web_contents.specs.Contents.{Content, place_of, ends_with_connection};

    ghost Value = { Content };

    ghost view = { λ r. record { body = r.body; frames = r.frames } };

    ghost invariant = { λ r. (r.side ≡ r.frames.side) × (r.to_end ≡ ends_with_connection r.body.place)
        × (r.place ≡ place_of (record { body = r.body; frames = r.frames })) };
}

/// Where a reader stands whose body and frames stand so, neither of them refused.
#[tactic(auto, unfolding(crate::specs::Contents::place_of))]
fn place_after(side: Side, body: &BodyReader, frames: &FrameReader) -> ContentPlace
    requires side { side ≡ frames.now.side }
    requires body { (fault : BodyFault) → body.now.place ≢ BodyPlace.Refused fault }
    requires frames { (fault : FrameFault) → frames.now.place ≢ FramePlace.Refused fault }
    ensures { result ≡ place_of (record { body = body.now; frames = frames.now }) }
{
    if !body.is_over() {
        return ContentPlace::Open;
    }
    let (is_complete, fault) = match side {
        Side::Request => (frames.is_whole(), WebFault::NoMessage),
        Side::Response => (frames.is_between(), WebFault::Truncated),
    };
    if is_complete {
        ContentPlace::Over
    } else {
        ContentPlace::Refused(fault)
    }
}

/// Whether a body of this kind ends with the connection.
fn is_to_end(kind: BodyKind) -> bool
    ensures { result ≡ calls.is_to_end kind }
{
    match kind {
        BodyKind::Length(_) => false,
        BodyKind::Chunks => false,
        BodyKind::ToEnd => true,
    }
}

/// What a reader tells of an event of the frames.
fn told_of(event: FrameEvent) -> ContentEvent
    ensures { result ≡ calls.told_of event }
{
    match event {
        FrameEvent::Message(message) => ContentEvent::Message(message),
        FrameEvent::Trailers(trailers) => ContentEvent::Trailers(trailers),
    }
}

impl ContentReader {
    /// A reader before the first byte of a body, which is byte `at` of the connection. It takes no memory.
    pub fn new(alloc: Global, side: Side, kind: BodyKind, at: u64) -> ContentReader
        ensures begun { result ≡ begin side kind at }
        ensures counted { result.body.count ≡ at }
    {
        let body = BodyReader::new(alloc, kind, at);
        let frames = FrameReader::new(alloc, side);
        let to_end = is_to_end(kind);
        let place = place_after(side, &body, &frames);
        ContentReader {
            side,
            to_end,
            place,
            body,
            frames,
        }
    }

    /// Where the reader stands. It takes no memory.
    pub fn place(&self) -> ContentPlace
        ensures { result ≡ place_of self.now }
    {
        self.place
    }

    /// Takes bytes of a piece up to the next event, or all of them, and says how many it took. An event is told by the call that takes its
    /// last byte; but the end of the body is told by a call of its own where an event came with the body's last byte, or the body has no
    /// bytes, and it is told again by every later call, which takes nothing. The bytes taken before and the piece are together fewer than
    /// 2^63. A fault is answered by the call that takes the byte that settles it, and by every later call; want of memory is such a fault
    /// too.
    pub fn take(&mut self, piece: &[u8]) -> Result<(usize, Option<ContentEvent>), WebFault>
        requires { self.old.body.count + length piece.now < 2 ^ 63 }
        ensures takes { TakesPiece self.old piece.now result self.new }
        ensures within { IfOk result (λ answer. answer.0 ≤ length piece.now) }
        ensures counted { IfOk result (λ answer. self.new.body.count ≡ self.old.body.count + answer.0) }
        ensures stays_over { place_of self.old ≡ ContentPlace.Over → (result ≡ calls.told_end) × (self.new ≡ self.old) }
        ensures stays_refused { (fault : WebFault) → place_of self.old ≡ ContentPlace.Refused fault
            → (result ≡ Err fault) × (self.new ≡ self.old) }
    {
        match self.place {
            ContentPlace::Open => self.take_open(piece),
            ContentPlace::Over => Ok((0, Some(ContentEvent::End))),
            ContentPlace::Refused(fault) => Err(fault),
        }
    }

    /// What the end of the connection makes of the body: true where it ends with the connection and its frames are whole, and false where
    /// they are not, or where the body was over before. `Truncated` where more of a body by length or in chunks has to come; else the fault
    /// that came before. It takes no memory.
    #[tactic(auto, unfolding(crate::specs::Contents::finish))]
    pub fn finish(&self) -> Result<bool, WebFault>
        ensures { result ≡ contents.finish self.now }
    {
        match self.place {
            ContentPlace::Refused(earlier) => Err(earlier),
            ContentPlace::Over => Ok(false),
            ContentPlace::Open if !self.to_end => Err(WebFault::Truncated),
            ContentPlace::Open => match self.side {
                Side::Request => Ok(self.frames.is_whole()),
                Side::Response => Ok(self.frames.is_between()),
            },
        }
    }

    /// Takes bytes of a piece within the body.
    fn take_open(&mut self, piece: &[u8]) -> Result<(usize, Option<ContentEvent>), WebFault>
        requires is_open { place_of self.old ≡ ContentPlace.Open }
        requires places { self.old.body.count + length piece.now < 2 ^ 63 }
        ensures { TakesPiece self.old piece.now result self.new }
    {
        let mut taken = 0;
        while taken < piece.len() {
            let (count, told) = self.take_run(&piece[taken..])?;
            taken += count;
            if let Some(event) = told {
                return Ok((taken, Some(told_of(event))));
            }
            match self.place {
                ContentPlace::Open => {}
                ContentPlace::Over => return Ok((taken, Some(ContentEvent::End))),
                ContentPlace::Refused(fault) => return Err(fault),
            }
        }
        Ok((taken, None))
    }

    /// Takes the next bytes of a piece that are all payload or all framing, of payload up to the next event.
    fn take_run(&mut self, piece: &[u8]) -> Result<(usize, Option<FrameEvent>), WebFault>
        requires is_open { place_of self.old ≡ ContentPlace.Open }
        requires some { 0 < length piece.now }
        requires places { self.old.body.count + length piece.now < 2 ^ 63 }
        ensures { TakesRun self.old piece.now result self.new }
    {
        let count = self.body.payload_ahead(piece.len());
        if count == 0 {
            return self.take_framing(piece);
        }
        self.take_payload(&piece[..count])
    }

    /// Takes the next bytes of a piece that frame the body.
    fn take_framing(&mut self, piece: &[u8]) -> Result<(usize, Option<FrameEvent>), WebFault>
        requires is_open { place_of self.old ≡ ContentPlace.Open }
        requires some { 0 < length piece.now }
        requires framing { payload_ahead self.old.body.place (length piece.now) ≡ 0 }
        requires places { self.old.body.count + length piece.now < 2 ^ 63 }
        ensures { TakesRun self.old piece.now result self.new }
    {
        match self.body.take_framing(piece) {
            Ok(count) => {
                self.place = place_after(self.side, &self.body, &self.frames);
                Ok((count, None))
            }
            Err(fault) => {
                let fault = WebFault::from(fault);
                self.place = ContentPlace::Refused(fault);
                Err(fault)
            }
        }
    }

    /// Takes payload up to the next event.
    fn take_payload(&mut self, payload: &[u8]) -> Result<(usize, Option<FrameEvent>), WebFault>
        requires is_open { place_of self.old ≡ ContentPlace.Open }
        requires some { 0 < length payload.now }
        requires ahead { (count : ℕ) → count ≤ length payload.now → payload_ahead self.old.body.place count ≡ count }
        requires payload { (bytes : List ℕ) → length bytes ≤ length payload.now → payload_after self.old.body bytes ≡ bytes }
        requires places { self.old.body.count + length payload.now < 2 ^ 63 }
        ensures { TakesRun self.old payload.now result self.new }
    {
        match self.frames.feed(payload) {
            Ok((count, told)) => {
                self.body.take_payload(count);
                self.place = place_after(self.side, &self.body, &self.frames);
                Ok((count, told))
            }
            Err(fault) => {
                let fault = WebFault::from(fault);
                self.place = ContentPlace::Refused(fault);
                Err(fault)
            }
        }
    }
}
