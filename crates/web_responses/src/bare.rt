ghost use Rattle.std.specs.Prelude.{◌≡◌, ◌≢◌, ◌+◌, ◌<◌, ◌^◌, false, length};
ghost use Rattle.web_bodies.specs.Calls.{payload_ahead};
ghost use Rattle.web_bodies.specs.declared.fault.BodyFault.{BodyFault};
ghost use Rattle.web_contents.specs.Contents.{place_of};
ghost use Rattle.web_contents.specs.Contents as contents;
ghost use Rattle.web_contents.specs.Calls.{TakesPiece};
ghost use Rattle.web_contents.specs.Calls as content_calls;
ghost use Rattle.web_responses.specs.Calls as calls;

use std::alloc::Global;
use std::marker::Model;
use web_bodies::{BodyPlace, BodyReader};
use web_contents::{ContentEvent, ContentPlace, WebFault};
use web_heads::BodyKind;

/// Reads a body that may have no payload, since the trailers of its response stand in the head. A contract sees it as a `Content` in whose
/// frames the trailers have come.
#[derive(Debug, Drop)]
pub struct BareReader {
    /// The body ends with the connection.
    to_end: bool,
    /// A byte of payload has come.
    has_payload: bool,
    place: ContentPlace,
    body: BodyReader,
}

impl Model for BareReader {
    ghost use Rattle.std.specs.Prelude.{◌≡◌};
    ghost use Rattle.web_contents.specs.Contents.{Content, place_of, ends_with_connection};
    ghost use Rattle.web_responses.specs.Calls.{bare_frames};

    ghost Value = { Content };

    ghost view = { λ r. record { body = r.body; frames = bare_frames r.has_payload } };

    ghost invariant = { λ r. (r.to_end ≡ ends_with_connection r.body.place)
        × (r.place ≡ place_of (record { body = r.body; frames = bare_frames r.has_payload })) };
}

/// Whether a body of this kind ends with the connection.
fn is_to_end(kind: BodyKind) -> bool
    ensures { result ≡ content_calls.is_to_end kind }
{
    match kind {
        BodyKind::Length(_) => false,
        BodyKind::Chunks => false,
        BodyKind::ToEnd => true,
    }
}

/// Where a reader stands before the first byte of a body.
fn first_place(body: &BodyReader) -> ContentPlace
    requires { (fault : BodyFault) → body.now.place ≢ BodyPlace.Refused fault }
    ensures { result ≡ place_of (record { body = body.now; frames = calls.bare_frames false }) }
{
    if body.is_over() {
        ContentPlace::Over
    } else {
        ContentPlace::Open
    }
}

impl BareReader {
    /// A reader before the first byte of a body, which is byte `at` of the connection. It takes no memory.
    pub fn new(alloc: Global, kind: BodyKind, at: u64) -> BareReader
        ensures { result ≡ calls.begin_bare kind at }
    {
        let body = BodyReader::new(alloc, kind, at);
        let to_end = is_to_end(kind);
        let place = first_place(&body);
        BareReader {
            to_end,
            has_payload: false,
            place,
            body,
        }
    }

    /// Where the reader stands.
    pub fn place(&self) -> ContentPlace
        ensures { result ≡ place_of self.now }
    {
        self.place
    }

    /// What the end of the connection makes of the body.
    pub fn finish(&self) -> Result<bool, WebFault>
        ensures { result ≡ contents.finish self.now }
    {
        match self.place {
            ContentPlace::Refused(fault) => Err(fault),
            ContentPlace::Over => Ok(false),
            ContentPlace::Open => {
                if self.to_end {
                    Ok(true)
                } else {
                    Err(WebFault::Truncated)
                }
            }
        }
    }

    /// Takes bytes of a piece up to the end of the body, or all of them. A byte of payload is a fault.
    pub fn take(&mut self, piece: &[u8]) -> Result<(usize, Option<ContentEvent>), WebFault>
        requires { self.old.body.count + length piece.now < 2 ^ 63 }
        ensures { TakesPiece self.old piece.now result self.new }
    {
        match self.place {
            ContentPlace::Open => self.take_open(piece),
            ContentPlace::Over => Ok((0, Some(ContentEvent::End))),
            ContentPlace::Refused(fault) => Err(fault),
        }
    }

    /// Takes bytes of a piece within the body.
    fn take_open(&mut self, piece: &[u8]) -> Result<(usize, Option<ContentEvent>), WebFault>
        requires is_open { place_of self.old ≡ ContentPlace.Open }
        requires places { self.old.body.count + length piece.now < 2 ^ 63 }
        ensures { TakesPiece self.old piece.now result self.new }
    {
        if piece.is_empty() {
            return Ok((0, None));
        }
        if self.body.payload_ahead(piece.len()) > 0 {
            self.has_payload = true;
            self.place = ContentPlace::Refused(WebFault::AfterTrailers);
            return Err(WebFault::AfterTrailers);
        }
        self.take_framing(piece)
    }

    /// Takes bytes of a piece that frame the body, up to its end or up to a byte of payload.
    fn take_framing(&mut self, piece: &[u8]) -> Result<(usize, Option<ContentEvent>), WebFault>
        requires is_open { place_of self.old ≡ ContentPlace.Open }
        requires some { 0 < length piece.now }
        requires framing { payload_ahead self.old.body.place (length piece.now) ≡ 0 }
        requires places { self.old.body.count + length piece.now < 2 ^ 63 }
        ensures { TakesPiece self.old piece.now result self.new }
    {
        match self.body.take_framing(piece) {
            Ok(count) => {
                if self.body.is_over() {
                    self.place = ContentPlace::Over;
                    return Ok((count, Some(ContentEvent::End)));
                }
                if count < piece.len() {
                    self.has_payload = true;
                    self.place = ContentPlace::Refused(WebFault::AfterTrailers);
                    return Err(WebFault::AfterTrailers);
                }
                Ok((count, None))
            }
            Err(fault) => {
                let fault = WebFault::from(fault);
                self.place = ContentPlace::Refused(fault);
                Err(fault)
            }
        }
    }
}
