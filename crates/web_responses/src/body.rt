ghost use Rattle.std.specs.Prelude.{◌≡◌, ◌+◌, ◌<◌, ◌^◌, ◌↔◌, length, IsTrue};
ghost use Rattle.web_contents.specs.Contents.{place_of};
ghost use Rattle.web_contents.specs.Contents as contents;
ghost use Rattle.web_contents.specs.Calls.{TakesPiece};
ghost use Rattle.web_responses.specs.Calls as calls;

use crate::bare::BareReader;
use std::alloc::Global;
use std::marker::Model;
use web_contents::{ContentEvent, ContentPlace, ContentReader, WebFault};
use web_frames::Side;
use web_heads::BodyKind;

/// Reads the body of a response: frames, or nothing where the head has the trailers. A contract sees it as a `Content`.
#[derive(Debug, Drop)]
pub struct BodyOfResponse {
    is_bare: bool,
    frames: ContentReader,
    bare: BareReader,
}

impl Model for BodyOfResponse {
    ghost use Rattle.web_contents.specs.Contents.{Content};
    ghost use Rattle.web_responses.specs.Calls.{content_of};

    ghost Value = { Content };

    ghost view = { λ r. content_of r.is_bare r.bare r.frames };
}

impl BodyOfResponse {
    /// A reader before the first byte of a body, which is byte `at` of the connection. It takes no memory.
    pub fn new(alloc: Global, is_bare: bool, kind: BodyKind, at: u64) -> BodyOfResponse
        ensures begun { result ≡ calls.begin_of is_bare kind at }
        ensures counted { result.body.count ≡ at }
    {
        BodyOfResponse {
            is_bare,
            frames: ContentReader::new(alloc, Side::Response, kind, at),
            bare: BareReader::new(alloc, kind, at),
        }
    }

    /// Whether the body is over.
    pub fn is_over(&self) -> bool
        ensures { IsTrue result ↔ (place_of self.now ≡ ContentPlace.Over) }
    {
        let place = if self.is_bare {
            self.bare.place()
        } else {
            self.frames.place()
        };
        matches!(place, ContentPlace::Over)
    }

    /// What the end of the connection makes of the body.
    pub fn finish(&self) -> Result<bool, WebFault>
        ensures { result ≡ contents.finish self.now }
    {
        if self.is_bare {
            self.bare.finish()
        } else {
            self.frames.finish()
        }
    }

    /// Takes bytes of a piece up to the next event, or all of them.
    pub fn take(&mut self, piece: &[u8]) -> Result<(usize, Option<ContentEvent>), WebFault>
        requires { self.old.body.count + length piece.now < 2 ^ 63 }
        ensures { TakesPiece self.old piece.now result self.new }
    {
        if self.is_bare {
            self.bare.take(piece)
        } else {
            self.frames.take(piece)
        }
    }
}
