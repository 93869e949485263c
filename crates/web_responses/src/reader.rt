ghost use Rattle.std.specs.Prelude.{◌≡◌, ◌+◌, ◌<◌, ◌++◌, ◌^◌, [], length, IfNone, Err};
ghost use Rattle.std.specs.Option.{option_to_list};
ghost use Rattle.web_contents.specs.declared.place.ContentPlace.TheVariants.{Refused};
ghost use Rattle.web_responses.specs.Answers.{standing};
ghost use Rattle.web_responses.specs.Answers as answers;
ghost use Rattle.web_responses.specs.Calls.{FeedsPiece};
ghost use Rattle.web_responses.specs.Calls as calls;

use crate::WebEvent;
use crate::body::BodyOfResponse;
use crate::opening::{Opening, fault_of_reading, read_opening};
use std::alloc::Global;
use std::marker::Model;
use web_contents::{ContentEvent, WebFault};
use web_frames::Trailers;
use web_head_reader::HeadReader;
use web_heads::BodyKind;

/// What of an answer a reader reads.
#[derive(Clone, Copy, Debug, PartialEq, Eq)]
pub enum Stage {
    Head,
    Body,
    /// Nothing more: the answer is refused.
    Refused(WebFault),
}

/// Reads the bytes of a connection as one answer, in whatever pieces they come. It holds no more than the bytes so far of the head, of the
/// chunk line or of the frame that has begun, and the trailers of a head until they are told. A contract sees it as a `Reader`: what has come,
/// the events that are still to be told, and how many bytes were taken.
#[derive(Debug, Drop)]
pub struct ResponseReader {
    alloc: Global,
    stage: Stage,
    head: HeadReader,
    body: BodyOfResponse,
    /// The trailers of the head, until they are told.
    trailers: Option<Trailers>,
    /// The end of the body is still to be told.
    ends: bool,
    count: u64,
}

impl Model for ResponseReader {
    ghost use Rattle.web_responses.specs.Calls.{Reader, state_of, due_of, Holds};

    ghost Value = { Reader };

    ghost view = { λ r. record { state = state_of r.stage r.head r.body; due = due_of r.trailers r.ends; count = r.count } };

    ghost invariant = { λ r. Holds r.stage r.head r.body r.count };
}

impl ResponseReader {
    /// A reader before the first byte of a connection. It takes no memory.
    pub fn new(alloc: Global) -> ResponseReader
        ensures { result ≡ calls.begin }
    {
        ResponseReader {
            alloc,
            stage: Stage::Head,
            head: HeadReader::new(alloc),
            body: BodyOfResponse::new(alloc, false, BodyKind::ToEnd, 0),
            trailers: None,
            ends: false,
            count: 0,
        }
    }

    /// Takes bytes of a piece up to the next event, or all of them, and says how many it took. An event is told by the call that takes its
    /// last byte; where one byte completes several, as a head with trailers or the last message of a body by length, the first is told by
    /// that call, and each other by a call of its own, which takes nothing. After the end bytes are taken and say nothing. The bytes taken
    /// before and the piece are together fewer than 2^63. A fault is answered by the call that takes the byte that settles it, and by every
    /// later call; want of memory is such a fault too.
    pub fn feed(&mut self, piece: &[u8]) -> Result<(usize, Option<WebEvent>), WebFault>
        requires { self.old.count + length piece.now < 2 ^ 63 }
        ensures feeds { FeedsPiece self.old piece.now result self.new }
        ensures stays_refused { (fault : WebFault) → self.old.due ≡ [] → standing self.old.state ≡ Refused fault
            → (result ≡ Err fault) × (self.new.state ≡ self.old.state) }
    {
        if let Some(event) = self.take_due() {
            return Ok((0, Some(event)));
        }
        match self.stage {
            Stage::Head => self.feed_head(piece),
            Stage::Body => self.feed_body(piece),
            Stage::Refused(fault) => Err(fault),
        }
    }

    /// What the end of the connection makes of the answer, where it comes before [`WebEvent::End`]: true exactly where a body that ends with
    /// the connection stands at the end of a frame. It is `Truncated` exactly where a body by length or in chunks has begun, the earlier
    /// fault after one, and else false. It takes no memory.
    pub fn finish(&mut self) -> Result<bool, WebFault>
        ensures ending { result ≡ answers.finish self.old.state }
        ensures same { self.new ≡ self.old }
    {
        match self.stage {
            Stage::Head => Ok(false),
            Stage::Body => self.body.finish(),
            Stage::Refused(earlier) => Err(earlier),
        }
    }

    /// Tells the first event that is still to be told.
    fn take_due(&mut self) -> Option<WebEvent>
        ensures due { self.old.due ≡ option_to_list result ++ self.new.due }
        ensures none { IfNone result (self.new.due ≡ []) }
        ensures state { self.new.state ≡ self.old.state }
        ensures count { self.new.count ≡ self.old.count }
    {
        match self.trailers.take() {
            Some(trailers) => Some(WebEvent::Trailers(trailers)),
            None => {
                if !self.ends {
                    return None;
                }
                self.ends = false;
                Some(WebEvent::End)
            }
        }
    }

    /// Takes bytes of a piece within the head.
    fn feed_head(&mut self, piece: &[u8]) -> Result<(usize, Option<WebEvent>), WebFault>
        requires head { calls.IsHead self.old.state }
        requires none_due { self.old.due ≡ [] }
        requires places { self.old.count + length piece.now < 2 ^ 63 }
        ensures { FeedsPiece self.old piece.now result self.new }
    {
        match self.head.take(piece) {
            Ok(count) => {
                self.count += count as u64;
                if !self.head.is_whole() {
                    return Ok((count, None));
                }
                match read_opening(self.alloc, self.head.head()) {
                    Ok(
                        Opening {
                            status,
                            body,
                            trailers,
                        },
                    ) => {
                        let at = self.head.head().len() as u64;
                        self.body = BodyOfResponse::new(self.alloc, trailers.is_some(), body, at);
                        self.ends = self.body.is_over();
                        self.trailers = trailers;
                        self.stage = Stage::Body;
                        Ok((count, Some(WebEvent::Head { status })))
                    }
                    Err(fault) => {
                        self.stage = Stage::Refused(fault);
                        Err(fault)
                    }
                }
            }
            Err(fault) => {
                let fault = fault_of_reading(fault);
                self.stage = Stage::Refused(fault);
                Err(fault)
            }
        }
    }

    /// Takes bytes of a piece behind the head.
    fn feed_body(&mut self, piece: &[u8]) -> Result<(usize, Option<WebEvent>), WebFault>
        requires body { calls.IsBody self.old.state }
        requires none_due { self.old.due ≡ [] }
        requires places { self.old.count + length piece.now < 2 ^ 63 }
        ensures { FeedsPiece self.old piece.now result self.new }
    {
        if self.body.is_over() {
            self.count += piece.len() as u64;
            return Ok((piece.len(), None));
        }
        match self.body.take(piece) {
            Ok((count, told)) => {
                self.count += count as u64;
                match told {
                    None => Ok((count, None)),
                    Some(ContentEvent::End) => Ok((count, Some(WebEvent::End))),
                    Some(ContentEvent::Message(message)) => {
                        self.ends = self.body.is_over();
                        Ok((count, Some(WebEvent::Message(message))))
                    }
                    Some(ContentEvent::Trailers(trailers)) => {
                        self.ends = self.body.is_over();
                        Ok((count, Some(WebEvent::Trailers(trailers))))
                    }
                }
            }
            Err(fault) => {
                self.stage = Stage::Refused(fault);
                Err(fault)
            }
        }
    }
}
