ghost use Rattle.std.specs.Prelude.{◌≡◌, ◌<◌, ◌≤◌, ℕ, List, true, false, IsTrue, length, Err};
ghost use Rattle.web_contents.specs.declared.fault.WebFault.{WebFault};
ghost use Rattle.web_requests.specs.Machine as machine;
ghost use Rattle.web_requests.specs.Machine.{begin, whole, refused, is_whole, cut_off};
ghost use Rattle.web_requests.specs.Calls.{Feeds};
ghost use Rattle.web_requests.specs.Calls as calls;

use crate::stage::Stage;
use cn_base::{Bytes, Text};
use std::alloc::Global;
use std::marker::Model;
use web_contents::{ContentEvent, ContentPlace, ContentReader, WebFault};
use web_frames::Side;
use web_head_reader::{HeadReadFault, HeadReader};
use web_heads::{BodyKind, RequestHead, read_request_head};

/// So many bytes of a piece are taken at once, at most, that no place in the connection passes 2^63.
const MOST_AT_ONCE: usize = 4_611_686_018_427_387_904;

/// Reads a request whose bytes come in pieces. It holds the bytes so far of the head, of the chunk line or of the frame that has begun, and
/// no more room than they take. A contract sees it as a `RequestState`.
#[derive(Debug, Drop)]
pub struct RequestReader {
    alloc: Global,
    stage: Stage,
    head: HeadReader,
    path: Text,
    message: Bytes,
    contents: ContentReader,
}

impl Model for RequestReader {
    ghost use Rattle.web_requests.specs.Machine.{RequestState};
    ghost use Rattle.web_requests.specs.Calls.{view_of, HoldsRequest};

    ghost Value = { RequestState };

    ghost view = { λ r. view_of r.stage r.head r.path r.message r.contents };

    ghost invariant = { λ r. HoldsRequest r.stage r.head r.contents };
}

/// The fault of a head that comes in pieces.
fn fault_of_reading(fault: HeadReadFault) -> WebFault
    ensures { result ≡ machine.fault_of_reading fault }
{
    match fault {
        HeadReadFault::HeadTooLong => WebFault::HeadTooLong,
        HeadReadFault::OutOfMemory => WebFault::OutOfMemory,
    }
}

/// The path that a whole head names, and a reader of the body after it.
fn begin_body(alloc: Global, head: &[u8]) -> Result<(Text, ContentReader), WebFault>
    requires { length head.now ≤ 16384 }
    ensures { calls.BeginsBody head.now result }
{
    match read_request_head(alloc, head) {
        Ok(RequestHead { path, body }) => {
            let contents = ContentReader::new(alloc, Side::Request, body, head.len() as u64);
            Ok((path, contents))
        }
        Err(fault) => Err(WebFault::from(fault)),
    }
}

impl RequestReader {
    /// A reader before the first byte of a connection. It takes no memory.
    pub fn new(alloc: Global) -> RequestReader
        ensures { result ≡ begin }
    {
        RequestReader {
            alloc,
            stage: Stage::Head,
            head: HeadReader::new(alloc),
            path: Text::new(alloc),
            message: Bytes::new(alloc),
            contents: ContentReader::new(alloc, Side::Request, BodyKind::ToEnd, 0),
        }
    }

    /// Takes a piece, and says whether the request is whole: its body has ended, with its message in it. Bytes after a whole request say
    /// nothing. A fault is answered by the call that takes the byte that settles it, and by every later call; want of memory is such a fault
    /// too.
    pub fn feed(&mut self, piece: &[u8]) -> Result<bool, WebFault>
        ensures feeds { Feeds self.old piece.now result self.new }
        ensures stays_refused { (fault : WebFault) → self.old ≡ refused fault → (result ≡ Err fault) × (self.new ≡ refused fault) }
    {
        match self.stage {
            Stage::Head => self.feed_head(piece),
            Stage::Body => self.feed_body(piece),
            Stage::Refused(fault) => Err(fault),
        }
    }

    /// What the end of the connection makes of a request that isn't whole: `Truncated`, or the fault that came before. The reader is refused
    /// with it from then on. It takes no memory.
    pub fn finish(&mut self) -> WebFault
        requires { is_whole self.old ≡ false }
        ensures fault { result ≡ cut_off self.old }
        ensures refused { self.new ≡ refused result }
    {
        let fault = self.cut_off();
        self.stage = Stage::Refused(fault);
        fault
    }

    /// Lends the path of a whole request. It takes no memory.
    pub fn path(&self) -> &str
        requires { is_whole self.now ≡ true }
        ensures { (path message : List ℕ) → self.now ≡ whole path message → result.now ≡ path }
    {
        self.path.as_str()
    }

    /// Lends the message of a whole request. It takes no memory.
    pub fn message(&self) -> &[u8]
        requires { is_whole self.now ≡ true }
        ensures { (path message : List ℕ) → self.now ≡ whole path message → result.now ≡ message }
    {
        self.message.as_slice()
    }

    /// What the state answers.
    fn answer(&self) -> Result<bool, WebFault>
        ensures { result ≡ calls.answer_of self.now }
    {
        match self.stage {
            Stage::Head => Ok(false),
            Stage::Body => match self.contents.place() {
                ContentPlace::Open => Ok(false),
                ContentPlace::Over => Ok(true),
                ContentPlace::Refused(fault) => Err(fault),
            },
            Stage::Refused(fault) => Err(fault),
        }
    }

    /// The fault where the connection ends.
    fn cut_off(&self) -> WebFault
        ensures { result ≡ cut_off self.now }
    {
        match self.answer() {
            Ok(_) => WebFault::Truncated,
            Err(fault) => fault,
        }
    }

    /// Takes bytes of the head, and what follows it.
    fn feed_head(&mut self, piece: &[u8]) -> Result<bool, WebFault>
        requires { IsTrue (calls.is_heading self.old) }
        ensures { Feeds self.old piece.now result self.new }
    {
        match self.head.take(piece) {
            Ok(taken) => {
                if !self.head.is_whole() {
                    return Ok(false);
                }
                match begin_body(self.alloc, self.head.head()) {
                    Ok((path, contents)) => {
                        self.path = path;
                        self.contents = contents;
                        self.message = Bytes::new(self.alloc);
                        self.stage = Stage::Body;
                        self.feed_body(&piece[taken..])
                    }
                    Err(fault) => {
                        self.stage = Stage::Refused(fault);
                        Err(fault)
                    }
                }
            }
            Err(fault) => {
                let fault = fault_of_reading(fault);
                self.stage = Stage::Refused(fault);
                Err(fault)
            }
        }
    }

    /// Takes bytes after the head.
    fn feed_body(&mut self, piece: &[u8]) -> Result<bool, WebFault>
        requires { calls.is_heading self.old ≡ false }
        ensures { Feeds self.old piece.now result self.new }
    {
        let mut taken = 0;
        while taken < piece.len() && self.is_within() {
            match self.take_some(&piece[taken..]) {
                Ok(count) => taken += count,
                Err(fault) => return Err(fault),
            }
        }
        self.answer()
    }

    /// Whether more of the body has to come.
    fn is_within(&self) -> bool
        ensures { result ≡ calls.is_within self.now }
    {
        match self.stage {
            Stage::Head => false,
            Stage::Body => self.contents.place() == ContentPlace::Open,
            Stage::Refused(_) => false,
        }
    }

    /// Takes bytes of the body up to the end of the message, of the body or of the piece, one at least, and says how many.
    fn take_some(&mut self, piece: &[u8]) -> Result<usize, WebFault>
        requires within { calls.is_within self.old ≡ true }
        requires some { 0 < length piece.now }
        ensures { calls.TakesSome self.old piece.now result self.new }
    {
        let most = piece.len().min(MOST_AT_ONCE);
        match self.contents.take(&piece[..most]) {
            Ok((count, Some(ContentEvent::Message(message)))) => {
                self.message = message;
                Ok(count)
            }
            Ok((count, Some(ContentEvent::Trailers(_)))) => Ok(count),
            Ok((count, Some(ContentEvent::End))) => Ok(count),
            Ok((count, None)) => Ok(count),
            Err(fault) => Err(fault),
        }
    }
}
