//! Laws over the definitions of frames and trailers, each the contract of a function that does nothing.

ghost use Rattle.web_frames.specs.Laws.{TrailersAreRead, WrittenTrailersAreRead, FramesAreRead, WholeFramesAreRead, FaultsAreRead, RequestsAreRead, WrittenFramesAreRead, PiecesJoin};

/// The trailers that are read of a payload are those that it says, and it says no others.
pub fn trailers_are_read()
    ensures { TrailersAreRead }
{}

/// What is written of trailers is read as these trailers.
pub fn written_trailers_are_read()
    ensures { WrittenTrailersAreRead }
{}

/// Where a reader stands and what it has told is what the bytes say, and they say nothing else.
pub fn frames_are_read()
    ensures { FramesAreRead }
{}

/// A payload of whole frames has one list of messages and trailers, those that a reader tells.
pub fn whole_frames_are_read()
    ensures { WholeFramesAreRead }
{}

/// A reader is refused exactly where a beginning of the bytes settles a fault, and with that fault.
pub fn faults_are_read()
    ensures { FaultsAreRead }
{}

/// A request whose message is there is one message frame.
pub fn requests_are_read()
    ensures { RequestsAreRead }
{}

/// A frame that is written is read as what it was written of.
pub fn written_frames_are_read()
    ensures { WrittenFramesAreRead }
{}

/// Pieces one after another leave and tell what their bytes joined do.
pub fn pieces_join()
    ensures { PiecesJoin }
{}
