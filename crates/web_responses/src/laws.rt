//! Laws over the definitions of answers, for all bytes, each the contract of a function that does nothing.

ghost use Rattle.web_responses.specs.Laws.{AnswersAreRead, AnswersAreOne, AnswersAreFed, EndsAreFirst, ConnectionsEnd, PiecesJoin};

/// An answer is open, over or refused exactly where RFC 9112 and the gRPC-Web protocol say that the bytes begin one, have one as their
/// beginning, or have the fault; and it tells the events that they say.
pub fn answers_are_read()
    ensures { AnswersAreRead }
{}

/// Bytes are exactly one of: a beginning of an answer, an answer and bytes after it, a fault and bytes after it; each in one way.
pub fn answers_are_one()
    ensures { AnswersAreOne }
{}

/// What comes before the byte that settles a fault is a beginning.
pub fn ends_are_first()
    ensures { EndsAreFirst }
{}

/// Where the connection ends, the answer is whole exactly where its body ends with the connection and has whole frames; it is truncated exactly
/// where a body by length or in chunks has begun and isn't over, or was over within a frame; after a fault it is refused with that one; and
/// else the end of the connection says nothing.
pub fn connections_end()
    ensures { ConnectionsEnd }
{}

/// Pieces one after another leave and tell what their bytes joined do; what is over or refused stays so.
pub fn pieces_join()
    ensures { PiecesJoin }
{}

/// Whatever the pieces were, what a reader has told and has still to tell is what the bytes that it took say as an answer, and so are its fault
/// and what the end of the connection makes of it.
pub fn answers_are_fed()
    ensures { AnswersAreFed }
{}
