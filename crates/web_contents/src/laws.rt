//! Laws over the definitions of contents, for all bytes, each the contract of a function that does nothing.

ghost use Rattle.web_contents.specs.Laws.{BytesAreParts, ContentsAreRead, ContentsAreOne, EndsAreFirst, PiecesJoin, ConnectionsEnd};

/// What the bytes of a body leave and tell is what they leave of its framing, and what its payload tells as frames.
pub fn bytes_are_parts()
    ensures { BytesAreParts }
{}

/// The machine is within the body, over or refused exactly where RFC 9112 and the gRPC-Web protocol say that the bytes begin a body of frames,
/// have one as their beginning, or have the fault; and it tells the messages and trailers that they say.
pub fn contents_are_read()
    ensures { ContentsAreRead }
{}

/// Bytes are exactly one of: a beginning of a body of frames, one and bytes after it, a fault and bytes after it; each in one way.
pub fn contents_are_one()
    ensures { ContentsAreOne }
{}

/// What comes before the end of a body, and before the byte that settles a fault, is a beginning.
pub fn ends_are_first()
    ensures { EndsAreFirst }
{}

/// Pieces one after another leave and tell what their bytes joined do; what is over or refused stays so.
pub fn pieces_join()
    ensures { PiecesJoin }
{}

/// Where the connection ends within a response, the response is whole exactly where its body ends with the connection and has whole frames.
pub fn connections_end()
    ensures { ConnectionsEnd }
{}
