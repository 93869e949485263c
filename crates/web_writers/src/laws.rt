//! Laws over the bytes that are written, each the contract of a function that does nothing.

ghost use Rattle.web_writers.specs.Laws.{RequestsAreReadBack, ResponsesAreSaid};

/// The bytes of a request are read as its path and its message, in whatever pieces they come and whatever follows them.
pub fn requests_are_read_back()
    ensures { RequestsAreReadBack }
{}

/// The head, the messages and the end of a response are, in the words of RFC 9112 and gRPC-Web, a response with these messages and trailers. Its
/// messages alone, and a body without some of its last bytes, are a beginning of one.
pub fn responses_are_said()
    ensures { ResponsesAreSaid }
{}
