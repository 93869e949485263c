//! Laws over what is written and read, each the contract of a function that does nothing.

ghost use Rattle.grpc_web.specs.Laws.{AnswersAreReadBack, AnswersAreBegun, FaultsAreAnswered, RefusalsAreReadBack};

/// The head, messages and end of a response, joined, are read as the answer with these messages and trailers, in whatever pieces the bytes
/// come and whatever follows them.
pub fn answers_are_read_back()
    ensures { AnswersAreReadBack }
{}

/// The response with which a request is refused, as it is written, is read as its status and an end, in whatever pieces the bytes come and
/// whatever follows them.
pub fn refusals_are_read_back()
    ensures { RefusalsAreReadBack }
{}

/// The head and messages of a response are read as the beginning of an answer with exactly these events, and so is what is left of a whole
/// response without some of its last bytes, with the first of its events.
pub fn answers_are_begun()
    ensures { AnswersAreBegun }
{}

/// Each fault that bytes of a request or of an answer settle is in its list; a fault has an answer exactly where it is one of requests.
pub fn faults_are_answered()
    ensures { FaultsAreAnswered }
{}
