//! Laws over the definitions of requests, for all bytes, each the contract of a function that does nothing.

ghost use Rattle.web_requests.specs.Laws.{RequestsAreRead, RequestsAreOne, FaultsAreFirst, PiecesJoin};

/// What the bytes of a connection say is a beginning of a request, a request or a fault exactly where RFC 9112 and gRPC-Web say so of them.
pub fn requests_are_read()
    ensures { RequestsAreRead }
{}

/// All bytes are exactly one of: a beginning of a request, a request and bytes after it, a fault and bytes after it; each in one way.
pub fn requests_are_one()
    ensures { RequestsAreOne }
{}

/// What comes before the byte that settles a fault is a beginning of a request.
pub fn faults_are_first()
    ensures { FaultsAreFirst }
{}

/// Pieces one after another lead where the joined bytes lead, and say what these say; what is whole or refused stays so.
pub fn pieces_join()
    ensures { PiecesJoin }
{}
