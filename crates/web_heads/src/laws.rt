//! Laws over the definitions of heads and chunk lines, each the contract of a function that does nothing.

ghost use Rattle.web_heads.specs.Laws.{RequestTrees, ResponseTrees, ChunkLines, RequestsSay, ResponsesSay, SearchGoesOn};

/// The function that reads a request's head finds what the grammar of RFC 9112 says, and nothing else.
pub fn request_heads_are_read()
    ensures { RequestTrees }
{}

/// The function that reads a response's head finds what the grammar of RFC 9112 says, and nothing else.
pub fn response_heads_are_read()
    ensures { ResponseTrees }
{}

/// The function that reads a chunk line finds what the grammar of RFC 9112 says, and nothing else; so does its size.
pub fn chunk_lines_are_read()
    ensures { ChunkLines }
{}

/// What the function of a request's head gives is what RFC 9112 and gRPC-Web say of the bytes, and nothing else is.
pub fn request_heads_have_one_answer()
    ensures { RequestsSay }
{}

/// What the function of a response's head gives is what RFC 9112 and gRPC-Web say of the bytes, and nothing else is.
pub fn response_heads_have_one_answer()
    ensures { ResponsesSay }
{}

/// A search for the end of a head may go on three bytes before the end of the bytes in which it found nothing.
pub fn search_goes_on()
    ensures { SearchGoesOn }
{}
