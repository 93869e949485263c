//! Laws over the definitions of heads whose bytes come in pieces, each the contract of a function that does nothing.

ghost use Rattle.web_head_reader.specs.Laws.{HeadsAreRead, HeadsAreOne, EndsAreFirst, PiecesJoin};

/// The machine is within a head, after one or refused exactly where the bytes are a beginning of a head, begin with a head, or have 16 KiB
/// without the end of one; and what it keeps is that beginning or that head.
pub fn heads_are_read()
    ensures { HeadsAreRead }
{}

/// All bytes are exactly one of: a beginning of a head, a head and bytes after it, 16 KiB without an end and bytes after them. The head is
/// one.
pub fn heads_are_one()
    ensures { HeadsAreOne }
{}

/// What comes before the last byte of a head, and before the byte that makes a head too long, is a beginning of a head.
pub fn ends_are_first()
    ensures { EndsAreFirst }
{}

/// Pieces one after another lead where the joined bytes lead; what is whole or refused stays so.
pub fn pieces_join()
    ensures { PiecesJoin }
{}
