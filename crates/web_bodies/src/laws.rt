//! Laws over the definitions of bodies, for all bytes, each the contract of a function that does nothing.

ghost use Rattle.web_bodies.specs.Laws.{BodiesAreRead, PlacesAreCounted, BodiesAreOne, EndsAreFirst, PiecesJoin};

/// The machine is within a body, at its end or refused exactly where RFC 9112 says that the bytes are a beginning of a body, have a body as
/// their beginning, or have the fault; and its payload is the body's.
pub fn bodies_are_read()
    ensures { BodiesAreRead }
{}

/// The machine counts the bytes up to the end of the body, and up to the one that settles a fault.
pub fn places_are_counted()
    ensures { PlacesAreCounted }
{}

/// All bytes are exactly one of: a beginning of a body, a body and bytes after it, a fault and bytes after it. Each has one payload, the
/// body and the fault one end.
pub fn bodies_are_one()
    ensures { BodiesAreOne }
{}

/// What comes before the end of a body, and before the byte that settles a fault, is a beginning of a body.
pub fn ends_are_first()
    ensures { EndsAreFirst }
{}

/// Pieces one after another lead where the joined bytes lead, with the same payload; what is over or refused stays so.
pub fn pieces_join()
    ensures { PiecesJoin }
{}
