//! A law over the definitions of maps, the contract of a function that does nothing.

ghost use Rattle.plain_relations.specs.Laws.{MapsAreOfEntries};

/// What entries say is their map: the keys rise, each has the value of its last entry, and no other list is their map.
pub fn maps_are_of_entries()
    ensures { MapsAreOfEntries }
{}
