//! A law over the definitions, the contract of a function that does nothing.

ghost use Rattle.field_groups.specs.Laws.{GroupsAreRead};

/// What is read of a number is read of the fields with that number alone (Protocol Buffers Encoding, "Message Structure").
pub fn groups_are_read()
    ensures { GroupsAreRead }
{}
