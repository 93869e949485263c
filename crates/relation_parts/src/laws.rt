//! The law over the definitions of a relation's parts, as the contract of a function that does nothing.

ghost use Rattle.relation_parts.specs.Laws.{PartsAreReadBack, PartsAreValid, PartTextsAreKept};

/// What a part of a relation is spelled as is a sound message wherever its depth is allowed, and is read as the part.
pub fn parts_are_read_back()
    ensures { PartsAreReadBack }
{}

/// What is read of any fields has the bits of its types and UTF-8 texts, so that it can be written again.
pub fn parts_are_valid()
    ensures { PartsAreValid }
{}

/// Every text of a sound message is read as it stands.
pub fn part_texts_are_kept()
    ensures { PartTextsAreKept }
{}
