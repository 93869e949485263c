//! Laws over the definitions of relations, each the contract of a function that does nothing.

ghost use Rattle.relation_messages.specs.Laws.{RelationsAreReadBack, RelationLevelsAgree, RelationsAreValid, RelationTextsAreKept};

/// What a relation is spelled as is a sound message wherever its depth is allowed, and is read as the relation.
pub fn relations_are_read_back()
    ensures { RelationsAreReadBack }
{}

/// What is read of a sound message is the same at every level that suffices.
pub fn relation_levels_agree()
    ensures { RelationLevelsAgree }
{}

/// What is read of any fields has the bits of its types and UTF-8 texts, so that it can be written again.
pub fn relations_are_valid()
    ensures { RelationsAreValid }
{}

/// Every text of a sound message is read as it stands.
pub fn relation_texts_are_kept()
    ensures { RelationTextsAreKept }
{}
