ghost use Rattle.resolve_names.specs.Laws.{OneReading, FoundIsTheOnlyOne, FoldedSpellingsAnswerAlike};

/// Law: a text has at most one reading as an identifier.
pub fn identifiers_have_one_reading()
    ensures { OneReading }
{}

/// Law: the column that is found is named by the parts, and no other column is.
pub fn found_columns_are_the_only_ones()
    ensures { FoundIsTheOnlyOne }
{}

/// Law: where case does not count, two spellings of a name that are the same in ASCII lower case have one answer.
pub fn folded_spellings_answer_alike()
    ensures { FoldedSpellingsAnswerAlike }
{}
