//! Laws over the definitions of responses, each the contract of a function that does nothing.

ghost use Rattle.response_messages.specs.Laws.{KeyValuesAreReadBack, ResponsesAreReadBack, ResponseLevelsAgree, ResponsesAreValid, ResponseTextsAreKept};

/// What a pair is spelled as is a sound message wherever a message may stand, and is read as the pair.
pub fn key_values_are_read_back()
    ensures { KeyValuesAreReadBack }
{}

/// What a response is spelled as is a sound message of its method wherever its depth is allowed, and is read as the response.
pub fn responses_are_read_back()
    ensures { ResponsesAreReadBack }
{}

/// What is read of a sound response is the same at every level that suffices.
pub fn response_levels_agree()
    ensures { ResponseLevelsAgree }
{}

/// What is read of any fields has the bits of its types and UTF-8 texts, so that it can be written again.
pub fn responses_are_valid()
    ensures { ResponsesAreValid }
{}

/// Every text of a sound response is read as it stands.
pub fn response_texts_are_kept()
    ensures { ResponseTextsAreKept }
{}
