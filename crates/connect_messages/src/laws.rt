//! Laws over the definitions of requests, each the contract of a function that does nothing.

ghost use Rattle.connect_messages.specs.Laws.{RequestsAreReadBack, RequestLevelsAgree, RequestsAreValid, AskedTextsAreKept};

/// What a request is spelled as is a sound message wherever its depth is allowed, and is read as the request by its method.
pub fn requests_are_read_back()
    ensures { RequestsAreReadBack }
{}

/// What is read of a sound message is the same at every level that suffices.
pub fn request_levels_agree()
    ensures { RequestLevelsAgree }
{}

/// What is read of any fields has the bits of its types and UTF-8 texts, so that it can be written again.
pub fn asked_are_valid()
    ensures { RequestsAreValid }
{}

/// Every text of a sound request is read as it stands.
pub fn asked_texts_are_kept()
    ensures { AskedTextsAreKept }
{}
