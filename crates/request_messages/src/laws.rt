//! Laws over the definitions of requests, each the contract of a function that does nothing.

ghost use Rattle.request_messages.specs.Laws.{UserContextsAreReadBack, ReattachableIsReadBack, ReattachRequestsAreReadBack, ReleaseRequestsAreReadBack, InterruptRequestsAreReadBack, ConfigRequestsAreReadBack, RequestsAreValid, RequestTextsAreKept};

/// What a user is spelled as is a sound message, and is read as the user.
pub fn user_contexts_are_read_back()
    ensures { UserContextsAreReadBack }
{}

/// What a request's options are spelled as is read as their flag.
pub fn reattachable_is_read_back()
    ensures { ReattachableIsReadBack }
{}

/// What a request to reattach is spelled as is a sound message, and is read as the request.
pub fn reattach_requests_are_read_back()
    ensures { ReattachRequestsAreReadBack }
{}

/// What a request to release is spelled as is a sound message, and is read as the request.
pub fn release_requests_are_read_back()
    ensures { ReleaseRequestsAreReadBack }
{}

/// What a request to interrupt is spelled as is a sound message, and is read as the request.
pub fn interrupt_requests_are_read_back()
    ensures { InterruptRequestsAreReadBack }
{}

/// What a request on settings is spelled as is a sound message, and is read as the request.
pub fn config_requests_are_read_back()
    ensures { ConfigRequestsAreReadBack }
{}

/// What is read of any fields has the bits of its types and UTF-8 texts, so that it can be written again.
pub fn requests_are_valid()
    ensures { RequestsAreValid }
{}

/// Every text of a sound request is read as it stands.
pub fn request_texts_are_kept()
    ensures { RequestTextsAreKept }
{}
