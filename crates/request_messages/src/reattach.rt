ghost use Rattle.std.specs.Prelude.{◌≡◌, ◌++◌, IfOk, OnOk};
ghost use Rattle.proto_fields.specs.Sizes.{size_of};
ghost use Rattle.proto_fields.specs.Spelling.{spell};
ghost use Rattle.proto_fields.specs.Views.{seen};
ghost use Rattle.request_messages.specs.Depths as depths;
ghost use Rattle.request_messages.specs.Requests as requests;
ghost use Rattle.request_messages.specs.Spelled as spelled;

use crate::UserContext;
use crate::context_field::{context_depth, context_from, context_size, put_context};
use cn_base::{Copied, OutOfMemory, Text};
use proto_fields::{
    MessageWriter, Record, optional_text, optional_text_size, text_field, text_size,
};
use std::alloc::Global;

/// Asks for the rest of an execution's responses (`base.proto`, ReattachExecuteRequest).
#[derive(Debug, Drop)]
pub struct ReattachRequest {
    pub session_id: Text,
    pub user_context: Option<UserContext>,
    pub operation_id: Text,
    /// The last response that came; `None` asks for all of them.
    pub last_response_id: Option<Text>,
}

impl Copied for ReattachRequest {
    fn copy(&self, alloc: Global) -> Result<ReattachRequest, OutOfMemory> {
        Ok(ReattachRequest {
            session_id: self.session_id.copy(alloc)?,
            user_context: self.user_context.copy(alloc)?,
            operation_id: self.operation_id.copy(alloc)?,
            last_response_id: self.last_response_id.copy(alloc)?,
        })
    }
}

/// The request that a message's records hold.
pub fn reattach_from(alloc: Global, items: &[Record]) -> Result<ReattachRequest, OutOfMemory>
    ensures { IfOk result (λ request. request ≡ requests.reattach_request_of (seen items.now)) }
{
    Ok(ReattachRequest {
        session_id: text_field(alloc, items, 1)?,
        user_context: context_from(alloc, items)?,
        operation_id: text_field(alloc, items, 3)?,
        last_response_id: optional_text(alloc, items, 5)?,
    })
}

/// Puts the request's message before what stands. Where memory runs out, nothing is promised of what stands then.
#[tactic(auto, using(field_groups::proofs::Sequences::stand_four))]
pub fn put_reattach(out: &mut MessageWriter, request: &ReattachRequest) -> Result<(), OutOfMemory>
    ensures { OnOk result (out.new ≡ spell (spelled.reattach_fields request.now) ++ out.old) }
{
    out.put_optional_text(5, &request.last_response_id)?;
    out.put_text(3, request.operation_id.as_str())?;
    put_context(out, &request.user_context)?;
    out.put_text(1, request.session_id.as_str())
}

/// How many bytes the request's message takes; 2^64 - 1 where it is above that. It takes no memory.
#[tactic(auto, using(field_groups::proofs::Sequences::sized_four))]
pub fn reattach_size(request: &ReattachRequest) -> u64
    ensures { result ≡ size_of (spelled.reattach_fields request.now) }
{
    let session = text_size(1, request.session_id.as_str());
    let context = context_size(&request.user_context);
    let operation = text_size(3, request.operation_id.as_str());
    let response = optional_text_size(5, &request.last_response_id);
    session
        .saturating_add(context)
        .saturating_add(operation)
        .saturating_add(response)
}

/// How many messages are nested in the request's message, itself among them. It takes no memory.
pub fn reattach_depth(request: &ReattachRequest) -> u32
    ensures { result ≡ depths.reattach_depth request.now }
{
    1 + context_depth(&request.user_context)
}
