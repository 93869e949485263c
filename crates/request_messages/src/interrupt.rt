ghost use Rattle.std.specs.Prelude.{◌≡◌, IfOk};
ghost use Rattle.proto_fields.specs.Views.{seen, member_of};
ghost use Rattle.request_messages.specs.Depths as depths;
ghost use Rattle.request_messages.specs.Requests as requests;

use crate::UserContext;
use crate::context_field::{context_depth, context_from};
use cn_base::{Copied, OutOfMemory, Text};
use proto_fields::{Member, MessageKind, Record, int32_field, latest, text_field};
use std::alloc::Global;

/// Which executions an interrupt names beside its type.
#[derive(Debug, Drop)]
pub enum InterruptTarget {
    /// Those with this tag.
    OperationTag(Text),
    /// The one with this id.
    OperationId(Text),
    /// Nothing of both.
    Absent,
}

/// Interrupts executions of a session (`base.proto`, InterruptRequest).
#[derive(Debug, Drop)]
pub struct InterruptRequest {
    pub session_id: Text,
    pub user_context: Option<UserContext>,
    /// 0 unspecified, 1 all, 2 by tag, 3 by operation id; another number is kept.
    pub interrupt_type: i32,
    pub target: InterruptTarget,
}

impl Copied for InterruptTarget {
    fn copy(&self, alloc: Global) -> Result<InterruptTarget, OutOfMemory> {
        match self {
            InterruptTarget::OperationTag(tag) => {
                Ok(InterruptTarget::OperationTag(tag.copy(alloc)?))
            }
            InterruptTarget::OperationId(id) => Ok(InterruptTarget::OperationId(id.copy(alloc)?)),
            InterruptTarget::Absent => Ok(InterruptTarget::Absent),
        }
    }
}

impl Copied for InterruptRequest {
    fn copy(&self, alloc: Global) -> Result<InterruptRequest, OutOfMemory> {
        Ok(InterruptRequest {
            session_id: self.session_id.copy(alloc)?,
            user_context: self.user_context.copy(alloc)?,
            interrupt_type: self.interrupt_type,
            target: self.target.copy(alloc)?,
        })
    }
}

/// The target that a member of the request's oneof is.
fn target_of_member(alloc: Global, member: &Member) -> Result<InterruptTarget, OutOfMemory>
    ensures { IfOk result (λ target. target ≡ requests.interrupt_target_member (member_of member.now)) }
{
    if member.number == 5 {
        Ok(InterruptTarget::OperationTag(text_field(alloc, member.since, 5)?))
    } else {
        Ok(InterruptTarget::OperationId(text_field(alloc, member.since, 6)?))
    }
}

/// The target that the request's records name.
fn target_in(alloc: Global, items: &[Record]) -> Result<InterruptTarget, OutOfMemory>
    ensures { IfOk result (λ target. target ≡ requests.target_in (seen items.now)) }
{
    match latest(MessageKind::InterruptRequest, items) {
        Some(member) => target_of_member(alloc, &member),
        None => Ok(InterruptTarget::Absent),
    }
}

/// The request that a message's records hold.
pub fn interrupt_from(alloc: Global, items: &[Record]) -> Result<InterruptRequest, OutOfMemory>
    ensures { IfOk result (λ request. request ≡ requests.interrupt_request_of (seen items.now)) }
{
    Ok(InterruptRequest {
        session_id: text_field(alloc, items, 1)?,
        user_context: context_from(alloc, items)?,
        interrupt_type: int32_field(items, 4),
        target: target_in(alloc, items)?,
    })
}

/// How many messages are nested in the request's message, itself among them. It takes no memory.
pub fn interrupt_depth(request: &InterruptRequest) -> u32
    ensures { result ≡ depths.interrupt_depth request.now }
{
    1 + context_depth(&request.user_context)
}
