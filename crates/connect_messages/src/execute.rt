ghost use Rattle.std.specs.Prelude.{◌≡◌, IfOk};
ghost use Rattle.proto_fields.specs.Views.{seen};
ghost use Rattle.plan_messages.specs.Plans.{plan_at};
ghost use Rattle.expression_messages.specs.Messages.{message_at};
ghost use Rattle.connect_messages.specs.Requests as requests;

use cn_base::{Copied, List, OutOfMemory, Text};
use expression_messages::message_records;
use plan_messages::{Plan, plan_from};
use proto_fields::{Record, optional_text, text_field, texts};
use request_messages::{UserContext, context_from, reattachable_from};
use std::alloc::Global;

/// Starts an execution (`base.proto`, ExecutePlanRequest).
#[derive(Debug, Drop)]
pub struct ExecuteRequest {
    pub session_id: Text,
    pub user_context: Option<UserContext>,
    /// A root whose member is `Other(0)` where no plan is there.
    pub plan: Plan,
    /// Whether a client may attach to the execution again: what the last option with `reattach_options` says, else false.
    pub reattachable: bool,
    pub operation_id: Option<Text>,
    pub tags: List<Text>,
}

impl Copied for ExecuteRequest {
    fn copy(&self, alloc: Global) -> Result<ExecuteRequest, OutOfMemory> {
        let session_id = self.session_id.copy(alloc)?;
        let user_context = self.user_context.copy(alloc)?;
        let operation_id = self.operation_id.copy(alloc)?;
        let tags = self.tags.copy(alloc)?;
        Ok(ExecuteRequest {
            session_id,
            user_context,
            plan: self.plan.copy(alloc)?,
            reattachable: self.reattachable,
            operation_id,
            tags,
        })
    }
}

/// The plan in a request's field of this number, with so many levels of nesting at most, its own among them.
pub(crate) fn plan_in(
    alloc: Global,
    items: &[Record],
    number: u32,
    level: u32,
) -> Result<Plan, OutOfMemory>
    ensures { IfOk result (λ plan. plan ≡ plan_at level (message_at number (seen items.now))) }
{
    let found = message_records(alloc, items, number)?;
    plan_from(alloc, found.as_slice(), level)
}

/// The request that a message's records hold, with so many levels of nesting at most, its own among them.
pub(crate) fn execute_from(
    alloc: Global,
    items: &[Record],
    level: u32,
) -> Result<ExecuteRequest, OutOfMemory>
    ensures { IfOk result (λ request. request ≡ requests.execute_request_at level (seen items.now)) }
{
    let session_id = text_field(alloc, items, 1)?;
    let user_context = context_from(alloc, items)?;
    let reattachable = reattachable_from(alloc, items)?;
    let operation_id = optional_text(alloc, items, 6)?;
    let tags = texts(alloc, items, 7)?;
    Ok(ExecuteRequest {
        session_id,
        user_context,
        plan: plan_in(alloc, items, 3, level.saturating_sub(1))?,
        reattachable,
        operation_id,
        tags,
    })
}
