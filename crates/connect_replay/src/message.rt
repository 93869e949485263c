ghost use Rattle.std.specs.Prelude.{◌≡◌, IfOk};
ghost use Rattle.proto_fields.specs.declared.fault.MessageFault.{MessageFault};
ghost use Rattle.plan_messages.specs.Known.{HasPlanBits};
ghost use Rattle.connect_replay.specs.Message.{asked_plan, asked_range, range_in, root_range};

use crate::ask::Ask;
use cn_base::OutOfMemory;
use plan_messages::{Plan, Range, Relation, RelationMember, decode_plan, encode_plan};
use proto_fields::MessageFault;
use std::alloc::Global;

/// The plan that a client sends for an ask.
fn plan_of_ask(ask: &Ask) -> Plan
    ensures exact { result ≡ asked_plan ask.now }
    ensures bits { HasPlanBits result }
{
    Plan::Root(Relation {
        common: None,
        member: RelationMember::Range(Range {
            start: Some(ask.start),
            end: ask.end,
            step: ask.step,
            num_partitions: None,
        }),
    })
}

/// The range of an ask, as it is read of the message of its plan.
pub fn range_of_message(alloc: Global, ask: &Ask) -> Result<Range, OutOfMemory>
    ensures { IfOk result (λ range. range ≡ asked_range ask.now) }
{
    let asked = plan_of_ask(ask);
    let message = encode_plan(alloc, &asked)?;
    match decode_plan(alloc, message.as_slice()) {
        Ok(plan) => match range_of_root(&plan) {
            Some(range) => Ok(range),
            None => unreachable!(),
        },
        Err(fault) => Err(want_of_memory(fault)),
    }
}

/// The range that a plan's root is; `None` where it is another relation, or none.
fn range_of_root(plan: &Plan) -> Option<Range>
    ensures { result ≡ root_range plan.now }
{
    match plan {
        Plan::Root(relation) => range_of_member(&relation.member),
        Plan::Command(_) => None,
    }
}

/// The range that a relation's member is; `None` where it is another.
fn range_of_member(member: &RelationMember<Relation>) -> Option<Range>
    ensures { result ≡ range_in member.now }
{
    match member {
        RelationMember::Range(range) => Some(*range),
        RelationMember::Read(_)
        | RelationMember::Project(_)
        | RelationMember::Filter(_)
        | RelationMember::Join(_)
        | RelationMember::SetOperation(_)
        | RelationMember::Sort(_)
        | RelationMember::Limit(_)
        | RelationMember::Aggregate(_)
        | RelationMember::LocalRelation(_)
        | RelationMember::Offset(_)
        | RelationMember::Deduplicate(_)
        | RelationMember::SubqueryAlias(_)
        | RelationMember::ToDf(_)
        | RelationMember::WithColumnsRenamed(_)
        | RelationMember::DropColumns(_)
        | RelationMember::WithColumns(_)
        | RelationMember::Other(_) => None,
    }
}

/// The fault that a sound message may have.
fn want_of_memory(fault: MessageFault) -> OutOfMemory
    requires { fault ≡ MessageFault.OutOfMemory }
{
    match fault {
        MessageFault::OutOfMemory => OutOfMemory,
        MessageFault::Wire(_) | MessageFault::NotUtf8 { .. } | MessageFault::TooDeep { .. } => {
            unreachable!()
        }
    }
}
