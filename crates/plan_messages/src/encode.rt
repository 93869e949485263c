ghost use Rattle.std.specs.Prelude.{◌≡◌, ◌≤◌, IfOk};
ghost use Rattle.proto_fields.specs.Spelling.{spell};
ghost use Rattle.plan_messages.specs.Depths.{plan_depth};
ghost use Rattle.proto_fields.specs.declared.kind.MessageKind.{MessageKind};
ghost use Rattle.expression_messages.specs.Laws.{IsReadAs};
ghost use Rattle.plan_messages.specs.Known.{IsKnownPlan, HasPlanBits};
ghost use Rattle.plan_messages.specs.Plans.{plan_at};
ghost use Rattle.plan_messages.specs.Spelled.{plan_fields};

use crate::Plan;
use crate::plan_writing::put_plan;
use cn_base::{Bytes, OutOfMemory};
use proto_fields::MessageWriter;
use std::alloc::Global;

/// The plan's message in its one spelling: fields by ascending number, each varint the shortest, a scalar left out at its default, a present
/// optional one and a set member of a oneof written. No part of the plan may be outside the profile (`is_known_plan` tells), and messages may
/// be nested at most 200 deep (`Plan::depth` tells).
pub fn encode_plan(alloc: Global, plan: &Plan) -> Result<Bytes, OutOfMemory>
    requires known { IsKnownPlan plan.now }
    requires depth { plan_depth plan.now ≤ 200 }
    ensures exact { IfOk result (λ bytes. bytes ≡ spell (plan_fields plan.now)) }

    // What is given is sound, and is read as the plan, whose numbers and texts are as those of every plan that was read.
    ensures read { HasPlanBits plan.now
        → IfOk result (λ bytes. IsReadAs 200 MessageKind.Plan bytes (plan_at 200) plan.now) }
{
    let mut out = MessageWriter::with_room(alloc, plan.spelled() as usize)?;
    put_plan(&mut out, plan)?;
    let bytes = out.finish();
    prove!(bytes.len() <= usize::MAX);
    Ok(bytes)
}
