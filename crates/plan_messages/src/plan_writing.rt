ghost use Rattle.std.specs.Prelude.{◌≡◌, ◌++◌, OnOk};
ghost use Rattle.proto_fields.specs.Spelling.{spell};
ghost use Rattle.command_messages.specs.Spelled.{command_fields, write_operation_fields};
ghost use Rattle.relation_messages.specs.Spelled.{relation_fields};
ghost use Rattle.plan_messages.specs.Spelled.{plan_fields};

use crate::Plan;
use cn_base::OutOfMemory;
use command_messages::{Command, WriteOperation, put_write_operation_rest};
use expression_messages::put_message_head;
use proto_fields::MessageWriter;
use relation_messages::{Relation, put_relation};

/// Puts the write operation's message before what stands.
#[tactic(auto, using(crate::proofs::PlanWritten::payload_stands))]
fn put_operation(
    out: &mut MessageWriter,
    operation: &WriteOperation<Relation>,
) -> Result<(), OutOfMemory>
    ensures { OnOk result (out.new ≡ spell (write_operation_fields relation_fields operation.now) ++ out.old) }
{
    put_write_operation_rest(out, operation)?;
    let end = out.len();
    put_relation(out, &operation.input)?;
    put_message_head(out, 1, end)
}

/// Puts the command's message before what stands; nothing where it is outside the profile.
#[tactic(auto, using(expression_messages::proofs::Written::spell_nil))]
fn put_command(out: &mut MessageWriter, command: &Command<Relation>) -> Result<(), OutOfMemory>
    ensures { OnOk result (out.new ≡ spell (command_fields relation_fields command.now) ++ out.old) }
{
    match command {
        Command::WriteOperation(operation) => {
            let end = out.len();
            put_operation(out, operation)?;
            put_message_head(out, 2, end)
        }
        Command::Other(_) => Ok(()),
    }
}

/// Puts the plan's message before what stands. Where memory runs out, nothing is promised of what stands then.
pub fn put_plan(out: &mut MessageWriter, plan: &Plan) -> Result<(), OutOfMemory>
    ensures { OnOk result (out.new ≡ spell (plan_fields plan.now) ++ out.old) }
{
    let end = out.len();
    match plan {
        Plan::Root(relation) => {
            put_relation(out, relation)?;
            put_message_head(out, 1, end)
        }
        Plan::Command(command) => {
            put_command(out, command)?;
            put_message_head(out, 2, end)
        }
    }
}
