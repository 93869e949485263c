ghost use Rattle.std.specs.Prelude.{◌≡◌};
ghost use Rattle.proto_fields.specs.Sizes.{size_of};
ghost use Rattle.command_messages.specs.Depths.{command_depth};
ghost use Rattle.command_messages.specs.Spelled.{command_fields, write_operation_fields};
ghost use Rattle.expression_messages.specs.Depths.{told};
ghost use Rattle.relation_messages.specs.Depths.{relation_depth as relation_levels};
ghost use Rattle.relation_messages.specs.Spelled.{relation_fields};
ghost use Rattle.plan_messages.specs.Depths.{plan_depth};
ghost use Rattle.plan_messages.specs.Known as known;
ghost use Rattle.plan_messages.specs.Spelled.{plan_fields};

use crate::Plan;
use command_messages::{Command, WriteOperation, table_depth, write_operation_rest_size};
use proto_fields::message_size;
use relation_messages::{Relation, is_known_relation, relation_depth, relation_size};

/// How many bytes the write operation's message takes; 2^64 - 1 where it is above that.
#[tactic(auto, using(crate::proofs::PlanWritten::payload_sized))]
fn operation_size(operation: &WriteOperation<Relation>) -> u64
    ensures { result ≡ size_of (write_operation_fields relation_fields operation.now) }
{
    let input = message_size(1, relation_size(&operation.input));
    let rest = write_operation_rest_size(operation);
    input.saturating_add(rest)
}

/// How many bytes the command's message takes; 2^64 - 1 where it is above that.
#[tactic(auto, using(expression_messages::proofs::Measured::size_of_nil))]
fn command_size(command: &Command<Relation>) -> u64
    ensures { result ≡ size_of (command_fields relation_fields command.now) }
{
    match command {
        Command::WriteOperation(operation) => message_size(2, operation_size(operation)),
        Command::Other(_) => 0,
    }
}

/// How many messages are nested in the command's message, itself among them; 2^32 - 1 where there are more.
fn depth_of_command(command: &Command<Relation>) -> u32
    ensures { result ≡ told (command_depth relation_levels command.now) }
{
    match command {
        Command::WriteOperation(operation) => relation_depth(&operation.input)
            .max(table_depth(&operation.table))
            .saturating_add(2),
        Command::Other(_) => 1,
    }
}

impl Plan {
    /// How many messages are nested in the plan's spelling, its own among them; 2^32 - 1 where there are more. It takes no memory.
    pub fn depth(&self) -> u32
        ensures { result ≡ told (plan_depth self.now) }
    {
        match self {
            Plan::Root(relation) => relation_depth(relation).saturating_add(1),
            Plan::Command(command) => depth_of_command(command).saturating_add(1),
        }
    }

    /// How many bytes the plan's spelling has; 2^64 - 1 where it is above that. It takes no memory.
    pub fn spelled(&self) -> u64
        ensures { result ≡ size_of (plan_fields self.now) }
    {
        match self {
            Plan::Root(relation) => message_size(1, relation_size(relation)),
            Plan::Command(command) => message_size(2, command_size(command)),
        }
    }
}

/// Whether the plan has a spelling: no part of it is outside the profile. It takes no memory.
pub fn is_known_plan(plan: &Plan) -> bool
    ensures { result ≡ known.is_known_plan plan.now }
{
    match plan {
        Plan::Root(relation) => is_known_relation(relation),
        Plan::Command(Command::WriteOperation(operation)) => is_known_relation(&operation.input),
        Plan::Command(Command::Other(_)) => false,
    }
}
