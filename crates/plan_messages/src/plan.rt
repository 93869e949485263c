use cn_base::{Copied, OutOfMemory};
use command_messages::Command;
use relation_messages::Relation;
use std::alloc::Global;

/// A plan: a relation whose rows are asked for, or a command (`base.proto`, Plan).
#[derive(Debug, Drop)]
pub enum Plan {
    /// A relation whose member is `Other(0)` where the plan has no member.
    Root(Relation),
    Command(Command<Relation>),
}

impl Copied for Plan {
    fn copy(&self, alloc: Global) -> Result<Plan, OutOfMemory> {
        match self {
            Plan::Root(relation) => Ok(Plan::Root(relation.copy(alloc)?)),
            Plan::Command(command) => Ok(Plan::Command(command.copy(alloc)?)),
        }
    }
}
