ghost use Rattle.std.specs.Prelude.{◌≡◌, IfOk};

use crate::Node;
use cn_base::{Copied, OutOfMemory, Text};
use cn_types::Schema;
use std::alloc::Global;

/// Where the rows of a plan are to be stored.
#[derive(Debug, Drop)]
pub struct Save {
    /// The name of the table.
    pub name: Text,
    /// How the table is named, by its number in a write command.
    pub method: i32,
    /// What is to happen where the table is there, by its number in a write command.
    pub mode: i32,
}

/// A plan whose names and types are resolved.
#[derive(Debug, Drop)]
pub struct Resolved {
    pub node: Node,
    /// The columns of the node.
    pub schema: Schema,
    /// Where the rows are to be stored; none for a query.
    pub save: Option<Save>,
}

impl Copied for Save {
    fn copy(&self, alloc: Global) -> Result<Save, OutOfMemory> {
        Ok(Save {
            name: self.name.copy(alloc)?,
            method: self.method,
            mode: self.mode,
        })
    }
}

impl Copied for Resolved {
    fn copy(&self, alloc: Global) -> Result<Resolved, OutOfMemory> {
        Ok(Resolved {
            node: self.node.copy(alloc)?,
            schema: self.schema.copy(alloc)?,
            save: self.save.copy(alloc)?,
        })
    }
}
