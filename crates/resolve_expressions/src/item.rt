ghost use Rattle.std.specs.Prelude.{◌≡◌, IfOk};

use cn_base::{Copied, OutOfMemory, Text};
use plan_model::TypedExpr;
use std::alloc::Global;

/// A column that an expression makes, before it has an id.
#[derive(Debug, Drop)]
pub struct Item {
    pub name: Text,
    pub expr: TypedExpr,
    /// The place of the input's column that it is, where the expression is an attribute and no more. Such a column keeps its id and qualifier.
    pub source: Option<u32>,
    /// Whether the column may be null.
    pub nullable: bool,
}

impl Copied for Item {
    fn copy(&self, alloc: Global) -> Result<Item, OutOfMemory> {
        Ok(Item {
            name: self.name.copy(alloc)?,
            expr: self.expr.copy(alloc)?,
            source: self.source,
            nullable: self.nullable,
        })
    }
}
