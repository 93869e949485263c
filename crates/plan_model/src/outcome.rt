ghost use Rattle.std.specs.Prelude.{◌≡◌, IfOk};

use cn_base::{Copied, OutOfMemory};
use cn_types::{RowList, Schema};
use std::alloc::Global;

/// What a plan gives.
#[derive(Debug, Drop)]
pub enum Outcome {
    /// The plan's rows.
    Rows(Schema, RowList),
    /// A node has more rows than this.
    TooManyRows { limit: u32 },
    /// A row of a node weighs more bytes than this.
    RowTooLarge { limit: u32 },
}

impl Copied for Outcome {
    fn copy(&self, alloc: Global) -> Result<Outcome, OutOfMemory> {
        match self {
            Outcome::Rows(schema, rows) => Ok(Outcome::Rows(
                schema.copy(alloc)?,
                rows.copy(alloc)?,
            )),
            Outcome::TooManyRows { limit } => Ok(Outcome::TooManyRows { limit: *limit }),
            Outcome::RowTooLarge { limit } => Ok(Outcome::RowTooLarge { limit: *limit }),
        }
    }
}
