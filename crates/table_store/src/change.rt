ghost use Rattle.std.specs.Prelude.{◌≡◌, IfOk};
ghost use Rattle.table_store.specs.declared.change.CommitRefusal.TheVariants.{OutOfMemory as no_memory};

use cn_base::{Copied, OutOfMemory, Text};
use cn_types::{RowList, Schema};
use std::alloc::Global;
use thiserror::Error;

/// What a change is to do with the table of its name.
#[derive(Clone, Copy, Debug, PartialEq, Eq)]
pub enum How {
    /// Makes the table. It is refused where the table is there.
    CreateOnly,
    /// Makes the table. It is skipped where the table is there.
    CreateOrSkip,
    /// Adds rows at the end of the table. It is refused where the table isn't there.
    Append,
    /// Adds rows at the end of the table, or makes it where it isn't there.
    AppendOrCreate,
    /// Puts another table in the table's place, or makes it where it isn't there.
    Replace,
    /// Puts other rows in the place of the table's rows. It is refused where the table isn't there.
    ReplaceRows,
}

/// A change of one table: the table's name, what is done with it, and the columns and rows of the change.
#[derive(Debug, Drop)]
pub struct TableChange {
    pub name: Text,
    pub how: How,
    pub schema: Schema,
    pub rows: RowList,
}

/// What a commit did: the version of the tables after it, and whether the change was applied or skipped.
#[derive(Clone, Copy, Debug, PartialEq, Eq)]
pub struct Commit {
    pub version: u64,
    pub applied: bool,
}

/// Why a commit changed nothing.
#[derive(Debug, Drop, PartialEq, Eq, Error)]
pub enum CommitRefusal {
    /// The change only creates, and there is a table of its name.
    #[error("the table already exists")]
    AlreadyExists,
    /// The change needs a table of its name, and there is none.
    #[error("there is no such table")]
    NotFound,
    /// The change has another number or other types of columns than the table, by position.
    #[error("the columns are not the table's")]
    SchemaMismatch,
    /// The store failed. The keeper's count of faults rose.
    #[error("the store failed")]
    StoreFault,
    /// There was no memory.
    #[error("out of memory")]
    OutOfMemory,
}

impl From<OutOfMemory> for CommitRefusal {
    ghost from_gives = { λ _ e. e ≡ no_memory };

    fn from(_error: OutOfMemory) -> CommitRefusal {
        CommitRefusal::OutOfMemory
    }
}

impl Copied for How {
    fn copy(&self, _alloc: Global) -> Result<How, OutOfMemory> {
        Ok(*self)
    }
}

impl Copied for TableChange {
    fn copy(&self, alloc: Global) -> Result<TableChange, OutOfMemory> {
        Ok(TableChange {
            name: self.name.copy(alloc)?,
            how: self.how,
            schema: self.schema.copy(alloc)?,
            rows: self.rows.copy(alloc)?,
        })
    }
}

impl Copied for Commit {
    fn copy(&self, _alloc: Global) -> Result<Commit, OutOfMemory> {
        Ok(*self)
    }
}
