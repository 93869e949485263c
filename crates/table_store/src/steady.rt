ghost use Rattle.std.specs.Prelude.{◌≡◌, ℕ, ◌-◌, ◌^◌, ◌<◌, All, IfOk};
ghost use Rattle.cn_types.specs.Fit.{Fits};
ghost use Rattle.table_store.specs.Commits.{Commits};
ghost use Rattle.table_store.specs.Standing.{AreTables};

use crate::rule::Ruling;
use crate::{Commit, CommitRefusal, Keeper, TableChange, Tables};
use cn_base::{Copied, OutOfMemory};
use std::alloc::Global;
use std::marker::Model;

/// A keeper of tables in memory that never fails.
#[derive(Debug, Drop)]
pub struct SteadyKeeper {
    tables: Tables,
}

impl Model for SteadyKeeper {
    ghost use Rattle.table_store.specs.declared.tables.Tables.{Tables};

    ghost Value = { Tables };

    ghost view = { λ k. k.tables };
}

impl SteadyKeeper {
    /// A keeper of `tables`. It takes no memory.
    pub fn new(tables: Tables) -> SteadyKeeper
        ensures { result ≡ tables }
    {
        SteadyKeeper { tables }
    }
}

impl Keeper for SteadyKeeper {
    ghost kept = { λ k. k };

    ghost faults = { λ _. 0 };

    fn snapshot(&self, alloc: Global) -> Result<Tables, OutOfMemory> {
        self.tables.copy(alloc)
    }

    fn commit(&mut self, alloc: Global, change: TableChange) -> Result<Commit, CommitRefusal> {
        self.tables.commit(alloc, change)
    }
}

impl Tables {
    /// Commits a change by the rule, with no store that could fail.
    pub(crate) fn commit(
        &mut self,
        alloc: Global,
        change: TableChange,
    ) -> Result<Commit, CommitRefusal>
        requires version { self.old.version < 2 ^ 63 - 1 }
        requires tables { AreTables self.old }
        requires rows { All (Fits change.schema) change.rows }
        ensures commits { (faults : ℕ) → Commits self.old faults change result self.new faults }
        ensures tables { AreTables self.new }
    {
        match self.rule(&change) {
            Ruling::Applies => {
                self.apply(alloc, change)?;
                Ok(Commit {
                    version: self.version,
                    applied: true,
                })
            }
            Ruling::Skips => Ok(Commit {
                version: self.version,
                applied: false,
            }),
            Ruling::Exists => Err(CommitRefusal::AlreadyExists),
            Ruling::Missing => Err(CommitRefusal::NotFound),
            Ruling::Mismatched => Err(CommitRefusal::SchemaMismatch),
        }
    }
}
