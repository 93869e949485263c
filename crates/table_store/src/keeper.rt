ghost use Rattle.std.specs.Prelude.{◌≡◌, ℕ, ◌-◌, ◌^◌, ◌<◌, All, IfOk};
ghost use Rattle.cn_types.specs.Fit.{Fits};
ghost use Rattle.table_store.specs.declared.tables.Tables.{Tables};
ghost use Rattle.table_store.specs.Commits.{Commits};
ghost use Rattle.table_store.specs.Standing.{AreTables};

use crate::{Commit, CommitRefusal, TableChange, Tables};
use cn_base::OutOfMemory;
use std::alloc::Global;

/// What keeps tables.
pub trait Keeper: Drop {
    /// The tables that are kept.
    ghost kept: { Self → Tables };

    /// How many commits the store has failed. The count never falls, and stays at 2^64 - 1.
    ghost faults: { Self → ℕ };

    /// A copy of the tables as they are. Rows are shared.
    fn snapshot(&self, alloc: Global) -> Result<Tables, OutOfMemory>
        ensures { IfOk result (λ tables. tables ≡ kept self.now) };

    /// Commits a change, whose rows fit its schema. Where the rule applies it, the change is applied once and the version rises by one.
    /// `CreateOrSkip` of a table that is there is skipped. Each refusal leaves the tables as they were: AlreadyExists comes exactly for
    /// `CreateOnly` of a table that is there, NotFound exactly for `Append` and `ReplaceRows` of one that isn't, SchemaMismatch exactly
    /// where `Append`, `AppendOrCreate` or `ReplaceRows` meets a table with another number or other types of columns, and StoreFault
    /// only where the rule would apply the change and the count of faults rose.
    fn commit(&mut self, alloc: Global, change: TableChange) -> Result<Commit, CommitRefusal>
        requires version { (kept self.old).version < 2 ^ 63 - 1 }
        requires tables { AreTables (kept self.old) }
        requires rows { All (Fits change.schema) change.rows }
        ensures commits { Commits (kept self.old) (faults self.old) change result (kept self.new) (faults self.new) }
        ensures tables { AreTables (kept self.new) };
}
