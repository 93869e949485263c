ghost use Rattle.std.specs.Prelude.{◌≡◌, ℕ, ◌-◌, ◌^◌, ◌<◌, ◌↔◌, All, IfOk, IsErrOf, IsTrue};
ghost use Rattle.cn_base.specs.Outside.{counted};
ghost use Rattle.cn_types.specs.Fit.{Fits};
ghost use Rattle.table_store.specs.Commits.{Commits};
ghost use Rattle.table_store.specs.Keepers.{IsToFail};
ghost use Rattle.table_store.specs.Standing.{AreTables};

use crate::rule::Ruling;
use crate::{Commit, CommitRefusal, Keeper, TableChange, Tables};
use cn_base::{Copied, List, OutOfMemory};
use std::alloc::Global;
use std::marker::Model;

/// A keeper of tables in memory, of whose commits given ones fail.
#[derive(Debug, Drop)]
pub struct MemoryKeeper {
    tables: Tables,
    failing: List<u64>,
    calls: u64,
    faults: u64,
}

impl Model for MemoryKeeper {
    ghost use Rattle.table_store.specs.Keepers.{MemoryState};

    ghost Value = { MemoryState };

    ghost view = { λ k. record { tables = k.tables; failing = k.failing; calls = k.calls; faults = k.faults } };
}

impl MemoryKeeper {
    /// A keeper of `tables`. The store fails at the commits whose numbers are in `failing`, where the rule would apply their change.
    /// The numbers count all commits, from 1. It takes no memory.
    pub fn new(tables: Tables, failing: List<u64>) -> MemoryKeeper
        ensures { result ≡ record { tables = tables; failing = failing; calls = 0; faults = 0 } }
    {
        MemoryKeeper {
            tables,
            failing,
            calls: 0,
            faults: 0,
        }
    }

    /// Whether the store is to fail at the next commit: its number is listed, and the rule applies its change.
    fn is_to_fail(&self, change: &TableChange) -> bool
        ensures { IsTrue result ↔ IsToFail self.now change.now }
    {
        self.tables.rule(change) == Ruling::Applies
            && self
                .failing
                .as_slice()
                .contains(&self.calls.saturating_add(1))
    }
}

impl Keeper for MemoryKeeper {
    ghost kept = { λ k. k.tables };

    ghost faults = { λ k. k.faults };

    fn snapshot(&self, alloc: Global) -> Result<Tables, OutOfMemory> {
        self.tables.copy(alloc)
    }

    /// Commits a change. The rule comes first: the store is called, and may fail, only where the rule applies the change.
    fn commit(&mut self, alloc: Global, change: TableChange) -> Result<Commit, CommitRefusal>
        requires version { self.old.tables.version < 2 ^ 63 - 1 }
        requires tables { AreTables self.old.tables }
        requires rows { All (Fits change.schema) change.rows }
        ensures commits { Commits self.old.tables self.old.faults change result self.new.tables self.new.faults }
        ensures tables { AreTables self.new.tables }
        ensures fails { IsErrOf result CommitRefusal.StoreFault ↔ IsToFail self.old change }
        ensures calls { self.new.calls ≡ counted self.old.calls }
        ensures failing { self.new.failing ≡ self.old.failing }
    {
        let fails = self.is_to_fail(&change);
        self.calls = self.calls.saturating_add(1);
        if fails {
            self.faults = self.faults.saturating_add(1);
            return Err(CommitRefusal::StoreFault);
        }
        self.tables.commit(alloc, change)
    }
}
