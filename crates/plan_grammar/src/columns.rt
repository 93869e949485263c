ghost use Rattle.std.specs.Prelude.{◌≡◌, OnOk};
ghost use Rattle.plan_grammar.specs.Derivation as derivation;

use crate::symbol::{Columns, Deed, Use};
use cn_base::{List, OutOfMemory};
use cn_types::DataType;
use std::alloc::Global;

impl Columns {
    /// No columns. It takes no memory.
    pub fn new(alloc: Global) -> Columns
        ensures { result ≡ derivation.no_columns }
    {
        Columns {
            kinds: List::new(alloc),
            cells: 0,
        }
    }

    /// The type of the column whose cell comes next in a row, where there is one.
    pub fn wanted(&self) -> Option<DataType>
        ensures { result ≡ derivation.wanted_of self.now }
    {
        self.kinds.get(self.cells).copied()
    }

    /// Goes on behind a token that is taken.
    pub fn take(&mut self, alloc: Global, used: Use)
        ensures { self.new ≡ derivation.behind_use used self.old }
    {
        match used {
            Use::NewColumns => {
                self.kinds = List::new(alloc);
                self.cells = 0;
            }
            Use::Cell(_) => self.cells = self.cells.saturating_add(1).min(self.kinds.len()),
            _ => {}
        }
    }

    /// Goes on behind a deed that takes no token.
    pub fn go_on(&mut self, done: &Deed) -> Result<(), OutOfMemory>
        ensures { OnOk result (self.new ≡ derivation.after_doing done.now self.old) }
    {
        match done {
            Deed::Column(kind) => {
                self.kinds.push(*kind)?;
                Ok(())
            }
            Deed::Row => {
                self.cells = 0;
                Ok(())
            }
            Deed::Act(_) => Ok(()),
            Deed::Take(_, _) => Ok(()),
        }
    }
}
