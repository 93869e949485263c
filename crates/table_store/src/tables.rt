ghost use Rattle.std.specs.Prelude.{◌≡◌, ◌↔◌, IsNone, IfSome, IsSomeAnd, IfOk, position};
ghost use Rattle.std.specs.Option.{option_copied};
ghost use Rattle.table_store.specs.Names.{has_name, table_named};

use cn_base::{Copied, List, OutOfMemory, Text};
use cn_types::{RowList, Schema};
use std::alloc::Global;

/// A table: its name, its columns and its rows.
#[derive(Debug, Drop)]
pub struct NamedTable {
    pub name: Text,
    pub schema: Schema,
    pub rows: RowList,
}

/// Tables in the order in which they were made, and how many changes were applied to them.
#[derive(Debug, Drop)]
pub struct Tables {
    pub version: u64,
    pub named: List<NamedTable>,
}

impl NamedTable {
    /// Whether the table has the name. Names of tables fold: ASCII letters match in either case.
    fn is_named(&self, name: &str) -> bool
        ensures { result ≡ has_name name.now self.now }
    {
        name.eq_ignore_ascii_case(self.name.as_str())
    }
}

impl Tables {
    /// Lends the columns and the rows of the table of that name, where there is one. Names fold: ASCII letters match in either case.
    /// It takes no memory.
    pub fn get(&self, name: &str) -> Option<(&Schema, &RowList)>
        ensures absent { IsNone result ↔ (table_named name.now self.now.named ≡ None) }
        ensures found { IfSome result (λ lent. IsSomeAnd (table_named name.now self.now.named) (λ table. (lent.0.now ≡ table.schema) × (lent.1.now ≡ table.rows))) }
    {
        let table = self.table_named(name)?;
        Some((&table.schema, &table.rows))
    }

    /// Lends the table of that name.
    pub(crate) fn table_named(&self, name: &str) -> Option<&NamedTable>
        ensures { option_copied result ≡ table_named name.now self.now.named }
    {
        self.named
            .as_slice()
            .iter()
            .find(|table| table.is_named(name))
    }

    /// The place of the table of that name.
    pub(crate) fn place_of(&self, name: &str) -> Option<usize>
        ensures { result ≡ position (has_name name.now) self.now.named }
    {
        self.named
            .as_slice()
            .iter()
            .position(|table| table.is_named(name))
    }
}

impl Copied for NamedTable {
    fn copy(&self, alloc: Global) -> Result<NamedTable, OutOfMemory> {
        Ok(NamedTable {
            name: self.name.copy(alloc)?,
            schema: self.schema.copy(alloc)?,
            rows: self.rows.copy(alloc)?,
        })
    }
}

impl Copied for Tables {
    fn copy(&self, alloc: Global) -> Result<Tables, OutOfMemory> {
        Ok(Tables {
            version: self.version,
            named: self.named.copy(alloc)?,
        })
    }
}
