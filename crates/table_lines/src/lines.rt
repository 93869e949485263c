ghost use Rattle.std.specs.Prelude.{◌≡◌, List as AnyList, [], ◌++◌, ◌∷◌, ◌≢◌, true, false, is_some, Some, None, IfOk, IfSome, IsNone, OnOk, OnErr};
ghost use Rattle.std.specs.List.{list_any};
ghost use Rattle.table_store.specs.Standing.{AreTables};
ghost use Rattle.table_lines.specs.declared.lines.LinedTable.{LinedTable as AnyLinedTable};
ghost use Rattle.table_store.specs.Names.{has_name, table_named};
ghost use Rattle.cn_types.specs.declared.row.Row.{Row as AnyRow};
ghost use Rattle.table_lines.specs.Lines.{Takes, IsRowForLast, LastTakes, as_named, named_of, with_last_row};

use crate::cells::row_of_line;
use crate::columns::table_of_line;
use cn_base::{List, OutOfMemory, Text};
use cn_types::{Row, RowList, Schema};
use std::alloc::Global;
use std::marker::Model;
use table_store::{NamedTable, Tables};

/// A table that lines make.
#[derive(Debug, Drop)]
pub struct LinedTable {
    pub name: Text,
    pub schema: Schema,
    pub rows: List<Row>,
}

impl LinedTable {
    /// Whether the table has the name. Names fold: ASCII letters match in either case.
    fn is_named(&self, name: &str) -> bool
        ensures { result ≡ has_name name.now (as_named self.now) }
    {
        name.eq_ignore_ascii_case(self.name.as_str())
    }
}

/// The tables that lines have made so far. Contracts see them in the order of their lines.
#[derive(Debug, Drop)]
pub struct TableLines {
    tables: Vec<LinedTable>,
}

impl Model for TableLines {
    ghost use Rattle.std.specs.Prelude.{List};
    ghost use Rattle.table_lines.specs.Lines.{CanStand};
    ghost use Rattle.table_lines.specs.declared.lines.LinedTable.{LinedTable};

    ghost Value = { List LinedTable };

    ghost view = { λ t. t.tables.items };

    ghost invariant = { λ t. CanStand t.tables.items };
}

impl TableLines {
    /// No table. It takes no memory.
    pub fn new(alloc: Global) -> TableLines
        ensures { result ≡ [] }
    {
        TableLines {
            tables: Vec::new(alloc),
        }
    }

    /// Takes a line without its LF, where it is a `table` or `row` line in its place behind those taken, and says whether it is one. Else,
    /// and where there is no memory, nothing changes.
    pub fn line(&mut self, alloc: Global, line: &[u8]) -> Result<bool, OutOfMemory>
        ensures taken { result ≡ Ok true → Takes self.old line.now self.new }
        ensures kept { result ≡ Ok false → self.new ≡ self.old }
        ensures refused { result ≡ Ok false → (after : AnyList AnyLinedTable) → ¬ Takes self.old line.now after }
        ensures err { OnErr result (self.new ≡ self.old) }
    {
        if let Some(table) = table_of_line(alloc, line)? {
            return self.add_table(table);
        }
        match self.row_for_last(alloc, line)? {
            Some(row) => {
                self.add_row(row)?;
                Ok(true)
            }
            None => Ok(false),
        }
    }

    /// The tables, at version 0 and in the order of their lines.
    pub fn finish(self, alloc: Global) -> Result<Tables, OutOfMemory>
        ensures tables { IfOk result (λ t. (t.version ≡ 0) × (t.named ≡ named_of self)) }
        ensures stand { IfOk result AreTables }
    {
        let named = named_tables(alloc, self.tables)?;
        Ok(Tables { version: 0, named })
    }

    fn any_is_named(&self, name: &str) -> bool
        ensures { result ≡ list_any (λ table. has_name name.now (as_named table)) self.now }
    {
        self.tables.iter().any(|table| table.is_named(name))
    }

    /// Whether a table has the name.
    #[tactic(auto, using(crate::proofs::StandFacts::any_named))]
    fn has_table(&self, name: &str) -> bool
        ensures { result ≡ is_some (table_named name.now (named_of self.now)) }
    {
        self.any_is_named(name)
    }

    /// Adds a table without rows, where its name is new.
    fn add_table(&mut self, table: LinedTable) -> Result<bool, OutOfMemory>
        requires { table.rows ≡ [] }
        ensures taken { result ≡ Ok true → self.new ≡ self.old ++ table ∷ [] }
        ensures new_name { result ≡ Ok true → table_named table.name (named_of self.old) ≡ None }
        ensures kept { result ≡ Ok false → self.new ≡ self.old }
        ensures old_name { result ≡ Ok false → table_named table.name (named_of self.old) ≢ None }
        ensures err { OnErr result (self.new ≡ self.old) }
    {
        if self.has_table(table.name.as_str()) {
            return Ok(false);
        }
        self.tables.push(table)?;
        Ok(true)
    }

    /// The row that a line adds to the last table.
    fn row_for_last(&self, alloc: Global, line: &[u8]) -> Result<Option<Row>, OutOfMemory>
        ensures found { IfOk result (λ found. IfSome found (IsRowForLast self.now line.now)) }
        ensures none { IfOk result (λ found. IsNone found → (row : AnyRow) → ¬ IsRowForLast self.now line.now row) }
    {
        match self.tables.last() {
            Some(table) => {
                let found = row_of_line(alloc, &table.schema, line)?;
                Ok(found)
            }
            None => Ok(None),
        }
    }

    /// Adds a row to the last table.
    fn add_row(&mut self, row: Row) -> Result<(), OutOfMemory>
        requires { LastTakes self.old row }
        ensures ok { OnOk result (self.new ≡ with_last_row row self.old) }
        ensures err { OnErr result (self.new ≡ self.old) }
    {
        let last = self.tables.len() - 1;
        self.tables[last].rows.push(row)?;
        Ok(())
    }
}

/// The tables as they stand among tables.
fn named_tables(alloc: Global, tables: Vec<LinedTable>) -> Result<List<NamedTable>, OutOfMemory>
    ensures { IfOk result (λ named. named ≡ named_of tables.items) }
{
    let mut named = List::new(alloc);
    for table in tables {
        let LinedTable { name, schema, rows } = table;
        let rows = RowList::of(alloc, rows)?;
        named.push(NamedTable { name, schema, rows })?;
    }
    Ok(named)
}
