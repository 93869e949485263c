ghost use Rattle.std.specs.Prelude.{◌≡◌, ◌+◌, ◌^◌, ◌<◌, ◌++◌, IfOk, OnOk, OnErr};
ghost use Rattle.table_store.specs.Applied.{applied, changed, created, nullable};
ghost use Rattle.table_store.specs.Standing.{AreTables};

use crate::{How, NamedTable, TableChange, Tables};
use cn_base::{Copied, List, OutOfMemory};
use cn_types::{Field, Row, RowList, Schema};
use std::alloc::Global;

impl Tables {
    /// Applies a change, or changes nothing.
    pub(crate) fn apply(&mut self, alloc: Global, change: TableChange) -> Result<(), OutOfMemory>
        requires version { self.old.version < 2 ^ 63 }
        requires tables { AreTables self.old }
        ensures ok { OnOk result (self.new ≡ applied change self.old) }
        ensures err { OnErr result (self.new ≡ self.old) }
    {
        match self.place_of(change.name.as_str()) {
            Some(at) => {
                let table = change_table(alloc, change, &self.named.as_slice()[at])?;
                self.named.set(at, table);
            }
            None => {
                let table = make_table(alloc, change)?;
                self.named.push(table)?;
            }
        }
        self.version += 1;
        Ok(())
    }
}

/// What the change makes of the table of its name.
fn change_table(
    alloc: Global,
    change: TableChange,
    table: &NamedTable,
) -> Result<NamedTable, OutOfMemory>
    ensures { IfOk result (λ t. t ≡ changed change.how change table.now) }
{
    match change.how {
        How::CreateOnly | How::CreateOrSkip => table.copy(alloc),
        How::Append | How::AppendOrCreate => {
            let rows = join_rows(alloc, &table.rows, &change.rows)?;
            with_rows(alloc, table, rows)
        }
        How::Replace => make_table(alloc, change),
        How::ReplaceRows => with_rows(alloc, table, change.rows.share()?),
    }
}

/// The table that the change makes.
fn make_table(alloc: Global, change: TableChange) -> Result<NamedTable, OutOfMemory>
    ensures { IfOk result (λ t. t ≡ created change) }
{
    let schema = make_nullable(alloc, &change.schema)?;
    Ok(NamedTable {
        name: change.name,
        schema,
        rows: change.rows,
    })
}

/// The same table with other rows.
fn with_rows(alloc: Global, table: &NamedTable, rows: RowList) -> Result<NamedTable, OutOfMemory>
    ensures { IfOk result (λ t. t ≡ record table.now { rows = rows }) }
{
    Ok(NamedTable {
        name: table.name.copy(alloc)?,
        schema: table.schema.copy(alloc)?,
        rows,
    })
}

fn make_nullable(alloc: Global, schema: &Schema) -> Result<Schema, OutOfMemory>
    ensures { IfOk result (λ s. s ≡ nullable schema.now) }
{
    let mut fields = List::new(alloc);
    for field in schema.0.as_slice() {
        fields.push(Field {
            name: field.name.copy(alloc)?,
            kind: field.kind,
            nullable: true,
        })?;
    }
    Ok(Schema(fields))
}

/// The rows of one list, and then those of another.
fn join_rows(alloc: Global, first: &RowList, second: &RowList) -> Result<RowList, OutOfMemory>
    ensures { IfOk result (λ rows. rows ≡ first.now ++ second.now) }
{
    let mut rows = copy_rows(alloc, first.as_slice())?;
    rows.append(copy_rows(alloc, second.as_slice())?)?;
    RowList::of(alloc, rows)
}

fn copy_rows(alloc: Global, rows: &[Row]) -> Result<List<Row>, OutOfMemory>
    ensures { IfOk result (λ copied. copied ≡ rows.now) }
{
    let mut copied = List::new(alloc);
    for row in rows {
        copied.push(row.copy(alloc)?)?;
    }
    Ok(copied)
}
