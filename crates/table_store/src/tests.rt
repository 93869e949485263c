ghost use Rattle.std.specs.Prelude.{◌≡◌, [], ◌∷◌, All, IfOk};
ghost use Rattle.cn_types.specs.Fit.{Fits, FitsTypes, HasType};
ghost use Rattle.table_store.specs.Standing.{AreTables};

use crate::*;
use cn_base::{Copied, List, OutOfMemory, Text};
use cn_types::{DataType, Field, Row, RowList, Schema, Value};
use std::alloc::{AllocError, Global};
use std::fmt::Write;
use std::process::Abort;
use std::test::Fail;

fn value(kind: DataType, number: i32) -> Value
    ensures { HasType kind result }
{
    match kind {
        DataType::Boolean => Value::Boolean(number != 0),
        DataType::Integer => Value::Integer(number),
        DataType::Long => Value::Long(i64::from(number)),
        DataType::Text | DataType::Date => Value::Null,
    }
}

fn row(alloc: Global, kind: DataType, number: i32) -> Result<Row, OutOfMemory>
    ensures { IfOk result (FitsTypes (kind ∷ [])) }
{
    let mut values = List::new(alloc);
    values.push(value(kind, number))?;
    Ok(Row(values))
}

fn rows(alloc: Global, kind: DataType, numbers: &[i32]) -> Result<RowList, OutOfMemory>
    ensures { IfOk result (All (FitsTypes (kind ∷ []))) }
{
    let mut rows = List::new(alloc);
    for number in numbers {
        rows.push(row(alloc, kind, *number)?)?;
    }
    RowList::of(alloc, rows)
}

fn change(
    alloc: Global,
    how: How,
    name: &str,
    column: &str,
    kind: DataType,
    numbers: &[i32],
) -> Result<TableChange, OutOfMemory>
    ensures { IfOk result (λ change. All (Fits change.schema) change.rows) }
{
    let rows = rows(alloc, kind, numbers)?;
    let mut fields = List::new(alloc);
    fields.push(Field {
        name: Text::of(alloc, column)?,
        kind,
        nullable: false,
    })?;
    Ok(TableChange {
        name: Text::of(alloc, name)?,
        how,
        schema: Schema(fields),
        rows,
    })
}

/// A table `t` with a column `k` of longs without nulls, and no rows.
fn empty_table(alloc: Global) -> Result<NamedTable, OutOfMemory>
    ensures { IfOk result (λ table. table.rows ≡ []) }
{
    let mut fields = List::new(alloc);
    fields.push(Field {
        name: Text::of(alloc, "k")?,
        kind: DataType::Long,
        nullable: false,
    })?;
    Ok(NamedTable {
        name: Text::of(alloc, "t")?,
        schema: Schema(fields),
        rows: RowList::of(alloc, List::new(alloc))?,
    })
}

/// The one table, under version 0.
fn one_table(alloc: Global, table: NamedTable) -> Result<Tables, OutOfMemory>
    requires { table.rows ≡ [] }
    ensures { IfOk result AreTables }
{
    let mut named = List::new(alloc);
    named.push(table)?;
    Ok(Tables { version: 0, named })
}

/// The version, and each table's name, columns (with a `?` where they may have nulls) and rows.
fn told(alloc: Global, tables: &Tables) -> Result<String, AllocError> {
    let version = tables.version;
    let mut out = format!(in alloc; "{version}")?;
    for table in tables.named.as_slice() {
        out.push(' ')?;
        out.push_str(table.name.as_str())?;
        for field in table.schema.0.as_slice() {
            out.push(' ')?;
            out.push_str(field.name.as_str())?;
            let kind = field.kind;
            write!(out, ":{kind:?}")?;
            out.push_str(if field.nullable { "?" } else { "" })?;
        }
        for row in table.rows.as_slice() {
            for value in row.0.as_slice() {
                match value {
                    Value::Boolean(value) => write!(out, " {value}")?,
                    Value::Integer(value) => write!(out, " {value}")?,
                    Value::Long(value) => write!(out, " {value}")?,
                    _ => out.push_str(" -")?,
                }
            }
        }
    }
    Ok(out)
}

fn answer_text(alloc: Global, answer: Result<Commit, CommitRefusal>) -> Result<String, AllocError> {
    match answer {
        Ok(commit) => {
            let Commit { version, applied } = commit;
            format!(in alloc; "{version} {applied}")
        }
        Err(refusal) => format!(in alloc; "{refusal:?}"),
    }
}

/// Commits a change, and compares the answer and the tables after it.
fn commit<K: Keeper>(
    rt: &impl Abort,
    alloc: Global,
    keeper: &mut K,
    change: TableChange,
    answer: &str,
    tables: &str,
) -> Result<(), AllocError>
    requires tables { AreTables (K.kept keeper.old) }
    requires rows { All (Fits change.schema) change.rows }
    ensures { AreTables (K.kept keeper.new) }
{
    let before = keeper.snapshot(alloc)?;
    assert!(rt; before.version < 1000);
    let given = keeper.commit(alloc, change);
    assert_eq!(rt; answer_text(alloc, given)?.as_str(), answer);
    assert_eq!(rt; told(alloc, &keeper.snapshot(alloc)?)?.as_str(), tables);
    Ok(())
}

/// What is done, the table's name, the column's name and type, the rows' numbers; the answer, and the tables after it.
type Call = (
    How,
    &'static str,
    &'static str,
    DataType,
    &'static [i32],
    &'static str,
    &'static str,
);

fn commit_all<K: Keeper>(
    rt: &impl Abort,
    alloc: Global,
    keeper: &mut K,
    calls: &[Call],
) -> Result<(), AllocError>
    requires { AreTables (K.kept keeper.old) }
    ensures { AreTables (K.kept keeper.new) }
{
    for (how, name, column, kind, numbers, answer, tables) in calls {
        let change = change(alloc, *how, name, column, *kind, numbers)?.copy(alloc)?;
        commit(rt, alloc, keeper, change, answer, tables)?;
    }
    Ok(())
}

static CALLS: [Call; 22] = [
    (
        How::Append,
        "t",
        "k",
        DataType::Long,
        &[7],
        "1 true",
        "1 t k:Long 7",
    ),
    (
        How::CreateOrSkip,
        "t",
        "k",
        DataType::Long,
        &[8],
        "1 false",
        "1 t k:Long 7",
    ),
    (
        How::CreateOnly,
        "T",
        "k",
        DataType::Long,
        &[8],
        "AlreadyExists",
        "1 t k:Long 7",
    ),
    (
        How::ReplaceRows,
        "u",
        "k",
        DataType::Long,
        &[8],
        "NotFound",
        "1 t k:Long 7",
    ),
    (
        How::Append,
        "t",
        "k",
        DataType::Integer,
        &[8],
        "SchemaMismatch",
        "1 t k:Long 7",
    ),
    (
        How::Replace,
        "t",
        "k",
        DataType::Integer,
        &[8],
        "2 true",
        "2 t k:Integer? 8",
    ),
    (
        How::Append,
        "T",
        "other",
        DataType::Integer,
        &[9],
        "3 true",
        "3 t k:Integer? 8 9",
    ),
    (
        How::Append,
        "t",
        "k",
        DataType::Integer,
        &[],
        "4 true",
        "4 t k:Integer? 8 9",
    ),
    (
        How::CreateOnly,
        "u",
        "k",
        DataType::Long,
        &[],
        "5 true",
        "5 t k:Integer? 8 9 u k:Long?",
    ),
    (
        How::ReplaceRows,
        "U",
        "k",
        DataType::Long,
        &[5, 6],
        "6 true",
        "6 t k:Integer? 8 9 u k:Long? 5 6",
    ),
    (
        How::ReplaceRows,
        "u",
        "k",
        DataType::Integer,
        &[],
        "SchemaMismatch",
        "6 t k:Integer? 8 9 u k:Long? 5 6",
    ),
    (
        How::AppendOrCreate,
        "v",
        "b",
        DataType::Boolean,
        &[1],
        "7 true",
        "7 t k:Integer? 8 9 u k:Long? 5 6 v b:Boolean? true",
    ),
    (
        How::AppendOrCreate,
        "V",
        "b",
        DataType::Boolean,
        &[0],
        "8 true",
        "8 t k:Integer? 8 9 u k:Long? 5 6 v b:Boolean? true false",
    ),
    (
        How::AppendOrCreate,
        "v",
        "b",
        DataType::Long,
        &[0],
        "SchemaMismatch",
        "8 t k:Integer? 8 9 u k:Long? 5 6 v b:Boolean? true false",
    ),
    (
        How::Replace,
        "T",
        "c",
        DataType::Long,
        &[],
        "9 true",
        "9 T c:Long? u k:Long? 5 6 v b:Boolean? true false",
    ),
    (
        How::ReplaceRows,
        "u",
        "k",
        DataType::Long,
        &[],
        "10 true",
        "10 T c:Long? u k:Long? v b:Boolean? true false",
    ),
    (
        How::Append,
        "w",
        "k",
        DataType::Long,
        &[1],
        "NotFound",
        "10 T c:Long? u k:Long? v b:Boolean? true false",
    ),
    (
        How::CreateOrSkip,
        "w",
        "k",
        DataType::Long,
        &[1],
        "11 true",
        "11 T c:Long? u k:Long? v b:Boolean? true false w k:Long? 1",
    ),
    (
        How::CreateOrSkip,
        "W",
        "b",
        DataType::Boolean,
        &[],
        "11 false",
        "11 T c:Long? u k:Long? v b:Boolean? true false w k:Long? 1",
    ),
    (
        How::Replace,
        "x",
        "k",
        DataType::Integer,
        &[2],
        "12 true",
        "12 T c:Long? u k:Long? v b:Boolean? true false w k:Long? 1 x k:Integer? 2",
    ),
    (
        How::ReplaceRows,
        "v",
        "b",
        DataType::Boolean,
        &[],
        "13 true",
        "13 T c:Long? u k:Long? v b:Boolean? w k:Long? 1 x k:Integer? 2",
    ),
    (
        How::CreateOnly,
        "X",
        "k",
        DataType::Integer,
        &[],
        "AlreadyExists",
        "13 T c:Long? u k:Long? v b:Boolean? w k:Long? 1 x k:Integer? 2",
    ),
];

#[test]
fn changes_are_applied_skipped_or_refused(rt: HostRuntime) -> Result<(), Fail> {
    let alloc = rt.alloc();
    let opening = one_table(alloc, empty_table(alloc)?)?;
    let mut memory = MemoryKeeper::new(opening.copy(alloc)?, List::new(alloc));
    let mut steady = SteadyKeeper::new(opening);
    commit_all(&rt, alloc, &mut memory, &CALLS)?;
    commit_all(&rt, alloc, &mut steady, &CALLS)?;
    Ok(())
}

// The store fails at the calls 1, 3 and 4, but isn't called at the third, which the rule refuses.
static FAILING_CALLS: [Call; 6] = [
    (
        How::Append,
        "t",
        "k",
        DataType::Long,
        &[5],
        "StoreFault",
        "0 t k:Long",
    ),
    (
        How::Append,
        "t",
        "k",
        DataType::Long,
        &[5],
        "1 true",
        "1 t k:Long 5",
    ),
    (
        How::Append,
        "u",
        "k",
        DataType::Long,
        &[5],
        "NotFound",
        "1 t k:Long 5",
    ),
    (
        How::Append,
        "t",
        "k",
        DataType::Long,
        &[5],
        "StoreFault",
        "1 t k:Long 5",
    ),
    (
        How::CreateOrSkip,
        "t",
        "k",
        DataType::Long,
        &[5],
        "1 false",
        "1 t k:Long 5",
    ),
    (
        How::Append,
        "t",
        "k",
        DataType::Long,
        &[5],
        "2 true",
        "2 t k:Long 5 5",
    ),
];

#[test]
fn a_failing_store_changes_nothing(rt: HostRuntime) -> Result<(), Fail> {
    let alloc = rt.alloc();
    let opening = one_table(alloc, empty_table(alloc)?)?;
    let mut failing = List::new(alloc);
    failing.push(1)?;
    failing.push(3)?;
    failing.push(4)?;
    let mut keeper = MemoryKeeper::new(opening, failing);
    commit_all(&rt, alloc, &mut keeper, &FAILING_CALLS)?;
    let columns = TableChange {
        name: Text::of(alloc, "t")?,
        how: How::Append,
        schema: Schema(List::new(alloc)),
        rows: RowList::of(alloc, List::new(alloc))?,
    };
    commit(
        &rt,
        alloc,
        &mut keeper,
        columns,
        "SchemaMismatch",
        "2 t k:Long 5 5",
    )?;
    Ok(())
}

static LOOK_UPS: [(&str, bool); 8] = [
    ("oRDERS", true),
    ("été", true),
    ("Été", false),
    ("ÉTÉ", false),
    ("éTé", true),
    ("LOG2", true),
    ("t", false),
    ("", false),
];

#[test]
fn a_table_is_found_by_its_folded_name(rt: HostRuntime) -> Result<(), Fail> {
    let alloc = rt.alloc();
    let mut named = List::new(alloc);
    for name in ["Orders", "été", "log2"] {
        let mut table = empty_table(alloc)?.copy(alloc)?;
        table.name = Text::of(alloc, name)?;
        table.rows = rows(alloc, DataType::Long, &[1])?;
        named.push(table)?;
    }
    let tables = Tables { version: 3, named };
    for (name, found) in &LOOK_UPS {
        assert_eq!(rt; tables.get(name).is_some(), *found, "{name:?}");
    }
    let Some((schema, rows)) = tables.get("orders") else {
        return Err(Fail::from(AllocError));
    };
    assert_eq!(rt; schema.0.len(), 1);
    assert_eq!(rt; rows.as_slice().len(), 1);
    assert_eq!(rt;
        told(alloc, &tables.copy(alloc)?)?.as_str(),
        "3 Orders k:Long 1 été k:Long 1 log2 k:Long 1"
    );
    let done = Commit {
        version: 4,
        applied: true,
    };
    assert_eq!(rt; done.copy(alloc)?, done);
    assert_eq!(rt; How::Append.copy(alloc)?, How::Append);
    Ok(())
}
