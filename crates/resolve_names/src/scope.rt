ghost use Rattle.std.specs.Prelude.{◌≡◌, IfOk};

use cn_base::{Copied, List, OutOfMemory, Text};
use cn_types::DataType;
use std::alloc::Global;
use std::marker::Model;
use std::sync::Arc;

/// A column that names can mean. Columns are told apart by their ids, of the type `I`.
#[derive(Debug, Drop)]
pub struct ColumnOf<I> {
    /// The parts before the name; none where the column has no qualifier.
    pub qualifier: List<Text>,
    pub name: Text,
    pub id: I,
    pub kind: DataType,
    pub nullable: bool,
}

/// A column whose id is a number.
pub type ScopeColumn = ColumnOf<u64>;

/// The columns that the names of an expression can mean, from the left.
#[derive(Debug, Drop)]
pub struct Scope(pub List<ScopeColumn>);

/// Columns that several owners share. Contracts see the list of the columns.
#[derive(Debug, Drop)]
pub struct ColumnList<I> {
    columns: Arc<List<ColumnOf<I>>>,
}

impl<I> Model for ColumnList<I> {
    ghost use Rattle.std.specs.Prelude.{List};
    ghost use Rattle.std.specs.Arc.{arc_value};
    ghost use Rattle.resolve_names.specs.declared.scope.ColumnOf.{ColumnOf};

    ghost Value = { List (ColumnOf I) };

    ghost view = { λ c. arc_value c.columns };
}

impl<I: Drop> ColumnList<I> {
    /// Takes over these columns.
    pub fn of(alloc: Global, columns: List<ColumnOf<I>>) -> Result<ColumnList<I>, OutOfMemory>
        ensures { IfOk result (λ c. c ≡ columns) }
    {
        Ok(ColumnList {
            columns: Arc::new(alloc, columns)?,
        })
    }

    /// Lends the columns.
    pub fn as_slice(&self) -> &[ColumnOf<I>]
        ensures { result.now ≡ self.now }
    {
        self.columns.as_slice()
    }

    /// Another owner of the same columns, which copies none. It takes no memory; it is refused where the count of owners is full.
    pub fn share(&self) -> Result<ColumnList<I>, OutOfMemory>
        ensures { IfOk result (λ c. c ≡ self.now) }
    {
        let columns = Arc::try_clone(&self.columns)?;
        Ok(ColumnList { columns })
    }
}

/// A relation with a plan id, and its columns.
#[derive(Debug, Drop)]
pub struct Tagged<I> {
    pub plan_id: i64,
    pub columns: ColumnList<I>,
}

impl<I: Copied + Drop> Copied for ColumnOf<I> {
    fn copy(&self, alloc: Global) -> Result<ColumnOf<I>, OutOfMemory> {
        Ok(ColumnOf {
            qualifier: self.qualifier.copy(alloc)?,
            name: self.name.copy(alloc)?,
            id: self.id.copy(alloc)?,
            kind: self.kind,
            nullable: self.nullable,
        })
    }
}
