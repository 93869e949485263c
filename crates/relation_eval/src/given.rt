ghost use Rattle.std.specs.Prelude.{◌≡◌, IfOk, is_ok};
ghost use Rattle.relation_eval.specs.Given.{rows_of, outcome_of};

use cn_base::{Copied, List, OutOfMemory};
use cn_types::{Row, RowList};
use std::alloc::Global;

/// Rows that other owners may share, or that are owned.
#[derive(Debug, Drop)]
pub enum HeldRows {
    Shared(RowList),
    Owned(Vec<Row>),
}

/// What a relation gives: rows, or the limit that they exceed.
#[derive(Debug, Drop)]
pub enum Given {
    Rows(HeldRows),
    /// There are more than 4,194,304 rows.
    TooManyRows,
    /// A row weighs more than 8 MiB.
    RowTooLarge,
}

impl HeldRows {
    /// Lends the rows.
    pub fn as_slice(&self) -> &[Row]
        ensures { result.now ≡ rows_of self.now }
    {
        match self {
            HeldRows::Shared(rows) => rows.as_slice(),
            HeldRows::Owned(rows) => rows.as_slice(),
        }
    }

    /// The rows, which are copied where they are shared.
    pub fn into_rows(self, alloc: Global) -> Result<Vec<Row>, OutOfMemory>
        ensures { IfOk result (λ v. v.items ≡ rows_of self) }
    {
        match self {
            HeldRows::Shared(rows) => copied_rows(alloc, rows.as_slice()),
            HeldRows::Owned(rows) => Ok(rows),
        }
    }

    /// The rows for several owners; none is copied.
    pub fn into_shared(self, alloc: Global) -> Result<RowList, OutOfMemory>
        ensures { IfOk result (λ r. r ≡ rows_of self) }
    {
        match self {
            HeldRows::Shared(rows) => Ok(rows),
            HeldRows::Owned(rows) => RowList::of(alloc, List::from_vec(rows)),
        }
    }
}

impl Given {
    /// Whether there are rows, and no limit is exceeded.
    pub(crate) fn has_rows(&self) -> bool
        ensures { result ≡ is_ok (outcome_of self.now) }
    {
        match self {
            Given::Rows(_) => true,
            Given::TooManyRows => false,
            Given::RowTooLarge => false,
        }
    }
}

/// A copy of each row, in order.
pub(crate) fn copied_rows(alloc: Global, rows: &[Row]) -> Result<Vec<Row>, OutOfMemory>
    ensures { IfOk result (λ v. v.items ≡ rows.now) }
{
    let mut copied = Vec::new(alloc);
    for row in rows {
        copied.push(row.copy(alloc)?)?;
    }
    Ok(copied)
}
