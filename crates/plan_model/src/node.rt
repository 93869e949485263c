ghost use Rattle.std.specs.Prelude.{◌≡◌, IfOk};

use crate::copies::copy_node;
use crate::{Function, TypedExpr};
use cn_base::{Boxed, Copied, List, OutOfMemory};
use cn_types::{RowList, Schema};
use std::alloc::Global;

/// Which pairs of rows, and which rows without a match, a join gives.
#[derive(Clone, Copy, Debug, PartialEq, Eq)]
pub enum JoinKind {
    Inner,
    Full,
    Left,
    Right,
    Anti,
    Semi,
    Cross,
}

/// How a set operation combines its two inputs.
#[derive(Clone, Copy, Debug, PartialEq, Eq)]
pub enum SetKind {
    Union,
    Intersect,
    Except,
}

/// A call of an aggregate function: of the argument's values, or of the rows where there is no argument, as in `count(*)`.
#[derive(Debug, Drop)]
pub struct AggregateCall {
    pub function: Function,
    pub argument: Option<TypedExpr>,
    /// Whether equal values count once.
    pub distinct: bool,
}

/// One key of a sort.
#[derive(Debug, Drop)]
pub struct SortKey {
    pub expr: TypedExpr,
    pub descending: bool,
    pub nulls_last: bool,
}

/// A relation whose columns and types are known. Expressions name the columns of their input by place, counted from 0.
#[derive(Debug, Drop)]
pub enum Node {
    /// The rows of a table, or rows that came with the plan.
    Rows {
        schema: Schema,
        rows: RowList,
    },
    /// The longs from `start` by `step` before `end`.
    Range {
        start: i64,
        end: i64,
        step: i64,
    },
    /// For each row of the input the items' values.
    Project {
        input: Boxed<Node>,
        items: List<TypedExpr>,
    },
    /// The rows of the input whose condition is true.
    Filter {
        input: Boxed<Node>,
        condition: TypedExpr,
    },
    /// The rows of two inputs side by side. Without a condition each pair matches.
    Join {
        left: Boxed<Node>,
        right: Boxed<Node>,
        kind: JoinKind,
        condition: Option<TypedExpr>,
    },
    /// The rows of two inputs as multisets with `all`, else as sets.
    SetOp {
        left: Boxed<Node>,
        right: Boxed<Node>,
        kind: SetKind,
        all: bool,
    },
    /// One row for each different value of the keys. The items name the keys' values first, then the calls' values.
    Aggregate {
        input: Boxed<Node>,
        keys: List<TypedExpr>,
        calls: List<AggregateCall>,
        items: List<TypedExpr>,
    },
    /// One row of the input for each different value of the columns.
    DistinctOn {
        input: Boxed<Node>,
        columns: List<u32>,
    },
    /// The rows of the input in the order of the keys.
    Sort {
        input: Boxed<Node>,
        keys: List<SortKey>,
    },
    /// The rows of the input without the first `skip`, and of the rest the first `take`.
    Slice {
        input: Boxed<Node>,
        skip: u32,
        take: Option<u32>,
    },
}

impl Copied for JoinKind {
    fn copy(&self, _alloc: Global) -> Result<JoinKind, OutOfMemory> {
        Ok(*self)
    }
}

impl Copied for SetKind {
    fn copy(&self, _alloc: Global) -> Result<SetKind, OutOfMemory> {
        Ok(*self)
    }
}

impl Copied for AggregateCall {
    fn copy(&self, alloc: Global) -> Result<AggregateCall, OutOfMemory> {
        Ok(AggregateCall {
            function: self.function,
            argument: self.argument.copy(alloc)?,
            distinct: self.distinct,
        })
    }
}

impl Copied for SortKey {
    fn copy(&self, alloc: Global) -> Result<SortKey, OutOfMemory> {
        Ok(SortKey {
            expr: self.expr.copy(alloc)?,
            descending: self.descending,
            nulls_last: self.nulls_last,
        })
    }
}

impl Copied for Node {
    fn copy(&self, alloc: Global) -> Result<Node, OutOfMemory> {
        copy_node(alloc, self)
    }
}
