ghost use Rattle.std.specs.Prelude.{◌≡◌};
ghost use Rattle.plan_text.specs.Drafts as drafts;

use crate::pile::Pile;
use cn_base::{List, Text};
use cn_types::{DataType, Field, Row, Value};
use plan_messages::{Alias, Expr, Relation, RenameEntry, SortOrder};
use std::alloc::Global;

/// A write that a text asks for.
#[derive(Debug, Drop)]
pub struct Write {
    /// The table, in the form of an identifier.
    pub table: Text,
    /// 1 save as table, 2 insert into.
    pub method: i32,
    /// The mode's number.
    pub mode: i32,
}

/// What has been read of a text.
#[derive(Debug, Drop)]
pub struct Draft {
    pub relations: Pile<Relation>,
    pub expressions: Pile<Expr>,
    /// The expressions before the arguments of each open call.
    pub outer: Pile<List<Expr>>,
    pub keys: List<Expr>,
    pub aliases: List<Alias>,
    pub orders: List<SortOrder>,
    pub renames: List<RenameEntry>,
    pub names: Pile<Text>,
    pub numbers: Pile<i64>,
    pub choices: Pile<i32>,
    pub kinds: Pile<DataType>,
    pub columns: List<Field>,
    pub row: List<Value>,
    pub rows: List<Row>,
    pub write: Option<Write>,
}

impl Draft {
    /// Nothing. It takes no memory.
    pub fn new(alloc: Global) -> Draft
        ensures { result ≡ drafts.no_draft }
    {
        Draft {
            relations: Pile::new(alloc),
            expressions: Pile::new(alloc),
            outer: Pile::new(alloc),
            keys: List::new(alloc),
            aliases: List::new(alloc),
            orders: List::new(alloc),
            renames: List::new(alloc),
            names: Pile::new(alloc),
            numbers: Pile::new(alloc),
            choices: Pile::new(alloc),
            kinds: Pile::new(alloc),
            columns: List::new(alloc),
            row: List::new(alloc),
            rows: List::new(alloc),
            write: None,
        }
    }
}
