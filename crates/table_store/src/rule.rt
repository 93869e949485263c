ghost use Rattle.std.specs.Prelude.{◌≡◌};
ghost use Rattle.std.specs.Option.{option_copied};
ghost use Rattle.table_store.specs.Rule.{same_type, same_types, ruling, ruling_on, where_types_match};

use crate::{How, NamedTable, TableChange, Tables};
use cn_types::{DataType, Schema};

/// What the commit rule makes of a change.
#[derive(Clone, Copy, Debug, PartialEq, Eq)]
pub(crate) enum Ruling {
    /// The change is to be applied.
    Applies,
    /// There is nothing to do.
    Skips,
    /// The table is there, and the change only creates.
    Exists,
    /// The change needs a table, and there is none.
    Missing,
    /// The table has another number or other types of columns.
    Mismatched,
}

impl Tables {
    /// What the commit rule makes of a change.
    pub(crate) fn rule(&self, change: &TableChange) -> Ruling
        ensures { result ≡ ruling change.now self.now }
    {
        rule_on(
            change.how,
            self.table_named(change.name.as_str()),
            &change.schema,
        )
    }
}

fn rule_on(how: How, table: Option<&NamedTable>, schema: &Schema) -> Ruling
    ensures { result ≡ ruling_on how (option_copied table.entry) schema.now }
{
    match (how, table) {
        (How::CreateOnly, None) => Ruling::Applies,
        (How::CreateOnly, Some(_)) => Ruling::Exists,
        (How::CreateOrSkip, None) => Ruling::Applies,
        (How::CreateOrSkip, Some(_)) => Ruling::Skips,
        (How::Append, None) => Ruling::Missing,
        (How::Append, Some(table)) => rule_on_columns(&table.schema, schema),
        (How::AppendOrCreate, None) => Ruling::Applies,
        (How::AppendOrCreate, Some(table)) => rule_on_columns(&table.schema, schema),
        (How::Replace, _) => Ruling::Applies,
        (How::ReplaceRows, None) => Ruling::Missing,
        (How::ReplaceRows, Some(table)) => rule_on_columns(&table.schema, schema),
    }
}

fn rule_on_columns(old: &Schema, new: &Schema) -> Ruling
    ensures { result ≡ where_types_match old.now new.now }
{
    if have_same_types(old, new) {
        Ruling::Applies
    } else {
        Ruling::Mismatched
    }
}

/// Whether two schemas have the same number and the same types of columns, by position.
fn have_same_types(old: &Schema, new: &Schema) -> bool
    ensures { result ≡ same_types old.now new.now }
{
    let old_columns = old.0.as_slice();
    let new_columns = new.0.as_slice();
    if old_columns.len() != new_columns.len() {
        return false;
    }
    for (at, column) in old_columns.iter().enumerate() {
        if !is_same_type(column.kind, new_columns[at].kind) {
            return false;
        }
    }
    true
}

fn is_same_type(old: DataType, new: DataType) -> bool
    ensures { result ≡ same_type old new }
{
    old == new
}
