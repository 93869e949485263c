ghost use Rattle.std.specs.Prelude.{◌≡◌, ◌-◌, ◌^◌, IfOk, min};

use crate::Value;
use cn_base::{Copied, List, OutOfMemory};
use std::alloc::Global;
use std::marker::Model;
use std::sync::Arc;

/// The values of a row, one for each column.
#[derive(Debug, Drop)]
pub struct Row(pub List<Value>);

impl Row {
    ghost use Rattle.cn_types.specs.Weight.{row_weight};

    /// What the row weighs: 8 for a long, 4 for an integer or a date, 1 for a boolean or null, 4 and its bytes for a text; 2^64 - 1
    /// where the sum is above that. It takes no memory.
    pub fn weight(&self) -> u64
        ensures { result ≡ row_weight self.now }
    {
        let mut sum = 0u64;
        for value in self.0.as_slice() {
            sum = sum.saturating_add(value_weight(value));
        }
        sum
    }
}

ghost use Rattle.cn_types.specs.Weight.{weight_of};

fn value_weight(value: &Value) -> u64
    ensures { result ≡ min (weight_of value.now) (2 ^ 64 - 1) }
{
    match value {
        Value::Null => 1,
        Value::Boolean(_) => 1,
        Value::Integer(_) => 4,
        Value::Long(_) => 8,
        Value::Text(text) => (text.as_str().len() as u64).saturating_add(4),
        Value::Date(_) => 4,
    }
}

impl Copied for Row {
    fn copy(&self, alloc: Global) -> Result<Row, OutOfMemory> {
        Ok(Row(self.0.copy(alloc)?))
    }
}

/// Rows that several owners share. Contracts see the list of the rows.
#[derive(Debug, Drop)]
pub struct RowList {
    rows: Arc<List<Row>>,
}

impl Model for RowList {
    ghost use Rattle.std.specs.Prelude.{List};
    ghost use Rattle.std.specs.Arc.{arc_value};
    ghost use Rattle.cn_types.specs.declared.row.Row.{Row};

    ghost Value = { List Row };

    ghost view = { λ r. arc_value r.rows };
}

impl RowList {
    /// Takes over these rows.
    pub fn of(alloc: Global, rows: List<Row>) -> Result<RowList, OutOfMemory>
        ensures { IfOk result (λ r. r ≡ rows) }
    {
        Ok(RowList {
            rows: Arc::new(alloc, rows)?,
        })
    }

    /// Lends the rows.
    pub fn as_slice(&self) -> &[Row]
        ensures { result.now ≡ self.now }
    {
        self.rows.as_slice()
    }

    /// Another owner of the same rows, which copies none. It takes no memory; it is refused where the count of owners is full.
    pub fn share(&self) -> Result<RowList, OutOfMemory>
        ensures { IfOk result (λ r. r ≡ self.now) }
    {
        let rows = Arc::try_clone(&self.rows)?;
        Ok(RowList { rows })
    }
}

impl Copied for RowList {
    /// Shares the rows, and copies none.
    fn copy(&self, _alloc: Global) -> Result<RowList, OutOfMemory> {
        self.share()
    }
}
