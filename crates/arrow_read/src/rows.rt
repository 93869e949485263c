ghost use Rattle.std.specs.Prelude.{◌≡◌, ◌++◌, ◌+◌, ◌<◌, ◌-◌, ◌^◌, IfOk, OnOk};
ghost use Rattle.arrow_read.specs.Columns.{row_of as said_row, rows_of as said_rows};
ghost use Rattle.arrow_read.specs.Room.{row_texts, texts_size};

use crate::cells::cell;
use crate::column::Column;
use crate::room::{left, text_size};
use cn_base::{List, OutOfMemory};
use cn_types::Row;
use std::alloc::Global;

/// A row, its cell of each column, and what is left of the room for texts.
fn row_of(
    alloc: Global,
    columns: &[Column],
    row: usize,
    room: usize,
) -> Result<(Row, usize), OutOfMemory>
    requires { row < 2 ^ 64 - 1 }
    ensures row { IfOk result (λ made. made.0 ≡ said_row columns.now row) }
    ensures texts { IfOk result (λ made. made.1 + row_texts made.0 ≡ room) }
{
    let mut values = Vec::with_capacity(alloc, columns.len())?;
    let mut texts = room;
    for column in columns {
        let value = cell(alloc, column, row)?;
        texts = left(texts, text_size(&value))?;
        values.push(value)?;
    }
    Ok((Row(List::from_vec(values)), texts))
}

/// Adds so many rows of these columns. The result is what is left of the room for texts.
pub(crate) fn push_rows(
    alloc: Global,
    rows: &mut List<Row>,
    columns: &[Column],
    count: usize,
    room: usize,
) -> Result<usize, OutOfMemory>
    ensures rows { OnOk result (rows.new ≡ rows.old ++ said_rows columns.now count) }
    ensures texts { IfOk result (λ left. left + texts_size rows.new ≡ room + texts_size rows.old) }
{
    let mut texts = room;
    for row in 0..count {
        let (made, left) = row_of(alloc, columns, row, texts)?;
        rows.push(made)?;
        texts = left;
    }
    Ok(texts)
}
