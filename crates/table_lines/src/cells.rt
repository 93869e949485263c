ghost use Rattle.std.specs.Prelude.{◌≡◌, ◌≢◌, List as AnyList, IfOk, IfSome, IsNone};
ghost use Rattle.cn_types.specs.declared.value.Value.{Value as AnyValue};
ghost use Rattle.cn_types.specs.declared.row.Row.{Row as AnyRow};
ghost use Rattle.table_lines.specs.Lines.{IsCell, AreCells, IsRowLine};

use crate::pieces::Pieces;
use cn_base::{List, OutOfMemory};
use cn_types::{DataType, Field, Row, Schema, Value, ValueFault, value_of_text};
use std::alloc::Global;

/// The value, null or of the type, that is printed so.
fn cell_of(alloc: Global, kind: DataType, piece: &[u8]) -> Result<Option<Value>, OutOfMemory>
    ensures found { IfOk result (λ found. IfSome found (IsCell kind piece.now)) }
    ensures none { IfOk result (λ found. IsNone found → (value : AnyValue) → ¬ IsCell kind piece.now value) }
{
    let Ok(text) = std::str::from_utf8(piece) else {
        return Ok(None);
    };
    match value_of_text(alloc, kind, text) {
        Ok(value) => Ok(Some(value)),
        Err(ValueFault::BadValue) => Ok(None),
        Err(ValueFault::OutOfMemory) => Err(OutOfMemory),
    }
}

/// The values of the pieces, one for each column.
fn cells_of(
    alloc: Global,
    fields: &[Field],
    pieces: &mut Pieces<'_>,
) -> Result<Option<List<Value>>, OutOfMemory>
    ensures found { IfOk result (λ found. IfSome found (AreCells fields.now pieces.old)) }
    ensures none { IfOk result (λ found. IsNone found → (values : AnyList AnyValue) → ¬ AreCells fields.now pieces.old values) }
{
    let mut values = List::new(alloc);
    for field in fields {
        let Some(piece) = pieces.next() else {
            return Ok(None);
        };
        match cell_of(alloc, field.kind, piece)? {
            Some(value) => values.push(value)?,
            None => return Ok(None),
        }
    }
    if pieces.next().is_some() {
        return Ok(None);
    }
    Ok(Some(values))
}

/// The row of a line of a table with this schema: `row `, and values with TABs between them, as they are printed.
pub fn row_of_line(alloc: Global, schema: &Schema, line: &[u8]) -> Result<Option<Row>, OutOfMemory>
    ensures found { IfOk result (λ found. IfSome found (IsRowLine schema.now line.now)) }
    ensures none { IfOk result (λ found. IsNone found → (row : AnyRow) → ¬ IsRowLine schema.now line.now row) }
{
    if line.len() < 4 || &line[..4] != b"row ".as_slice() {
        return Ok(None);
    }
    let mut pieces = Pieces::of(&line[4..], b'\t');
    match cells_of(alloc, schema.0.as_slice(), &mut pieces)? {
        Some(values) => Ok(Some(Row(values))),
        None => Ok(None),
    }
}
