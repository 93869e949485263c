ghost use Rattle.std.specs.Prelude.{◌≡◌, ◌-◌, ◌^◌, ◌↔◌, length, min, sum_by, IsTrue};
ghost use Rattle.std.specs.List.{All};
ghost use Rattle.cn_types.specs.Fit.{HasType, Fits};
ghost use Rattle.arrow_ipc.specs.Columns.{text_size};
ghost use Rattle.arrow_ipc.specs.Stream.{names_and_texts, CanBeWritten};

use cn_types::{DataType, Field, Row, Schema, Value};

/// The first and the last day of a date: 0001-01-01 and 9999-12-31, counted from 1970-01-01.
const FIRST_DAY: i32 = -719162;

const LAST_DAY: i32 = 2932896;

/// Whether a schema and rows can be written: each row fits the schema, which has at most 1,048,576 fields, and its names and the rows'
/// texts have together at most 2^30 bytes. It takes no memory.
pub fn can_be_written(schema: &Schema, rows: &[Row]) -> bool
    ensures { IsTrue result ↔ CanBeWritten schema.now rows.now }
{
    schema.0.len() <= 1_048_576 && size_of_texts(schema, rows) <= 1 << 30 && all_fit(schema, rows)
}

fn all_fit(schema: &Schema, rows: &[Row]) -> bool
    ensures { IsTrue result ↔ All (Fits schema.now) rows.now }
{
    for row in rows {
        if !fits(schema, row) {
            return false;
        }
    }
    true
}

/// Whether a row has a value of each column's type.
fn fits(schema: &Schema, row: &Row) -> bool
    ensures { IsTrue result ↔ Fits schema.now row.now }
{
    let fields = schema.0.as_slice();
    let values = row.0.as_slice();
    if fields.len() != values.len() {
        return false;
    }
    for (place, field) in fields.iter().enumerate() {
        if !has_type(field.kind, &values[place]) {
            return false;
        }
    }
    true
}

/// Whether a value is null or of a type, with its date in range.
fn has_type(kind: DataType, value: &Value) -> bool
    ensures { IsTrue result ↔ HasType kind value.now }
{
    match value {
        Value::Null => true,
        Value::Boolean(_) => match kind {
            DataType::Boolean => true,
            DataType::Integer => false,
            DataType::Long => false,
            DataType::Text => false,
            DataType::Date => false,
        },
        Value::Integer(_) => match kind {
            DataType::Boolean => false,
            DataType::Integer => true,
            DataType::Long => false,
            DataType::Text => false,
            DataType::Date => false,
        },
        Value::Long(_) => match kind {
            DataType::Boolean => false,
            DataType::Integer => false,
            DataType::Long => true,
            DataType::Text => false,
            DataType::Date => false,
        },
        Value::Text(_) => match kind {
            DataType::Boolean => false,
            DataType::Integer => false,
            DataType::Long => false,
            DataType::Text => true,
            DataType::Date => false,
        },
        Value::Date(days) => match kind {
            DataType::Boolean => false,
            DataType::Integer => false,
            DataType::Long => false,
            DataType::Text => false,
            DataType::Date => FIRST_DAY <= *days && *days <= LAST_DAY,
        },
    }
}

/// The bytes of all names and texts, or 2^64 - 1 where there are more.
fn size_of_texts(schema: &Schema, rows: &[Row]) -> u64
    ensures { result ≡ min (names_and_texts schema.now rows.now) (2 ^ 64 - 1) }
{
    let mut size = size_of_names(schema.0.as_slice());
    for row in rows {
        size = size.saturating_add(size_of_row(row.0.as_slice()));
    }
    size
}

fn size_of_names(fields: &[Field]) -> u64
    ensures { result ≡ min (sum_by (λ field. length field.name) fields.now) (2 ^ 64 - 1) }
{
    let mut size = 0u64;
    for field in fields {
        size = size.saturating_add(field.name.as_str().len() as u64);
    }
    size
}

fn size_of_row(values: &[Value]) -> u64
    ensures { result ≡ min (sum_by text_size values.now) (2 ^ 64 - 1) }
{
    let mut size = 0u64;
    for value in values {
        size = size.saturating_add(size_of_text(value));
    }
    size
}

fn size_of_text(value: &Value) -> u64
    ensures { result ≡ min (text_size value.now) (2 ^ 64 - 1) }
{
    match value {
        Value::Text(text) => text.as_str().len() as u64,
        _ => 0,
    }
}
