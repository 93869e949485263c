ghost use Rattle.std.specs.Prelude.{◌≡◌, ◌++◌, IfOk, OnOk};
ghost use Rattle.cn_types.specs.Printed.{row_line};
ghost use Rattle.connect_replay.specs.Range.{row_of};
ghost use Rattle.connect_replay.specs.Section.{range_schema, section};

use crate::ask::Ask;
use crate::range::number_row;
use cn_base::{List, OutOfMemory, Text};
use cn_types::{DataType, Field, Schema, header_text, row_text};
use std::alloc::Global;

/// The columns of a range: `id`, of longs, never null.
fn schema_of_range(alloc: Global) -> Result<Schema, OutOfMemory>
    ensures { IfOk result (λ s. s ≡ range_schema) }
{
    let mut fields = List::new(alloc);
    fields.push(Field {
        name: Text::of(alloc, "id")?,
        kind: DataType::Long,
        nullable: false,
    })?;
    Ok(Schema(fields))
}

/// The section that a completed ask prints.
pub fn section_text(alloc: Global, ask: &Ask, numbers: &[i64]) -> Result<Text, OutOfMemory>
    ensures { IfOk result (λ t. t ≡ section ask.now numbers.now) }
{
    let mut text = Text::of(alloc, "ask ")?;
    text.append(ask.name.as_str())?;
    text.append("\n")?;
    text.append(header_text(alloc, &schema_of_range(alloc)?)?.as_str())?;
    for number in numbers {
        append_row(alloc, &mut text, *number)?;
    }
    text.append("complete\nrecords 1\n")?;
    Ok(text)
}

/// Adds the line of a number's row.
fn append_row(alloc: Global, text: &mut Text, number: i64) -> Result<(), OutOfMemory>
    ensures { OnOk result (text.new ≡ text.old ++ row_line (row_of number)) }
{
    let row = number_row(alloc, number)?;
    text.append(row_text(alloc, &row)?.as_str())
}
