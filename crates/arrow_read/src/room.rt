ghost use Rattle.std.specs.Prelude.{◌≡◌, ◌+◌, ◌*◌, ◌<◌, ◌≤◌, [], length, IfOk, OnOk, OnErr};
ghost use Rattle.arrow_ipc.specs.Columns.{text_size as said_text_size};
ghost use Rattle.arrow_read.specs.Room.{names_size, width, most_cells, most_texts};

use cn_base::OutOfMemory;
use cn_types::{Schema, Value};

/// How many cells may be made of any stream, and how many rows of one without columns: nothing among its bytes stands for them.
const MOST_CELLS: usize = 4_194_305;

/// How many bytes of names and texts may be made of any stream.
const MOST_TEXTS: usize = 67_108_864;

/// What may still be made of a stream: cells, and bytes of texts. Where no two names and no two buffers share bytes, each cell has a bit of
/// its own among the stream's bytes, and each byte of a name or a text is one of them; so room is wanting only where they share some.
#[derive(Clone, Copy, Debug)]
pub(crate) struct Room {
    pub(crate) cells: usize,
    pub(crate) texts: usize,
}

/// How many bytes of names and texts may be made of these bytes.
#[tactic(auto, unfolding(crate::specs::Room::most_texts))]
pub(crate) fn room_for_texts(bytes: &[u8]) -> usize
    ensures { result ≡ most_texts bytes.now }
{
    bytes.len().max(MOST_TEXTS)
}

/// How many cells may be made of these bytes with so many columns, and how many rows without one.
#[tactic(auto, unfolding(crate::specs::Room::most_cells))]
pub(crate) fn room_for_cells(bytes: &[u8], schema: &Schema) -> usize
    ensures { result ≡ most_cells bytes.now schema.now }
{
    if schema.0.len() == 0 {
        return MOST_CELLS;
    }
    bytes.len().saturating_mul(8).max(MOST_CELLS)
}

/// What is left after some was taken, or want of memory where there wasn't so much.
pub(crate) fn left(room: usize, taken: usize) -> Result<usize, OutOfMemory>
    ensures ok { IfOk result (λ left. left + taken ≡ room) }
    ensures refused { OnErr result (room < taken) }
{
    match room.checked_sub(taken) {
        Some(left) => Ok(left),
        None => Err(OutOfMemory),
    }
}

/// What is left after a schema's names.
pub(crate) fn names_left(room: usize, schema: &Schema) -> Result<usize, OutOfMemory>
    ensures ok { IfOk result (λ left. left + names_size schema.now.0 ≡ room) }
    ensures refused { OnErr result (room < names_size schema.now.0) }
{
    let mut names = room;
    for field in schema.0.as_slice() {
        names = left(names, field.name.as_str().len())?;
    }
    Ok(names)
}

/// Whether there is room for rows that have no column, of which a batch says the number alone.
pub(crate) fn if_counted(room: usize, schema: &Schema, count: usize) -> Result<(), OutOfMemory>
    ensures ok { OnOk result (schema.now.0 ≡ [] → count ≤ room) }
    ensures refused { OnErr result (room < count) }
{
    if schema.0.len() == 0 && room < count {
        return Err(OutOfMemory);
    }
    Ok(())
}

/// What is left after the cells of so many rows.
pub(crate) fn cells_left(room: usize, schema: &Schema, count: usize) -> usize
    requires { width schema.now * count ≤ room }
    ensures { result + width schema.now * count ≡ room }
{
    room - schema.0.len().max(1) * count
}

/// How many bytes the text has that a value is, if it is one.
pub(crate) fn text_size(value: &Value) -> usize
    ensures { result ≡ said_text_size value.now }
{
    match value {
        Value::Text(text) => text.as_str().len(),
        Value::Null => 0,
        Value::Boolean(_) => 0,
        Value::Integer(_) => 0,
        Value::Long(_) => 0,
        Value::Date(_) => 0,
    }
}
