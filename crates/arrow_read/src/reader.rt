ghost use Rattle.std.specs.Prelude.{◌≡◌, ◌≢◌, ◌*◌, ◌≤◌, length, Ok, Err, IfOk, IfErr};
ghost use Rattle.arrow_read.specs.Reading.{batches_from, gathered, if_wanted as said_wanted, stream_in};
ghost use Rattle.arrow_read.specs.Laws.{HoldsWanted};
ghost use Rattle.arrow_read.specs.Room.{width, texts_size, IsBounded};

use crate::part::next_batch;
use crate::room::{Room, cells_left, names_left, room_for_cells, room_for_texts};
use crate::rows::push_rows;
use crate::schema::first_message;
use crate::{ArrowFault, Batches};
use cn_base::List;
use cn_types::{Row, RowList, Schema};
use std::alloc::Global;

/// The rows of all batches from `start` on, in order, and how many batches there are, if there is room for them.
fn read_batches(
    alloc: Global,
    bytes: &[u8],
    schema: &Schema,
    start: usize,
    room: Room,
) -> Result<(List<Row>, usize), ArrowFault>
    requires { start ≤ length bytes.now }
    ensures cells { IfOk result (λ read. width schema.now * length read.0 ≤ room.cells) }
    ensures texts { IfOk result (λ read. texts_size read.0 ≤ room.texts) }
    ensures ok { IfOk result (λ read. gathered (batches_from bytes.now schema.now start) ≡ Ok (read.0, read.1)) }
    ensures refused { IfErr result (λ e. e ≢ ArrowFault.OutOfMemory → gathered (batches_from bytes.now schema.now start) ≡ Err e) }
{
    let mut rows = List::new(alloc);
    let mut found = 0;
    let mut at = start;
    let mut room = room;
    loop {
        let Some(part) = next_batch(alloc, bytes, schema, at, room)? else {
            return Ok((rows, found));
        };
        let columns = part.columns.as_slice();
        let texts = push_rows(alloc, &mut rows, columns, part.count, room.texts)?;
        room = Room {
            cells: cells_left(room.cells, schema, part.count),
            texts,
        };
        found += 1;
        at = part.next;
    }
}

/// Whether so many batches are wanted.
fn if_wanted(want: Batches, found: usize) -> Result<(), ArrowFault>
    ensures { result ≡ said_wanted want found }
{
    match want {
        Batches::ExactlyOne if found != 1 => Err(ArrowFault::BatchCount { found }),
        _ => Ok(()),
    }
}

/// Reads an Arrow IPC stream (Arrow Columnar Format, "IPC Streaming Format"): its schema, and the rows of all its batches in order. It ends
/// with an end mark or with the bytes; bytes after an end mark say nothing. Columns are of signed integers of 32 and 64 bits, UTF-8 texts,
/// booleans and days, in messages of version V4 or V5.
///
/// The error is the first fault of the stream in the order that `ArrowFault` says; want of memory says nothing of the bytes. It is also the
/// answer where more cells, or more bytes of names and texts, would be made than the stream has bits and bytes for, but for a few: tables
/// and buffers may share bytes, and a batch without columns has a number of rows alone.
#[tactic(auto, unfolding(crate::specs::Reading::stream_in))]
pub fn read_stream(
    alloc: Global,
    bytes: &[u8],
    want: Batches,
) -> Result<(Schema, RowList), ArrowFault>
    ensures ok { IfOk result (λ read. stream_in bytes.now want ≡ Ok (read.0, read.1)) }
    ensures bounded { IfOk result (λ read. IsBounded bytes.now read.0 read.1) }
    ensures holds { IfOk result (λ read. HoldsWanted bytes.now want read.0 read.1) }
    ensures refused { IfErr result (λ e. e ≢ ArrowFault.OutOfMemory → stream_in bytes.now want ≡ Err e) }
{
    let most = room_for_texts(bytes);
    let (schema, start) = first_message(alloc, bytes, most)?;
    let room = Room {
        cells: room_for_cells(bytes, &schema),
        texts: names_left(most, &schema)?,
    };
    let (rows, found) = read_batches(alloc, bytes, &schema, start, room)?;
    if_wanted(want, found)?;
    Ok((schema, RowList::of(alloc, rows)?))
}
