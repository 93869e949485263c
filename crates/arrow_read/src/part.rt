ghost use Rattle.std.specs.Prelude.{◌≡◌, ◌≢◌, ◌+◌, ◌*◌, ◌<◌, ◌≤◌, length, sum_by, Ok, Err, IfOk, IfErr, IfSome};
ghost use Rattle.arrow_read.specs.Reading.{if_plain as said_plain, columns_in as said_columns, batch_at as said_batch, next_batch as said_next};
ghost use Rattle.arrow_read.specs.Room.{width};

use crate::ArrowFault;
use crate::batch::{BatchTables, later_header};
use crate::column::{Column, buffer_count, column_in};
use crate::head::head_in;
use crate::message::{body_at, metadata_at, metadata_size};
use crate::room::{Room, if_counted, left};
use cn_base::List;
use cn_types::{Field, Schema};
use std::alloc::Global;

/// A batch of a stream: its columns, how many rows they have, and where the next message stands.
#[derive(Debug, Drop)]
pub(crate) struct Part<'a> {
    pub(crate) columns: List<Column<'a>>,
    pub(crate) count: usize,
    pub(crate) next: usize,
}

/// The batch's tables, if it isn't compressed.
fn if_plain<'a>(header: Option<BatchTables<'a>>) -> Result<BatchTables<'a>, ArrowFault>
    ensures { result ≡ said_plain header.entry }
{
    let Some(batch) = header else {
        return Err(ArrowFault::UnsupportedType { field: 0 });
    };
    if batch.compressed {
        return Err(ArrowFault::Compressed);
    }
    Ok(batch)
}

/// The columns of these fields, from the left, if there is room for their cells and texts: columns may share buffers, which are then looked
/// through for each of them. The error is the first fault of the first column that has one.
fn columns_in<'a>(
    alloc: Global,
    batch: &BatchTables,
    body: &'a [u8],
    fields: &[Field],
    room: Room,
) -> Result<List<Column<'a>>, ArrowFault>
    ensures cells { IfOk result (λ _. length fields.now * batch.now.count ≤ room.cells) }
    ensures texts { IfOk result (λ columns. sum_by (λ column. length column.texts) columns ≤ room.texts) }
    ensures ok { IfOk result (λ columns. said_columns batch.now body.now 0 0 fields.now ≡ Ok columns) }
    ensures refused { IfErr result (λ e. e ≢ ArrowFault.OutOfMemory → said_columns batch.now body.now 0 0 fields.now ≡ Err e) }
{
    let mut columns = List::new(alloc);
    let mut first = 0;
    let mut cells = room.cells;
    let mut texts = room.texts;
    for (place, field) in fields.iter().enumerate() {
        let column = column_in(batch, body, place, first, field.kind)?;
        cells = left(cells, batch.count)?;
        texts = left(texts, column.texts.len())?;
        columns.push(column)?;
        first += 1 + buffer_count(field.kind);
    }
    Ok(columns)
}

/// The batch of the message at `at`, whose metadata has this size. The error is the message's first fault.
#[tactic(auto, unfolding(crate::specs::Reading::batch_at))]
fn batch_at<'a>(
    alloc: Global,
    bytes: &'a [u8],
    schema: &Schema,
    at: usize,
    size: usize,
    room: Room,
) -> Result<Part<'a>, ArrowFault>
    requires { at + 8 + size ≤ length bytes.now }
    ensures cells { IfOk result (λ part. width schema.now * part.count ≤ room.cells) }
    ensures ok { IfOk result (λ part. said_batch bytes.now schema.now at size ≡ Ok part) }
    ensures next { IfOk result (λ part. at < part.next) }
    ensures within { IfOk result (λ part. part.next ≤ length bytes.now) }
    ensures refused { IfErr result (λ e. e ≢ ArrowFault.OutOfMemory → said_batch bytes.now schema.now at size ≡ Err e) }
{
    let Some(head) = head_in(metadata_at(bytes, at, size)) else {
        return Err(ArrowFault::BadTable { at });
    };
    let Some(header) = later_header(&head) else {
        return Err(ArrowFault::BadTable { at });
    };
    let batch = if_plain(header)?;
    let body = body_at(bytes, at + 8 + size, head.body)?;
    let columns = columns_in(alloc, &batch, body, schema.0.as_slice(), room)?;
    if_counted(room.cells, schema, batch.count)?;
    Ok(Part {
        columns,
        count: batch.count,
        next: at + 8 + size + head.body,
    })
}

/// The batch at `at`, or none where the stream ends: with its bytes, or with an end mark. The error is the message's first fault.
#[tactic(auto, unfolding(crate::specs::Reading::next_batch))]
pub(crate) fn next_batch<'a>(
    alloc: Global,
    bytes: &'a [u8],
    schema: &Schema,
    at: usize,
    room: Room,
) -> Result<Option<Part<'a>>, ArrowFault>
    requires { at ≤ length bytes.now }
    ensures cells { IfOk result (λ found. IfSome found (λ part. width schema.now * part.count ≤ room.cells)) }
    ensures ok { IfOk result (λ part. said_next bytes.now schema.now at ≡ Ok part) }
    ensures next { IfOk result (λ found. IfSome found (λ part. at < part.next)) }
    ensures within { IfOk result (λ found. IfSome found (λ part. part.next ≤ length bytes.now)) }
    ensures refused { IfErr result (λ e. e ≢ ArrowFault.OutOfMemory → said_next bytes.now schema.now at ≡ Err e) }
{
    if at == bytes.len() {
        return Ok(None);
    }
    let size = metadata_size(bytes, at)?;
    if size == 0 {
        return Ok(None);
    }
    Ok(Some(batch_at(alloc, bytes, schema, at, size, room)?))
}
