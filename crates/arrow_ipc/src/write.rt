ghost use Rattle.std.specs.Prelude.{◌≡◌, ◌++◌, IfOk, OnOk};
ghost use Rattle.flat_tables.specs.Layout.{CanBePut};
ghost use Rattle.arrow_ipc.specs.Stream.{message_bytes, stream_of, CanBeWritten};

use crate::batch::{Batch, batch_of};
use crate::messages;
use cn_base::{Bytes, OutOfMemory};
use cn_types::{Row, Schema};
use flat_tables::{Builder, FlatObject};
use std::alloc::Global;

/// What begins a message.
const MARK: [u8; 4] = [0xFF, 0xFF, 0xFF, 0xFF];

/// What ends a stream: a mark, and a size of 0.
const END_MARK: [u8; 8] = [0xFF, 0xFF, 0xFF, 0xFF, 0, 0, 0, 0];

/// The Arrow IPC stream of a schema and rows: the message of the schema, one batch with all rows, and the end mark (Arrow Columnar Format,
/// "IPC Streaming Format"). The rows have to fit the schema, which has at most 1,048,576 fields, and its names and the rows' texts have
/// together at most 2^30 bytes. The only error is that there is no memory.
pub fn write_stream(alloc: Global, schema: &Schema, rows: &[Row]) -> Result<Bytes, OutOfMemory>
    requires { CanBeWritten schema.now rows.now }
    ensures { IfOk result (λ bytes. bytes ≡ stream_of schema.now rows.now) }
{
    flat_tables::object_sizes_add_up();
    let mut out = Bytes::new(alloc);
    let first = messages::schema_message(alloc, schema)?;
    write_message(alloc, &mut out, &first)?;
    let Batch { body, spans, nodes } = batch_of(alloc, schema, rows)?;
    let bytes = body.as_slice();
    let second = messages::batch_message(alloc, rows.len(), nodes, spans, bytes.len())?;
    write_message(alloc, &mut out, &second)?;
    out.append_both(bytes, &END_MARK)?;
    Ok(out)
}

/// Adds a message without its body: the continuation mark, the size of the metadata, and the metadata, whose size is a multiple of 8.
fn write_message(alloc: Global, out: &mut Bytes, message: &FlatObject) -> Result<(), OutOfMemory>
    requires { CanBePut message.now }
    ensures { OnOk result (out.new ≡ out.old ++ message_bytes message.now) }
{
    let mut builder = Builder::new(alloc);
    builder.put(message)?;
    let metadata = builder.finish();
    let size = metadata.as_slice().len() as u32;
    out.append_both(&MARK, &size.to_le_bytes())?;
    out.append(metadata.as_slice())
}
