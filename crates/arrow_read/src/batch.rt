ghost use Rattle.std.specs.Prelude.{◌≡◌};
ghost use Rattle.arrow_read.specs.Tables.{batch_in as said_batch, later_header as said_later};

use crate::field::presence;
use crate::head::Head;
use crate::numbers;
use flat_tables::{Table, Vector};

/// The table `RecordBatch` (Message.fbs): how many rows there are, the nodes and the buffers, and whether it is compressed.
#[derive(Debug, Drop)]
pub(crate) struct BatchTables<'a> {
    pub(crate) count: usize,
    pub(crate) nodes: Option<Vector<'a>>,
    pub(crate) spans: Option<Vector<'a>>,
    pub(crate) compressed: bool,
}

#[tactic(auto, unfolding(crate::specs::Tables::batch_in))]
fn batch_in<'a>(header: &Table<'a>) -> Option<BatchTables<'a>>
    ensures { result ≡ said_batch header.now }
{
    let length = header.i64_at(0).ok()?;
    let count = numbers::not_negative(length.unwrap_or(0))?;
    let nodes = header.vector_at(1, 16).ok()?;
    let spans = header.vector_at(2, 16).ok()?;
    let compressed = presence(header, 3)?;
    Some(BatchTables {
        count,
        nodes,
        spans,
        compressed,
    })
}

/// A later message's header, where it is a batch, or none in it for another header. It isn't a schema.
pub(crate) fn later_header<'a>(head: &Head<'a>) -> Option<Option<BatchTables<'a>>>
    ensures { result ≡ said_later head.now }
{
    match head.number {
        3 => Some(Some(batch_in(&head.header)?)),
        1 => None,
        _ => Some(None),
    }
}
