ghost use Rattle.std.specs.Prelude.{◌≡◌};
ghost use Rattle.arrow_read.specs.declared.fault.ArrowFault.TheVariants.{OutOfMemory as no_memory};

use cn_base::OutOfMemory;
use thiserror::Error;

/// Why bytes are no stream that can be read: the first fault in the order of the format's tests. Messages are tested one after another. Of
/// a message first comes `NotAMessage`, then `Truncated` metadata, `BadTable`, `UnsupportedType` or `Compressed`, a `Truncated` body, and
/// then of each column from the left `BadLength`, `BadBuffer`, and by rows `NotUtf8` or `BadDate`. `BatchCount` comes after the stream's end.
#[derive(Debug, PartialEq, Eq, Drop, Error)]
pub enum ArrowFault {
    /// The message at this place, counted in bytes, doesn't begin with `FF FF FF FF`, or the size of its metadata is negative.
    #[error("no message at {at}")]
    NotAMessage { at: usize },
    /// A table of the message at this place: a byte that is needed lies outside the metadata, its version is neither V4 nor V5, the body's
    /// or the batch's length is negative, the header, a schema's fields or a field's type is absent, a name isn't UTF-8, or the first
    /// message is a batch, or a later one a schema.
    #[error("a bad table in the message at {at}")]
    BadTable { at: usize },
    /// The field at this place, counted from 0, is the first with another type, with a dictionary or with children. It is 0 where the
    /// numbers are big-endian, and where a message has another header.
    #[error("the field at place {field} has an unsupported type")]
    UnsupportedType { field: usize },
    /// A batch is compressed.
    #[error("a batch is compressed")]
    Compressed,
    /// A buffer of this column, counted from 0, is missing, outside the body or too short, an offset falls or lies past the texts, or the
    /// number of nulls isn't that of the node.
    #[error("a bad buffer in column {column}")]
    BadBuffer { column: usize },
    /// The text of this column at this row of its batch isn't UTF-8.
    #[error("a text that is no UTF-8 in column {column}, row {row}")]
    NotUtf8 { column: usize, row: usize },
    /// The date of this column at this row of its batch isn't from 0001-01-01 to 9999-12-31.
    #[error("a date out of range in column {column}, row {row}")]
    BadDate { column: usize, row: usize },
    /// This column has no node, or one with another length than the batch.
    #[error("a bad length in column {column}")]
    BadLength { column: usize },
    /// The input ends before a message does, or before the schema.
    #[error("the input ends inside a message")]
    Truncated,
    /// The stream is whole, and has so many batches where exactly one was wanted.
    #[error("{found} batches in place of one")]
    BatchCount { found: usize },
    /// There was no memory. It says nothing of the bytes.
    #[error("out of memory")]
    OutOfMemory,
}

impl From<OutOfMemory> for ArrowFault {
    ghost from_gives = { λ _ e. e ≡ no_memory };

    fn from(_error: OutOfMemory) -> ArrowFault {
        ArrowFault::OutOfMemory
    }
}
