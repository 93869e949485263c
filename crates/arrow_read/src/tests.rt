//! Small streams by hand: one of each answer that the clauses leave to memory, the happy path, and text columns without rows. More rows are
//! run by the program of vectors.

use crate::{ArrowFault, Batches, read_stream};
use cn_base::OutOfMemory;
use std::alloc::Global;
use std::test::Fail;

/// The longs 0, 1, 2 in `id`, which is not nullable.
static LONGS: [u8; 376] = [
    255, 255, 255, 255, 176, 0, 0, 0, 24, 0, 0, 0, 0, 0, 0, 0, 12, 0, 24, 0, 4, 0, 6, 0, 8, 0, 16,
    0, 0, 0, 0, 0, 16, 0, 0, 0, 4, 0, 1, 0, 24, 0, 0, 0, 0, 0, 0, 0, 0, 0, 0, 0, 0, 0, 0, 0, 8, 0,
    12, 0, 4, 0, 8, 0, 8, 0, 0, 0, 0, 0, 0, 0, 12, 0, 0, 0, 0, 0, 0, 0, 0, 0, 0, 0, 1, 0, 0, 0, 24,
    0, 0, 0, 0, 0, 0, 0, 16, 0, 20, 0, 4, 0, 8, 0, 9, 0, 12, 0, 0, 0, 16, 0, 16, 0, 0, 0, 24, 0, 0,
    0, 0, 2, 0, 0, 36, 0, 0, 0, 52, 0, 0, 0, 0, 0, 0, 0, 0, 0, 0, 0, 2, 0, 0, 0, 105, 100, 0, 0, 0,
    0, 0, 0, 8, 0, 9, 0, 4, 0, 8, 0, 8, 0, 0, 0, 64, 0, 0, 0, 1, 0, 0, 0, 0, 0, 0, 0, 0, 0, 0, 0,
    0, 0, 0, 0, 255, 255, 255, 255, 152, 0, 0, 0, 24, 0, 0, 0, 0, 0, 0, 0, 12, 0, 24, 0, 4, 0, 6,
    0, 8, 0, 16, 0, 0, 0, 0, 0, 16, 0, 0, 0, 4, 0, 3, 0, 32, 0, 0, 0, 0, 0, 0, 0, 24, 0, 0, 0, 0,
    0, 0, 0, 10, 0, 24, 0, 8, 0, 16, 0, 20, 0, 0, 0, 0, 0, 0, 0, 16, 0, 0, 0, 0, 0, 0, 0, 3, 0, 0,
    0, 0, 0, 0, 0, 12, 0, 0, 0, 32, 0, 0, 0, 0, 0, 0, 0, 1, 0, 0, 0, 3, 0, 0, 0, 0, 0, 0, 0, 0, 0,
    0, 0, 0, 0, 0, 0, 0, 0, 0, 0, 2, 0, 0, 0, 0, 0, 0, 0, 0, 0, 0, 0, 0, 0, 0, 0, 0, 0, 0, 0, 0, 0,
    0, 0, 0, 0, 0, 0, 24, 0, 0, 0, 0, 0, 0, 0, 0, 0, 0, 0, 0, 0, 0, 0, 1, 0, 0, 0, 0, 0, 0, 0, 2,
    0, 0, 0, 0, 0, 0, 0, 255, 255, 255, 255, 0, 0, 0, 0,
];

/// A text column `s` without rows, whose one offset is 0.
static NO_TEXT: [u8; 368] = [
    255, 255, 255, 255, 168, 0, 0, 0, 24, 0, 0, 0, 0, 0, 0, 0, 12, 0, 24, 0, 4, 0, 6, 0, 8, 0, 16,
    0, 0, 0, 0, 0, 16, 0, 0, 0, 4, 0, 1, 0, 24, 0, 0, 0, 0, 0, 0, 0, 0, 0, 0, 0, 0, 0, 0, 0, 8, 0,
    12, 0, 4, 0, 8, 0, 8, 0, 0, 0, 0, 0, 0, 0, 12, 0, 0, 0, 0, 0, 0, 0, 0, 0, 0, 0, 1, 0, 0, 0, 24,
    0, 0, 0, 0, 0, 0, 0, 16, 0, 20, 0, 4, 0, 8, 0, 9, 0, 12, 0, 0, 0, 16, 0, 16, 0, 0, 0, 24, 0, 0,
    0, 1, 5, 0, 0, 36, 0, 0, 0, 44, 0, 0, 0, 0, 0, 0, 0, 0, 0, 0, 0, 1, 0, 0, 0, 115, 0, 0, 0, 0,
    0, 0, 0, 4, 0, 4, 0, 0, 0, 0, 0, 8, 0, 0, 0, 0, 0, 0, 0, 0, 0, 0, 0, 0, 0, 0, 0, 255, 255, 255,
    255, 168, 0, 0, 0, 24, 0, 0, 0, 0, 0, 0, 0, 12, 0, 24, 0, 4, 0, 6, 0, 8, 0, 16, 0, 0, 0, 0, 0,
    16, 0, 0, 0, 4, 0, 3, 0, 32, 0, 0, 0, 0, 0, 0, 0, 8, 0, 0, 0, 0, 0, 0, 0, 10, 0, 24, 0, 8, 0,
    16, 0, 20, 0, 0, 0, 0, 0, 0, 0, 16, 0, 0, 0, 0, 0, 0, 0, 0, 0, 0, 0, 0, 0, 0, 0, 12, 0, 0, 0,
    32, 0, 0, 0, 0, 0, 0, 0, 1, 0, 0, 0, 0, 0, 0, 0, 0, 0, 0, 0, 0, 0, 0, 0, 0, 0, 0, 0, 0, 0, 0,
    0, 3, 0, 0, 0, 0, 0, 0, 0, 0, 0, 0, 0, 0, 0, 0, 0, 0, 0, 0, 0, 0, 0, 0, 0, 0, 0, 0, 0, 4, 0, 0,
    0, 0, 0, 0, 0, 8, 0, 0, 0, 0, 0, 0, 0, 0, 0, 0, 0, 0, 0, 0, 0, 0, 0, 0, 0, 0, 0, 0, 0, 255,
    255, 255, 255, 0, 0, 0, 0,
];

/// 4,194,306 rows without a column.
static NO_COLUMN: [u8; 208] = [
    255, 255, 255, 255, 80, 0, 0, 0, 24, 0, 0, 0, 0, 0, 0, 0, 12, 0, 24, 0, 4, 0, 6, 0, 8, 0, 16,
    0, 0, 0, 0, 0, 16, 0, 0, 0, 4, 0, 1, 0, 24, 0, 0, 0, 0, 0, 0, 0, 0, 0, 0, 0, 0, 0, 0, 0, 8, 0,
    12, 0, 4, 0, 8, 0, 8, 0, 0, 0, 0, 0, 0, 0, 12, 0, 0, 0, 0, 0, 0, 0, 0, 0, 0, 0, 0, 0, 0, 0,
    255, 255, 255, 255, 104, 0, 0, 0, 24, 0, 0, 0, 0, 0, 0, 0, 12, 0, 24, 0, 4, 0, 6, 0, 8, 0, 16,
    0, 0, 0, 0, 0, 16, 0, 0, 0, 4, 0, 3, 0, 32, 0, 0, 0, 0, 0, 0, 0, 0, 0, 0, 0, 0, 0, 0, 0, 10, 0,
    24, 0, 8, 0, 16, 0, 20, 0, 0, 0, 0, 0, 0, 0, 16, 0, 0, 0, 0, 0, 0, 0, 2, 0, 64, 0, 0, 0, 0, 0,
    12, 0, 0, 0, 16, 0, 0, 0, 0, 0, 0, 0, 0, 0, 0, 0, 0, 0, 0, 0, 0, 0, 0, 0, 255, 255, 255, 255,
    0, 0, 0, 0,
];

/// A place in `NO_TEXT`, what is written there, and whether the stream is still read.
static CHANGED: [(usize, u8, bool); 5] = [
    // The offset is where the texts end, behind it, and negative.
    (352, 0, true),
    (352, 1, false),
    (355, 255, false),
    // The buffer of the offsets has 3 bytes, and none.
    (328, 3, false),
    (328, 0, true),
];

/// Whether the stream of a text column is read after a byte of it was changed.
fn is_read(alloc: Global, place: usize, byte: u8) -> Result<bool, OutOfMemory> {
    let mut bytes = Vec::from_slice(alloc, &NO_TEXT)?;
    if let Some(found) = bytes.get_mut(place) {
        *found = byte;
    }
    match read_stream(alloc, bytes.as_slice(), Batches::ExactlyOne) {
        Ok(_) => Ok(true),
        Err(_) => Ok(false),
    }
}

#[test]
fn longs_are_read(rt: HostRuntime) -> Result<(), Fail> {
    let (schema, rows) = read_stream(rt.alloc(), &LONGS, Batches::ExactlyOne)?;
    assert_eq!(rt; schema.0.len(), 1);
    assert_eq!(rt; rows.as_slice().len(), 3);
    Ok(())
}

#[test]
fn offsets_of_no_row_are_looked_at(rt: HostRuntime) -> Result<(), Fail> {
    for (place, byte, read) in CHANGED {
        assert_eq!(rt; is_read(rt.alloc(), place, byte)?, read);
    }
    Ok(())
}

#[test]
fn rows_of_no_column_are_bounded(rt: HostRuntime) {
    let fault = match read_stream(rt.alloc(), &NO_COLUMN, Batches::Any) {
        Ok(_) => None,
        Err(fault) => Some(fault),
    };
    assert_eq!(rt; fault, Some(ArrowFault::OutOfMemory));
}
