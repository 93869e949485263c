//! The happy path of the builder, of copies and of a look-up, and look-ups that leave the buffer. More rows are run by the program of vectors.

use crate::{Builder, FlatFault, FlatObject, FlatSlot, Table};
use cn_base::{Bytes, Copied, List, Text};
use std::alloc::Global;
use std::test::Fail;

/// The metadata of a stream's schema message, of one column `id` of long numbers that isn't nullable.
const SCHEMA: [u8; 176] = [
    0x18, 0x00, 0x00, 0x00, 0x00, 0x00, 0x00, 0x00, 0x0C, 0x00, 0x18, 0x00, 0x04, 0x00, 0x06, 0x00,
    0x08, 0x00, 0x10, 0x00, 0x00, 0x00, 0x00, 0x00, 0x10, 0x00, 0x00, 0x00, 0x04, 0x00, 0x01, 0x00,
    0x18, 0x00, 0x00, 0x00, 0x00, 0x00, 0x00, 0x00, 0x00, 0x00, 0x00, 0x00, 0x00, 0x00, 0x00, 0x00,
    0x08, 0x00, 0x0C, 0x00, 0x04, 0x00, 0x08, 0x00, 0x08, 0x00, 0x00, 0x00, 0x00, 0x00, 0x00, 0x00,
    0x0C, 0x00, 0x00, 0x00, 0x00, 0x00, 0x00, 0x00, 0x00, 0x00, 0x00, 0x00, 0x01, 0x00, 0x00, 0x00,
    0x18, 0x00, 0x00, 0x00, 0x00, 0x00, 0x00, 0x00, 0x10, 0x00, 0x14, 0x00, 0x04, 0x00, 0x08, 0x00,
    0x09, 0x00, 0x0C, 0x00, 0x00, 0x00, 0x10, 0x00, 0x10, 0x00, 0x00, 0x00, 0x18, 0x00, 0x00, 0x00,
    0x00, 0x02, 0x00, 0x00, 0x24, 0x00, 0x00, 0x00, 0x34, 0x00, 0x00, 0x00, 0x00, 0x00, 0x00, 0x00,
    0x00, 0x00, 0x00, 0x00, 0x02, 0x00, 0x00, 0x00, 0x69, 0x64, 0x00, 0x00, 0x00, 0x00, 0x00, 0x00,
    0x08, 0x00, 0x09, 0x00, 0x04, 0x00, 0x08, 0x00, 0x08, 0x00, 0x00, 0x00, 0x40, 0x00, 0x00, 0x00,
    0x01, 0x00, 0x00, 0x00, 0x00, 0x00, 0x00, 0x00, 0x00, 0x00, 0x00, 0x00, 0x00, 0x00, 0x00, 0x00,
];

fn table(slots: Vec<FlatSlot>) -> FlatSlot {
    FlatSlot::Object(FlatObject::Table(List::from_vec(slots)))
}

fn text(alloc: Global, text: &str) -> Result<FlatSlot, Fail> {
    Ok(FlatSlot::Object(FlatObject::Text(Text::of(alloc, text)?)))
}

fn tables(tables: Vec<FlatObject>) -> FlatSlot {
    FlatSlot::Object(FlatObject::Tables(List::from_vec(tables)))
}

/// The object whose bytes `SCHEMA` is.
fn schema(alloc: Global) -> Result<FlatObject, Fail> {
    let int = table(vec![in alloc; FlatSlot::I32(64), FlatSlot::U8(1)]?);
    let name = text(alloc, "id")?;
    let children = tables(vec![in alloc]?);
    let field = vec![in alloc;
        name,
        FlatSlot::U8(0),
        FlatSlot::U8(2),
        int,
        FlatSlot::Absent,
        children,
    ]?;
    let fields = tables(vec![in alloc; FlatObject::Table(List::from_vec(field))]?);
    let schema = table(vec![in alloc; FlatSlot::I16(0), fields]?);
    let message = vec![in alloc; FlatSlot::I16(4), FlatSlot::U8(1), schema, FlatSlot::I64(0)]?;
    Ok(FlatObject::Table(List::from_vec(message)))
}

#[test]
fn the_schema_of_one_column_is_written(rt: HostRuntime) -> Result<(), Fail> {
    let object = schema(rt.alloc())?;
    assert!(rt; object.can_be_put());
    let mut builder = Builder::new(rt.alloc());
    builder.put(&object)?;
    assert_eq!(rt; builder.finish().as_slice(), SCHEMA.as_slice());
    Ok(())
}

#[test]
fn an_object_is_copied(rt: HostRuntime) -> Result<(), Fail> {
    let slot = text(rt.alloc(), "id")?.copy(rt.alloc())?;
    assert!(rt; matches!(slot, FlatSlot::Object(FlatObject::Text(_))));
    Ok(())
}

#[test]
fn the_schema_of_one_column_is_read(rt: HostRuntime) -> Result<(), Fail> {
    let message = Table::root(&SCHEMA)?;
    assert_eq!(rt; message.i16_at(0)?, Some(4));
    assert_eq!(rt; message.u8_at(1)?, Some(1));
    assert_eq!(rt; message.i64_at(3)?, Some(0));
    assert!(rt; message.has(2) && !message.has(4));
    Ok(())
}

/// Buffers whose root table can't be read, and the place of the number that is missing.
static OUTSIDE: [(&[u8], usize); 5] = [
    (&[], 0),
    // An offset past the end.
    (&[255, 255, 255, 255], 0xFFFF_FFFF),
    // A vtable below place 0.
    (&[4, 0, 0, 0, 5, 0, 0, 0], 4),
    (&[4, 0, 0, 0, 255, 255, 255, 127], 4),
    // A vtable past the end.
    (&[4, 0, 0, 0, 248, 255, 255, 255], 12),
];

#[test]
fn what_leads_out_of_the_buffer_is_a_fault(rt: HostRuntime) {
    for (bytes, at) in OUTSIDE {
        assert!(rt; Table::root(bytes).err() == Some(FlatFault::OutOfRange { at }));
    }
}
