ghost use Rattle.std.specs.Prelude.{◌≡◌, ◌+◌, ◌≤◌, ◌++◌, length, map, IfOk, OnOk};
ghost use Rattle.std.specs.List.{All};
ghost use Rattle.flat_tables.specs.Layout.{OnNamed, IsBuildable, block, slot_map, table_block, tables_block};
ghost use Rattle.flat_tables.specs.Building.{HasRoom, Adds, Names};

use crate::{FlatObject, FlatSlot, bytes, slots, vectors};
use cn_base::OutOfMemory;

/// Adds an object with all that it names, and says at which place an offset to it points.
#[cycle(objects)]
fn write_object(out: &mut Vec<u8>, object: &FlatObject) -> Result<usize, OutOfMemory>
    requires room { HasRoom out.old.items (block object.now) }
    requires buildable { IsBuildable object.now }
    ensures { IfOk result (Adds out.old.items out.new.items (block object.now)) }
{
    match object {
        FlatObject::Table(slots) => write_table(out, slots.as_slice()),
        FlatObject::Tables(tables) => write_tables(out, tables.as_slice()),
        FlatObject::Pairs(pairs) => vectors::write_pairs(out, pairs.as_slice()),
        FlatObject::Text(text) => vectors::write_text(out, text.as_str()),
    }
}

/// Adds an object, and writes the offset to it over the 4 bytes at `place`.
#[cycle(objects)]
pub(crate) fn write_named(
    out: &mut Vec<u8>,
    object: &FlatObject,
    place: usize,
) -> Result<(), OutOfMemory>
    requires room { HasRoom out.old.items (block object.now) }
    requires buildable { IsBuildable object.now }
    requires before { place + 4 ≤ length out.old.items }
    ensures { OnOk result (Names out.old.items out.new.items (block object.now) place) }
{
    let entry = write_object(out, object)?;
    bytes::set_offset(out, place, (entry - place) as u32);
    Ok(())
}

/// Adds a table with all that it names.
#[cycle(objects)]
fn write_table(out: &mut Vec<u8>, slots: &[FlatSlot]) -> Result<usize, OutOfMemory>
    requires room { HasRoom out.old.items (table_block (map (slot_map block) slots.now)) }
    requires few { length slots.now ≤ 4096 }
    requires buildable { All (OnNamed IsBuildable) slots.now }
    ensures { IfOk result (Adds out.old.items out.new.items (table_block (map (slot_map block) slots.now))) }
{
    let table = slots::write_own(out, slots)?;
    let mut end = 4;
    for slot in slots {
        if let FlatSlot::Object(object) = slot {
            write_named(out, object, table + slots::place_of(slot, end))?;
        }
        end = slots::end_of(slot, end);
    }
    Ok(table)
}

/// Adds a vector of tables with all that they name.
#[cycle(objects)]
fn write_tables(out: &mut Vec<u8>, tables: &[FlatObject]) -> Result<usize, OutOfMemory>
    requires room { HasRoom out.old.items (tables_block (map block tables.now)) }
    requires buildable { All IsBuildable tables.now }
    ensures { IfOk result (Adds out.old.items out.new.items (tables_block (map block tables.now))) }
{
    let vector = out.len();
    vectors::write_blank(out, tables.len())?;
    let mut place = vector + 8;
    for table in tables {
        write_named(out, table, place)?;
        place += 4;
    }
    Ok(vector + 4)
}
