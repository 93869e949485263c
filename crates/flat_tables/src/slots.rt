ghost use Rattle.std.specs.Prelude.{◌≡◌, ◌+◌, ◌-◌, ◌%◌, ◌*◌, ◌^◌, ◌<◌, ◌≤◌, ◌++◌, length, take, map, OnOk, IfOk};
ghost use Rattle.std.specs.List.{flat_map};
ghost use Rattle.std.specs.Int.{w16, to_le_bytes, next_multiple_of};
ghost use Rattle.flat_tables.specs.Layout.{size_of, place_of, end_of, is_absent, table_size, used, entries, field_bytes, fields, vtable_bytes, zeros};
ghost use Rattle.flat_tables.specs.Building.{blank_table, blank};

use crate::{FlatSlot, bytes};
use cn_base::OutOfMemory;

/// How many bytes a slot's field has.
fn size_of(slot: &FlatSlot) -> usize
    ensures { result ≡ size_of slot.now }
{
    match slot {
        FlatSlot::Absent => 0,
        FlatSlot::U8(_) => 1,
        FlatSlot::I16(_) => 2,
        FlatSlot::I32(_) | FlatSlot::Object(_) => 4,
        FlatSlot::I64(_) => 8,
    }
}

/// Where a slot's field stands in a table that has `end` bytes before it.
pub(crate) fn place_of(slot: &FlatSlot, end: usize) -> usize
    requires { end < 2 ^ 63 }
    ensures place { result ≡ place_of end slot.now }
    ensures after { end ≤ result }
    ensures near { result < end + 8 }
{
    match slot {
        FlatSlot::Absent | FlatSlot::U8(_) => end,
        FlatSlot::I16(_) => end.next_multiple_of(2),
        FlatSlot::I32(_) | FlatSlot::Object(_) => end.next_multiple_of(4),
        FlatSlot::I64(_) => end.next_multiple_of(8),
    }
}

/// How many bytes a table with `end` bytes before a slot has after it.
pub(crate) fn end_of(slot: &FlatSlot, end: usize) -> usize
    requires { end < 2 ^ 62 }
    ensures end { result ≡ end_of end slot.now }
    ensures near { result < end + 16 }
{
    place_of(slot, end) + size_of(slot)
}

/// How many bytes a table has, its i32 among them.
fn table_size(slots: &[FlatSlot]) -> usize
    requires { length slots.now ≤ 4096 }
    ensures size { result ≡ table_size 4 slots.now }
    ensures short { result < 2 ^ 16 }
{
    let mut end = 4;
    for slot in slots {
        end = end_of(slot, end);
    }
    end
}

/// The number of slots up to the highest one that is written.
fn used(slots: &[FlatSlot]) -> usize
    ensures count { result ≡ used slots.now }
    ensures within { result ≤ length slots.now }
{
    let mut count = 0;
    for (place, slot) in slots.iter().enumerate() {
        if !matches!(slot, FlatSlot::Absent) {
            count = place + 1;
        }
    }
    count
}

/// How many bytes a table has with its vtable, without what it names.
pub(crate) fn size_of_own(slots: &[FlatSlot]) -> usize
    requires { length slots.now ≤ 4096 }
    ensures size { result ≡ next_multiple_of (4 + 2 * used slots.now) 8 + next_multiple_of (table_size 4 slots.now) 8 }
    ensures short { result < 2 ^ 18 }
{
    (4 + 2 * used(slots)).next_multiple_of(8) + table_size(slots).next_multiple_of(8)
}

/// Adds an entry of the vtable for each slot.
fn write_entries(out: &mut Vec<u8>, slots: &[FlatSlot]) -> Result<(), OutOfMemory>
    requires { length slots.now ≤ 4096 }
    ensures { OnOk result (out.new.items ≡ out.old.items ++ flat_map (to_le_bytes w16) (entries 4 slots.now)) }
{
    let mut end = 4;
    for slot in slots {
        let place = place_of(slot, end);
        let entry = if matches!(slot, FlatSlot::Absent) {
            0
        } else {
            place as u16
        };
        out.extend_from_slice(&entry.to_le_bytes())?;
        end = end_of(slot, end);
    }
    Ok(())
}

/// Adds the vtable of a table with these slots.
pub(crate) fn write_vtable(out: &mut Vec<u8>, slots: &[FlatSlot]) -> Result<(), OutOfMemory>
    requires few { length slots.now ≤ 4096 }
    requires aligned { length out.old.items % 8 ≡ 0 }
    ensures { OnOk result (out.new.items ≡ out.old.items ++ vtable_bytes slots.now) }
{
    let count = used(slots);
    let size = 4 + 2 * count as u16;
    out.extend_from_slice(&size.to_le_bytes())?;
    let table = table_size(slots) as u16;
    out.extend_from_slice(&table.to_le_bytes())?;
    write_entries(out, &slots[..count])?;
    bytes::pad(out)
}

/// Adds a slot's field, where the table has `end` bytes before it. The offset of an object is 0.
fn write_field(out: &mut Vec<u8>, slot: &FlatSlot, end: usize) -> Result<(), OutOfMemory>
    requires { end < 2 ^ 62 }
    ensures { OnOk result (out.new.items ≡ out.old.items ++ (zeros (place_of end slot.now - end) ++ field_bytes (place_of end slot.now) 0 (blank slot.now))) }
{
    let place = place_of(slot, end);
    bytes::write_zeros(out, place - end)?;
    match slot {
        FlatSlot::Absent => Ok(()),
        FlatSlot::U8(number) => out.extend_from_slice(&[*number]),
        FlatSlot::I16(number) => out.extend_from_slice(&number.to_le_bytes()),
        FlatSlot::I32(number) => out.extend_from_slice(&number.to_le_bytes()),
        FlatSlot::I64(number) => bytes::write_i64(out, *number),
        FlatSlot::Object(_) => out.extend_from_slice(&[0; 4]),
    }
}

/// Adds a table's fields. The offsets of objects are 0.
pub(crate) fn write_fields(out: &mut Vec<u8>, slots: &[FlatSlot]) -> Result<(), OutOfMemory>
    requires { length slots.now ≤ 4096 }
    ensures { OnOk result (out.new.items ≡ out.old.items ++ fields 4 0 (map blank slots.now)) }
{
    let mut end = 4;
    for slot in slots {
        write_field(out, slot, end)?;
        end = end_of(slot, end);
    }
    Ok(())
}

/// Adds a table without what it names, and says where it stands. The offsets of objects are 0.
pub(crate) fn write_own(out: &mut Vec<u8>, slots: &[FlatSlot]) -> Result<usize, OutOfMemory>
    requires few { length slots.now ≤ 4096 }
    requires aligned { length out.old.items % 8 ≡ 0 }
    ensures bytes { OnOk result (out.new.items ≡ out.old.items ++ blank_table slots.now) }
    ensures place { IfOk result (λ table. table ≡ length out.old.items + length (vtable_bytes slots.now)) }
{
    let start = out.len();
    write_vtable(out, slots)?;
    let table = out.len();
    let distance = (table - start) as u32;
    out.extend_from_slice(&distance.to_le_bytes())?;
    write_fields(out, slots)?;
    bytes::pad(out)?;
    Ok(table)
}
