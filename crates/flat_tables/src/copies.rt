ghost use Rattle.std.specs.Prelude.{◌≡◌, IfOk};

use crate::{FlatObject, FlatPair, FlatSlot};
use cn_base::{Copied, List, OutOfMemory};
use std::alloc::Global;

#[cycle(copies)]
fn copy_object(alloc: Global, object: &FlatObject) -> Result<FlatObject, OutOfMemory>
    ensures { IfOk result (λ c. c ≡ object.now) }
{
    match object {
        FlatObject::Table(slots) => Ok(FlatObject::Table(copy_slots(alloc, slots.as_slice())?)),
        FlatObject::Tables(tables) => Ok(FlatObject::Tables(copy_tables(
            alloc,
            tables.as_slice(),
        )?)),
        FlatObject::Pairs(pairs) => Ok(FlatObject::Pairs(List::from_slice(
            alloc,
            pairs.as_slice(),
        )?)),
        FlatObject::Text(text) => Ok(FlatObject::Text(text.copy(alloc)?)),
    }
}

#[cycle(copies)]
fn copy_slots(alloc: Global, slots: &[FlatSlot]) -> Result<List<FlatSlot>, OutOfMemory>
    ensures { IfOk result (λ c. c ≡ slots.now) }
{
    let mut copies = List::new(alloc);
    for slot in slots {
        copies.push(match slot {
            FlatSlot::Absent => FlatSlot::Absent,
            FlatSlot::U8(number) => FlatSlot::U8(*number),
            FlatSlot::I16(number) => FlatSlot::I16(*number),
            FlatSlot::I32(number) => FlatSlot::I32(*number),
            FlatSlot::I64(number) => FlatSlot::I64(*number),
            FlatSlot::Object(object) => FlatSlot::Object(copy_object(alloc, object)?),
        })?;
    }
    Ok(copies)
}

#[cycle(copies)]
fn copy_tables(alloc: Global, tables: &[FlatObject]) -> Result<List<FlatObject>, OutOfMemory>
    ensures { IfOk result (λ c. c ≡ tables.now) }
{
    let mut copies = List::new(alloc);
    for table in tables {
        copies.push(copy_object(alloc, table)?)?;
    }
    Ok(copies)
}

impl Copied for FlatObject {
    fn copy(&self, alloc: Global) -> Result<FlatObject, OutOfMemory> {
        copy_object(alloc, self)
    }
}

impl<O: Copied + Drop> Copied for FlatSlot<O> {
    fn copy(&self, alloc: Global) -> Result<FlatSlot<O>, OutOfMemory> {
        match self {
            FlatSlot::Absent => Ok(FlatSlot::Absent),
            FlatSlot::U8(number) => Ok(FlatSlot::U8(*number)),
            FlatSlot::I16(number) => Ok(FlatSlot::I16(*number)),
            FlatSlot::I32(number) => Ok(FlatSlot::I32(*number)),
            FlatSlot::I64(number) => Ok(FlatSlot::I64(*number)),
            FlatSlot::Object(object) => Ok(FlatSlot::Object(object.copy(alloc)?)),
        }
    }
}

impl Copied for FlatPair {
    fn copy(&self, _alloc: Global) -> Result<FlatPair, OutOfMemory> {
        Ok(*self)
    }
}
