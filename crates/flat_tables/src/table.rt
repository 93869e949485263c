ghost use Rattle.std.specs.Prelude.{◌≡◌, ◌+◌, ◌^◌, ◌<◌, ◌≤◌, length, Ok, IsTrue, ◌↔◌, Some, ℕ, IfOk, IfSome};
ghost use Rattle.flat_tables.specs.Fields.{FieldAt};
ghost use Rattle.flat_tables.specs.Reading.{place_before, field_at, table_at, named_table, u8_field, i16_field, i32_field, i64_field, table_field, text_field, vector_field, SeenField};

use crate::{FlatFault, Vector, numbers};
use std::marker::Model;

/// A table of a flatbuffer (FlatBuffers internals, "Tables"), whose i32 and whose vtable's size lie in the buffer.
///
/// Slots are counted from 0. A slot is absent where its entry in the vtable is 0 or not wholly in it. A look-up takes no memory, reads a
/// bounded number of bytes, and answers `OutOfRange` exactly where a byte that it needs lies outside the buffer.
#[derive(Debug, Drop)]
pub struct Table<'a> {
    buffer: &'a [u8],
    place: usize,
    vtable: usize,
    size: u16,
}

impl<'a> Model for Table<'a> {
    ghost use Rattle.std.specs.Prelude.{◌≡◌, ◌+◌, ◌≤◌, length, Ok};
    ghost use Rattle.flat_tables.specs.Views.{TableView};
    ghost use Rattle.flat_tables.specs.Reading.{vtable_at};

    ghost Value = { TableView };

    ghost view = { λ t. record { buffer = t.buffer.now; place = t.place } };

    ghost invariant = { λ t. (vtable_at t.buffer.now t.place ≡ Ok (t.vtable, t.size)) × (t.place ≤ length t.buffer.now) × (t.vtable ≤ length t.buffer.now) };
}

/// The place `back` bytes before `table`.
fn place_before(table: usize, back: i32) -> Result<usize, FlatFault>
    requires { table < 2 ^ 63 }
    ensures { result ≡ place_before table back }
{
    let distance = back.unsigned_abs() as usize;
    if back < 0 {
        Ok(table + distance)
    } else if distance <= table {
        Ok(table - distance)
    } else {
        Err(FlatFault::OutOfRange { at: table })
    }
}

impl<'a> Table<'a> {
    /// The table that the buffer's root offset names. It needs the offset, the table's i32 and its vtable's size.
    pub fn root(buffer: &'a [u8]) -> Result<Table<'a>, FlatFault>
        ensures { result ≡ named_table buffer.now 0 }
    {
        Table::named(buffer, 0)
    }

    /// The table that the offset at `place` names.
    #[tactic(auto, unfolding(crate::specs::Reading::named_table))]
    pub(crate) fn named(buffer: &'a [u8], place: usize) -> Result<Table<'a>, FlatFault>
        ensures { result ≡ named_table buffer.now place }
    {
        let target = numbers::target_at(buffer, place)?;
        Table::at(buffer, target)
    }

    /// The table at `place`.
    #[tactic(auto, unfolding(crate::specs::Reading::table_at, crate::specs::Reading::vtable_at))]
    fn at(buffer: &'a [u8], place: usize) -> Result<Table<'a>, FlatFault>
        ensures { result ≡ table_at buffer.now place }
    {
        let back = numbers::i32_at(buffer, place)?;
        let vtable = place_before(place, back)?;
        let size = numbers::u16_at(buffer, vtable)?;
        Ok(Table {
            buffer,
            place,
            vtable,
            size,
        })
    }

    /// Where the slot's field stands, or none where it is absent.
    #[tactic(auto, unfolding(crate::specs::Reading::field_at, crate::specs::Reading::entry_at))]
    fn field(&self, slot: u16) -> Result<Option<usize>, FlatFault>
        ensures { result ≡ field_at self.now.buffer self.now.place slot }
    {
        let entry = 4 + 2 * usize::from(slot);
        if usize::from(self.size) < entry + 2 {
            return Ok(None);
        }
        let offset = numbers::u16_at(self.buffer, self.vtable + entry)?;
        Ok(if offset == 0 {
            None
        } else {
            Some(self.place + usize::from(offset))
        })
    }

    /// Whether the slot's field is there, of which it needs no byte. Where the slot's entry lies outside the buffer it isn't.
    pub fn has(&self, slot: u16) -> bool
        ensures { IsTrue result ↔ ((place : ℕ) × FieldAt self.now.buffer self.now.place slot (Some place)) }
    {
        match self.field(slot) {
            Ok(place) => place.is_some(),
            Err(_) => false,
        }
    }

    /// The slot's unsigned number of 1 byte, or none where it is absent.
    pub fn u8_at(&self, slot: u16) -> Result<Option<u8>, FlatFault>
        ensures { result ≡ u8_field self.now slot }
    {
        match self.field(slot)? {
            None => Ok(None),
            Some(place) => Ok(Some(numbers::u8_at(self.buffer, place)?)),
        }
    }

    /// The slot's signed number of 2 bytes, or none where it is absent.
    pub fn i16_at(&self, slot: u16) -> Result<Option<i16>, FlatFault>
        ensures { result ≡ i16_field self.now slot }
    {
        match self.field(slot)? {
            None => Ok(None),
            Some(place) => Ok(Some(numbers::i16_at(self.buffer, place)?)),
        }
    }

    /// The slot's signed number of 4 bytes, or none where it is absent.
    pub fn i32_at(&self, slot: u16) -> Result<Option<i32>, FlatFault>
        ensures { result ≡ i32_field self.now slot }
    {
        match self.field(slot)? {
            None => Ok(None),
            Some(place) => Ok(Some(numbers::i32_at(self.buffer, place)?)),
        }
    }

    /// The slot's signed number of 8 bytes, or none where it is absent.
    pub fn i64_at(&self, slot: u16) -> Result<Option<i64>, FlatFault>
        ensures { result ≡ i64_field self.now slot }
    {
        match self.field(slot)? {
            None => Ok(None),
            Some(place) => Ok(Some(numbers::i64_at(self.buffer, place)?)),
        }
    }

    /// The table that the slot's offset names, or none where it is absent. It needs the offset, the table's i32 and its vtable's size.
    pub fn table_at(&self, slot: u16) -> Result<Option<Table<'a>>, FlatFault>
        ensures { result ≡ table_field self.now slot }
    {
        match self.field(slot)? {
            None => Ok(None),
            Some(place) => Ok(Some(Table::named(self.buffer, place)?)),
        }
    }

    /// The bytes of the text that the slot's offset names, or none where it is absent. It needs the offset, the text's length and its bytes,
    /// and not the zero byte behind them. Whether they are UTF-8 isn't looked at.
    pub fn text_at(&self, slot: u16) -> Result<Option<&'a [u8]>, FlatFault>
        ensures { SeenField (λ text. text.now) result (text_field self.now slot) }
    {
        match self.field(slot)? {
            None => Ok(None),
            Some(place) => Ok(Some(Vector::text(self.buffer, place)?)),
        }
    }

    /// The vector that the slot's offset names, with items of `width` bytes each, or none where it is absent. It needs the offset, the
    /// vector's length and all its items.
    pub fn vector_at(&self, slot: u16, width: usize) -> Result<Option<Vector<'a>>, FlatFault>
        ensures found { result ≡ vector_field self.now slot width }
        ensures width { IfOk result (λ found. IfSome found (λ v. v.width ≡ width)) }
    {
        match self.field(slot)? {
            None => Ok(None),
            Some(place) => Ok(Some(Vector::named(self.buffer, place, width)?)),
        }
    }
}
