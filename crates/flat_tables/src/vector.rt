ghost use Rattle.std.specs.Prelude.{◌≡◌, ◌+◌, ◌*◌, ◌^◌, ◌<◌, ◌≤◌, length, IsTrue, ◌↔◌, IfOk};
ghost use Rattle.flat_tables.specs.Reading.{items_from, items_bytes, item_bytes, named_vector, named_text, item_table, Seen};

use crate::{FlatFault, Table, numbers};
use std::marker::Model;

/// A vector of a flatbuffer (FlatBuffers internals, "Strings and vectors"), all of whose items lie in the buffer. Its calls take no memory.
#[derive(Debug, Drop)]
pub struct Vector<'a> {
    buffer: &'a [u8],
    start: usize,
    count: usize,
    width: usize,
}

impl<'a> Model for Vector<'a> {
    ghost use Rattle.std.specs.Prelude.{◌+◌, ◌*◌, ◌≤◌, length};
    ghost use Rattle.flat_tables.specs.Views.{VectorView};

    ghost Value = { VectorView };

    ghost view = { λ v. record { buffer = v.buffer.now; start = v.start; count = v.count; width = v.width } };

    ghost invariant = { λ v. v.start + v.count * v.width ≤ length v.buffer.now };
}

impl<'a> Vector<'a> {
    /// The vector that the offset at `place` names.
    #[tactic(auto, unfolding(crate::specs::Reading::named_vector))]
    pub(crate) fn named(
        buffer: &'a [u8],
        place: usize,
        width: usize,
    ) -> Result<Vector<'a>, FlatFault>
        ensures vector { result ≡ named_vector buffer.now width place }
        ensures width { IfOk result (λ v. v.width ≡ width) }
    {
        let vector = numbers::target_at(buffer, place)?;
        let count = numbers::u32_at(buffer, vector)?;
        Vector::from_start(buffer, vector + 4, count as usize, width)
    }

    /// `count` items of `width` bytes each from `start` on.
    #[tactic(auto, unfolding(crate::specs::Reading::items_from))]
    fn from_start(
        buffer: &'a [u8],
        start: usize,
        count: usize,
        width: usize,
    ) -> Result<Vector<'a>, FlatFault>
        requires { start ≤ length buffer.now }
        ensures vector { result ≡ items_from buffer.now start count width }
        ensures width { IfOk result (λ v. v.width ≡ width) }
    {
        match count.checked_mul(width) {
            Some(size) if size <= buffer.len() - start => Ok(Vector {
                buffer,
                start,
                count,
                width,
            }),
            _ => Err(FlatFault::OutOfRange { at: buffer.len() }),
        }
    }

    /// The bytes of the text that the offset at `place` names.
    #[tactic(auto, unfolding(crate::specs::Reading::named_text))]
    pub(crate) fn text(buffer: &'a [u8], place: usize) -> Result<&'a [u8], FlatFault>
        ensures { Seen (λ text. text.now) result (named_text buffer.now place) }
    {
        let vector = Vector::named(buffer, place, 1)?;
        Ok(vector.bytes())
    }

    /// All items, one after another.
    fn bytes(&self) -> &'a [u8]
        ensures { result.now ≡ items_bytes self.now }
    {
        &self.buffer[self.start..self.start + self.count * self.width]
    }

    /// The number of items.
    pub fn len(&self) -> usize
        ensures { result ≡ self.now.count }
    {
        self.count
    }

    /// Whether there is no item.
    pub fn is_empty(&self) -> bool
        ensures { IsTrue result ↔ (self.now.count ≡ 0) }
    {
        self.count == 0
    }

    /// The bytes of the item at `place`, counted from 0.
    pub fn item(&self, place: usize) -> &'a [u8]
        requires { place < self.now.count }
        ensures bytes { result.now ≡ item_bytes self.now place }
        ensures length { length result.now ≡ self.now.width }
    {
        let start = self.start + place * self.width;
        &self.buffer[start..start + self.width]
    }

    /// The table that the item at `place` names. The vector's items have to be offsets, of 4 bytes each. `OutOfRange` exactly where a byte
    /// of the table's i32 or of its vtable's size lies outside the buffer.
    pub fn table(&self, place: usize) -> Result<Table<'a>, FlatFault>
        requires within { place < self.now.count }
        requires offsets { self.now.width ≡ 4 }
        ensures { result ≡ item_table self.now place }
    {
        Table::named(self.buffer, self.start + place * 4)
    }
}
