ghost use Rattle.std.specs.Prelude.{◌≡◌, ◌+◌, ◌*◌, ◌^◌, ◌≤◌, ◌↔◌, length, map, min, IsTrue};
ghost use Rattle.std.specs.List.{All};
ghost use Rattle.std.specs.Int.{next_multiple_of};
ghost use Rattle.flat_tables.specs.Layout.{CanBePut, IsTable, IsBuildable, OnNamed, block, slot_map, table_block, tables_block, pairs_block, text_block};

use crate::{FlatObject, FlatPair, FlatSlot, slots};

/// A buffer has fewer bytes than this.
const LIMIT: usize = 0x8000_0000;

impl FlatObject {
    /// Whether a builder takes the object: it is a table, each table in it has at most 4,096 slots, each item of a vector of tables is a
    /// table, and the whole flatbuffer has fewer than 2^31 bytes. It takes no memory.
    pub fn can_be_put(&self) -> bool
        ensures { IsTrue result ↔ CanBePut self.now }
    {
        is_table(self) && is_buildable(self) && 8 + size(self) < LIMIT
    }
}

fn is_table(object: &FlatObject) -> bool
    ensures { IsTrue result ↔ IsTable object.now }
{
    match object {
        FlatObject::Table(_) => true,
        FlatObject::Tables(_) => false,
        FlatObject::Pairs(_) => false,
        FlatObject::Text(_) => false,
    }
}

#[cycle(checks)]
fn is_buildable(object: &FlatObject) -> bool
    ensures { IsTrue result ↔ IsBuildable object.now }
{
    match object {
        FlatObject::Table(slots) => slots.len() <= 4096 && slots_are_buildable(slots.as_slice()),
        FlatObject::Tables(tables) => tables_are_buildable(tables.as_slice()),
        FlatObject::Pairs(_) => true,
        FlatObject::Text(_) => true,
    }
}

#[cycle(checks)]
fn slots_are_buildable(slots: &[FlatSlot]) -> bool
    ensures { IsTrue result ↔ All (OnNamed IsBuildable) slots.now }
{
    for slot in slots {
        if let FlatSlot::Object(object) = slot {
            if !is_buildable(object) {
                return false;
            }
        }
    }
    true
}

#[cycle(checks)]
fn tables_are_buildable(tables: &[FlatObject]) -> bool
    ensures { IsTrue result ↔ (All IsTable tables.now × All IsBuildable tables.now) }
{
    for table in tables {
        if !is_table(table) || !is_buildable(table) {
            return false;
        }
    }
    true
}

/// How many bytes an object has with all that it names, or `LIMIT` where there are more.
#[cycle(sizes)]
pub(crate) fn size(object: &FlatObject) -> usize
    requires { IsBuildable object.now }
    ensures { result ≡ min (length (block object.now).bytes) (2 ^ 31) }
{
    match object {
        FlatObject::Table(slots) => size_of_table(slots.as_slice()),
        FlatObject::Tables(tables) => size_of_tables(tables.as_slice()),
        FlatObject::Pairs(pairs) => size_of_pairs(pairs.as_slice()),
        FlatObject::Text(text) => size_of_text(text.as_str()),
    }
}

#[cycle(sizes)]
fn size_of_table(slots: &[FlatSlot]) -> usize
    requires few { length slots.now ≤ 4096 }
    requires buildable { All (OnNamed IsBuildable) slots.now }
    ensures { result ≡ min (length (table_block (map (slot_map block) slots.now)).bytes) (2 ^ 31) }
{
    let mut total = slots::size_of_own(slots);
    for slot in slots {
        if let FlatSlot::Object(object) = slot {
            total = LIMIT.min(total + size(object));
        }
    }
    total
}

#[cycle(sizes)]
fn size_of_tables(tables: &[FlatObject]) -> usize
    requires { All IsBuildable tables.now }
    ensures { result ≡ min (length (tables_block (map block tables.now)).bytes) (2 ^ 31) }
{
    let mut total = size_of_vector(tables.len(), 4);
    for table in tables {
        total = LIMIT.min(total + size(table));
    }
    total
}

fn size_of_pairs(pairs: &[FlatPair]) -> usize
    ensures { result ≡ min (length (pairs_block pairs.now).bytes) (2 ^ 31) }
{
    size_of_vector(pairs.len(), 16)
}

fn size_of_text(text: &str) -> usize
    ensures { result ≡ min (length (text_block text.now).bytes) (2 ^ 31) }
{
    size_of_vector(text.len() + 1, 1)
}

/// How many bytes a vector of so many items of `width` bytes has, or `LIMIT` where there are more.
fn size_of_vector(count: usize, width: usize) -> usize
    requires { width ≤ 16 }
    ensures { result ≡ min (next_multiple_of (8 + width * count) 8) (2 ^ 31) }
{
    let count = count.min(LIMIT);
    LIMIT.min((8 + width * count).next_multiple_of(8))
}
