use cn_base::{List, Text};

/// An item of a vector of pairs: two numbers of 8 bytes each.
#[derive(Clone, Copy, Debug, PartialEq, Eq)]
pub struct FlatPair {
    pub first: i64,
    pub second: i64,
}

/// A slot of a table. `O` is what a slot names: an object, or what stands for one.
#[derive(Debug, Drop)]
pub enum FlatSlot<O = FlatObject> {
    /// No field.
    Absent,
    /// A field of 1 byte.
    U8(u8),
    /// A field of 2 bytes.
    I16(i16),
    /// A field of 4 bytes.
    I32(i32),
    /// A field of 8 bytes.
    I64(i64),
    /// A field of 4 bytes, the offset of another object.
    Object(O),
}

/// What a builder puts into a flatbuffer.
#[derive(Debug, Drop)]
pub enum FlatObject {
    /// A table, by slot number.
    Table(List<FlatSlot<FlatObject>>),
    /// A vector of tables.
    Tables(List<FlatObject>),
    /// A vector of pairs.
    Pairs(List<FlatPair>),
    /// A text.
    Text(Text),
}
