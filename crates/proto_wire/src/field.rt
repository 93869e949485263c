/// The value of a record, by its wire type. The places of a span count bytes of the input from 0.
#[derive(Clone, Copy, Debug, PartialEq, Eq)]
pub enum WireValue {
    /// Wire type 0: a varint modulo 2^64.
    Varint(u64),
    /// Wire type 1: eight bytes, the least significant first.
    Eight(u64),
    /// Wire type 2: the payload is the bytes from `start` up to `end`, which isn't in it.
    Span { start: usize, end: usize },
    /// Wire type 5: four bytes, the least significant first.
    Four(u32),
}

/// One record of a message: its field number, from 1 to 536,870,911, the place of its tag's first byte, and its value.
#[derive(Clone, Copy, Debug, PartialEq, Eq)]
pub struct WireField {
    pub number: u32,
    pub at: usize,
    pub value: WireValue,
}
