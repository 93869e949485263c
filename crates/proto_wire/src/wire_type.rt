ghost use Rattle.std.specs.Prelude.{◌≡◌};
ghost use Rattle.proto_wire.specs.Reading as reading;

/// A wire type that a record can have ("Message Structure").
#[derive(Clone, Copy)]
pub enum WireType {
    /// 0, a varint.
    Base128,
    /// 1, eight bytes.
    Fixed64,
    /// 2, a length and so many bytes.
    Delimited,
    /// 5, four bytes.
    Fixed32,
}

/// The wire type of this number, where it is one.
#[tactic(auto, unfolding(crate::specs::Reading::wire_type))]
pub fn type_of_number(number: u64) -> Option<WireType>
    ensures { result ≡ reading.wire_type number }
{
    match number {
        0 => Some(WireType::Base128),
        1 => Some(WireType::Fixed64),
        2 => Some(WireType::Delimited),
        5 => Some(WireType::Fixed32),
        _ => None,
    }
}
