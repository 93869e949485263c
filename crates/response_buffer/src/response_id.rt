ghost use Rattle.std.specs.Prelude.{◌≡◌, ◌+◌, ◌*◌, ◌^◌, ◌<◌, ◌≤◌, ◌↔◌, Some, IsSome, IfSome, IfOk};
ghost use Rattle.std.specs.Int.{w128, to_be_bytes};
ghost use Rattle.response_buffer.specs.declared.response_id.ResponseId.{ResponseId};
ghost use Rattle.response_buffer.specs.Ids.{number_of, text_of, Fits, IsResponseId, IsResponseIdText, NumbersDiffer, TextsDiffer};

use cn_base::{OutOfMemory, Text};
use std::alloc::Global;
use uuid::Uuid;

/// The id of one response: a UUID of version 8 (RFC 9562, section 5.8) that holds these three numbers.
#[derive(Clone, Copy, Debug, PartialEq, Eq)]
pub struct ResponseId {
    /// The word that tells one life of the server from another, below 2^48.
    pub boot: u64,
    /// The number of the execution.
    pub number: u32,
    /// The place in the execution's list of responses, counted from 1 and below 2^30. Place 0 names the execution itself.
    pub place: u32,
}

impl ResponseId {
    /// The hyphenated lower-case text of the id.
    pub fn to_text(&self, alloc: Global) -> Result<Text, OutOfMemory>
        requires boot { self.now.boot < 2 ^ 48 }
        requires place { self.now.place < 2 ^ 30 }
        ensures { IfOk result (λ text. text ≡ text_of self.now) }
    {
        let mut buffer = Uuid::encode_buffer();
        let text = self.to_uuid().hyphenated().encode_lower(&mut buffer);
        Text::of(alloc, text)
    }

    /// The id as a UUID.
    fn to_uuid(&self) -> Uuid
        requires boot { self.now.boot < 2 ^ 48 }
        requires place { self.now.place < 2 ^ 30 }
        ensures { result ≡ to_be_bytes w128 (number_of self.now) }
    {
        let high = (self.boot << 16) + (8 << 12);
        let low = (2 << 62) + (u64::from(self.number) << 30) + u64::from(self.place);
        Uuid::from_u64_pair(high, low)
    }

    /// The id that a text spells. `None` for a text that is not the hyphenated lower-case form of an id with a place of at least 1. It
    /// takes no memory.
    pub fn parse(text: &str) -> Option<ResponseId>
        ensures form { IsSome result ↔ IsResponseIdText text.now }
        ensures fits { IfSome result (λ id. Fits id × (1 ≤ id.place)) }
        ensures spelled { IfSome result (λ id. text.now ≡ text_of id) }
        ensures round_trip { (id : ResponseId) → Fits id → 1 ≤ id.place → text.now ≡ text_of id → result ≡ Some id }
    {
        let uuid = Uuid::parse_str(text).ok()?;
        let (high, low) = uuid.as_u64_pair();
        let id = ResponseId::from_halves(high, low)?;
        let mut buffer = Uuid::encode_buffer();
        let spelled = id.to_uuid().hyphenated().encode_lower(&mut buffer);
        (spelled == text).then_some(id)
    }

    /// The id whose 128 bits have these halves.
    fn from_halves(high: u64, low: u64) -> Option<ResponseId>
        ensures form { IsSome result ↔ IsResponseId (high * 2 ^ 64 + low) }
        ensures fits { IfSome result (λ id. Fits id × (1 ≤ id.place)) }
        ensures number { IfSome result (λ id. number_of id ≡ high * 2 ^ 64 + low) }
    {
        let id = ResponseId {
            boot: high >> 16,
            number: (low >> 30 & 0xffff_ffff) as u32,
            place: (low & 0x3fff_ffff) as u32,
        };
        let is_marked = high & 0xffff == 8 << 12 && low >> 62 == 2;
        (is_marked && id.place > 0).then_some(id)
    }
}

/// Two ids whose fields fit their bits have different numbers and different texts.
pub fn ids_differ()
    ensures numbers { NumbersDiffer }
    ensures texts { TextsDiffer }
{}
