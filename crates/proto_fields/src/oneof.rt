ghost use Rattle.std.specs.Prelude.{◌≡◌, ◌≤◌, length, drop, option_map};
ghost use Rattle.std.specs.List.{after_last};
ghost use Rattle.proto_fields.specs.Readings as read;
ghost use Rattle.proto_fields.specs.Views.{field_of, seen, member_of};

use crate::{MessageKind, Record, is_member};

/// The member of a oneof that was set last, and the records since another member was set. Its value is read of these records.
#[derive(Clone, Copy, Debug, PartialEq, Eq)]
pub struct Member<'a> {
    pub number: u32,
    pub since: &'a [Record<'a>],
}

/// The member of the oneof that a record sets.
fn member_in(kind: MessageKind, record: &Record) -> Option<u32>
    ensures { result ≡ read.member_in kind (field_of record.now) }
{
    if is_member(kind, record.number, &record.content) {
        Some(record.number)
    } else {
        None
    }
}

/// Whether a record sets another member than this one.
fn sets_other(kind: MessageKind, number: u32, record: &Record) -> bool
    ensures { result ≡ read.sets_other kind number (field_of record.now) }
{
    is_member(kind, record.number, &record.content) && record.number != number
}

/// The last member that these records set.
fn last_member(kind: MessageKind, records: &[Record]) -> Option<u32>
    ensures { result ≡ read.last_some (read.member_in kind) (seen records.now) }
{
    let mut last = None;
    for record in records {
        last = member_in(kind, record).or(last);
    }
    last
}

/// The place after the last record that sets another member than this one.
fn place_since(kind: MessageKind, number: u32, records: &[Record]) -> usize
    ensures within { result ≤ length records.now }
    ensures since { drop result (seen records.now)
        ≡ after_last (read.sets_other kind number) (seen records.now) }
{
    let mut place = 0;
    for (index, record) in records.iter().enumerate() {
        if sets_other(kind, number, record) {
            place = index + 1;
        }
    }
    place
}

/// The member of the oneof of a message of this kind that was set last ("Oneofs"). No record is copied.
#[tactic(auto, unfolding(crate::specs::Readings::latest))]
pub fn latest<'a>(kind: MessageKind, records: &'a [Record<'a>]) -> Option<Member<'a>>
    ensures { option_map member_of result ≡ read.latest kind (seen records.now) }
{
    match last_member(kind, records) {
        Some(number) => {
            let (_, since) = records.split_at(place_since(kind, number, records));
            Some(Member { number, since })
        }
        None => None,
    }
}
