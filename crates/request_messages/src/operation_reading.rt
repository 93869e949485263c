ghost use Rattle.std.specs.Prelude.{◌≡◌, IfOk};
ghost use Rattle.proto_fields.specs.Views.{seen, member_of};
ghost use Rattle.request_messages.specs.Configs as configs;

use crate::ConfigOperation;
use cn_base::{List, OutOfMemory, Text};
use expression_messages::message_records;
use proto_fields::{Member, MessageKind, Record, latest, optional_text, texts};
use response_messages::{KeyValue, pairs_from};
use std::alloc::Global;

/// The pairs of the member with this number.
fn pairs_of_member(
    alloc: Global,
    member: &Member,
    number: u32,
) -> Result<List<KeyValue>, OutOfMemory>
    ensures { IfOk result
        (λ pairs. pairs ≡ configs.pairs_in number (member_of member.now)) }
{
    let found = message_records(alloc, member.since, number)?;
    pairs_from(alloc, found.as_slice(), 1)
}

/// The keys of the member with this number.
fn keys_of_member(alloc: Global, member: &Member, number: u32) -> Result<List<Text>, OutOfMemory>
    ensures { IfOk result (λ keys. keys ≡ configs.keys_in number (member_of member.now)) }
{
    let found = message_records(alloc, member.since, number)?;
    texts(alloc, found.as_slice(), 1)
}

/// The prefix of the member with this number.
fn prefix_of_member(
    alloc: Global,
    member: &Member,
    number: u32,
) -> Result<Option<Text>, OutOfMemory>
    ensures { IfOk result (λ prefix. prefix ≡ configs.prefix_in number (member_of member.now)) }
{
    let found = message_records(alloc, member.since, number)?;
    optional_text(alloc, found.as_slice(), 1)
}

/// The operation that a member of the oneof is.
fn operation_of_member(alloc: Global, member: &Member) -> Result<ConfigOperation, OutOfMemory>
    ensures { IfOk result
        (λ operation. operation ≡ configs.operation_member (member_of member.now)) }
{
    match member.number {
        1 => {
            let pairs = pairs_of_member(alloc, member, 1)?;
            Ok(ConfigOperation::Set { pairs })
        }
        2 => {
            let keys = keys_of_member(alloc, member, 2)?;
            Ok(ConfigOperation::Get { keys })
        }
        3 => {
            let pairs = pairs_of_member(alloc, member, 3)?;
            Ok(ConfigOperation::GetWithDefault { pairs })
        }
        4 => {
            let keys = keys_of_member(alloc, member, 4)?;
            Ok(ConfigOperation::GetOption { keys })
        }
        5 => {
            let prefix = prefix_of_member(alloc, member, 5)?;
            Ok(ConfigOperation::GetAll { prefix })
        }
        6 => {
            let keys = keys_of_member(alloc, member, 6)?;
            Ok(ConfigOperation::Unset { keys })
        }
        _ => {
            let keys = keys_of_member(alloc, member, 7)?;
            Ok(ConfigOperation::IsModifiable { keys })
        }
    }
}

/// The operation that a request's records hold.
pub(crate) fn operation_in(alloc: Global, items: &[Record]) -> Result<ConfigOperation, OutOfMemory>
    ensures { IfOk result (λ operation. operation ≡ configs.operation_in (seen items.now)) }
{
    let found = message_records(alloc, items, 3)?;
    match latest(MessageKind::ConfigOperation, found.as_slice()) {
        Some(member) => operation_of_member(alloc, &member),
        None => Ok(ConfigOperation::Absent),
    }
}
