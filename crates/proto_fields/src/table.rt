ghost use Rattle.std.specs.Prelude.{◌≡◌};
ghost use Rattle.std.specs.Option.{option_copied};
ghost use Rattle.proto_fields.specs.Kinds as kinds;
ghost use Rattle.proto_fields.specs.Views.{content_of};

use crate::PayloadKind::{Message, Text};
use crate::{Content, MessageKind, MessageKind as K, PayloadKind};

/// The payloads of `ExecutePlanRequest`.
const EXECUTE_PLAN_REQUEST: [(u32, PayloadKind); 6] = [
    (1, Text),
    (2, Message(K::UserContext)),
    (3, Message(K::Plan)),
    (5, Message(K::RequestOption)),
    (6, Text),
    (7, Text),
];

/// The payloads of `ExecutePlanResponse`.
const EXECUTE_PLAN_RESPONSE: [(u32, PayloadKind); 6] = [
    (1, Text),
    (2, Message(K::ArrowBatch)),
    (7, Message(K::DataType)),
    (12, Text),
    (13, Text),
    (14, Message(K::Empty)),
];

/// The payloads of `ReattachExecuteRequest`.
const REATTACH_EXECUTE_REQUEST: [(u32, PayloadKind); 4] = [
    (1, Text),
    (2, Message(K::UserContext)),
    (3, Text),
    (5, Text),
];

/// The payloads of `ReleaseExecuteRequest`.
const RELEASE_EXECUTE_REQUEST: [(u32, PayloadKind); 5] = [
    (1, Text),
    (2, Message(K::UserContext)),
    (3, Text),
    (5, Message(K::Empty)),
    (6, Message(K::ReleaseUntil)),
];

/// The payloads of `AnalyzePlanRequest`.
const ANALYZE_PLAN_REQUEST: [(u32, PayloadKind); 5] = [
    (1, Text),
    (2, Message(K::UserContext)),
    (4, Message(K::AnalyzedPlan)),
    (8, Message(K::AnalyzedPlan)),
    (10, Message(K::Empty)),
];

/// The payloads of `AnalyzePlanResponse`.
const ANALYZE_PLAN_RESPONSE: [(u32, PayloadKind); 4] = [
    (1, Text),
    (2, Message(K::SchemaAnswer)),
    (6, Message(K::IsStreamingAnswer)),
    (8, Message(K::SparkVersionAnswer)),
];

/// The payloads of `ConfigRequest`.
const CONFIG_REQUEST: [(u32, PayloadKind); 3] = [
    (1, Text),
    (2, Message(K::UserContext)),
    (3, Message(K::ConfigOperation)),
];

/// The payloads of `ConfigOperation`.
const CONFIG_OPERATION: [(u32, PayloadKind); 7] = [
    (1, Message(K::ConfigPairs)),
    (2, Message(K::ConfigKeys)),
    (3, Message(K::ConfigPairs)),
    (4, Message(K::ConfigKeys)),
    (5, Message(K::ConfigPrefix)),
    (6, Message(K::ConfigKeys)),
    (7, Message(K::ConfigKeys)),
];

/// The payloads of `InterruptRequest`.
const INTERRUPT_REQUEST: [(u32, PayloadKind); 4] = [
    (1, Text),
    (2, Message(K::UserContext)),
    (5, Text),
    (6, Text),
];

/// The payloads of `Relation`.
const RELATION: [(u32, PayloadKind); 18] = [
    (1, Message(K::RelationCommon)),
    (2, Message(K::Read)),
    (3, Message(K::Project)),
    (4, Message(K::Filter)),
    (5, Message(K::Join)),
    (6, Message(K::SetOperation)),
    (7, Message(K::Sort)),
    (8, Message(K::Limit)),
    (9, Message(K::Aggregate)),
    (11, Message(K::LocalRelation)),
    (13, Message(K::Offset)),
    (14, Message(K::Deduplicate)),
    (15, Message(K::Range)),
    (16, Message(K::SubqueryAlias)),
    (18, Message(K::ToDf)),
    (19, Message(K::WithColumnsRenamed)),
    (21, Message(K::Drop)),
    (23, Message(K::WithColumns)),
];

/// The payloads of `Join`.
const JOIN: [(u32, PayloadKind); 4] = [
    (1, Message(K::Relation)),
    (2, Message(K::Relation)),
    (3, Message(K::Expression)),
    (5, Text),
];

/// The payloads of `Aggregate`.
const AGGREGATE: [(u32, PayloadKind); 3] = [
    (1, Message(K::Relation)),
    (3, Message(K::Expression)),
    (4, Message(K::Expression)),
];

/// The payloads of `Drop`.
const DROP: [(u32, PayloadKind); 3] = [
    (1, Message(K::Relation)),
    (2, Message(K::Expression)),
    (3, Text),
];

/// The payloads of `Expression`.
const EXPRESSION: [(u32, PayloadKind); 7] = [
    (1, Message(K::Literal)),
    (2, Message(K::UnresolvedAttribute)),
    (3, Message(K::UnresolvedFunction)),
    (5, Message(K::UnresolvedStar)),
    (6, Message(K::Alias)),
    (7, Message(K::Cast)),
    (9, Message(K::SortOrder)),
];

/// The payloads of `Cast`.
const CAST: [(u32, PayloadKind); 3] = [
    (1, Message(K::Expression)),
    (2, Message(K::DataType)),
    (3, Text),
];

/// The payloads of `DataType`.
const DATA_TYPE: [(u32, PayloadKind); 9] = [
    (1, Message(K::Empty)),
    (3, Message(K::Empty)),
    (4, Message(K::Empty)),
    (5, Message(K::Empty)),
    (6, Message(K::Empty)),
    (7, Message(K::Empty)),
    (11, Message(K::Empty)),
    (14, Message(K::Empty)),
    (21, Message(K::StructType)),
];

/// The payloads of `WriteOperation`.
const WRITE_OPERATION: [(u32, PayloadKind); 3] = [
    (1, Message(K::Relation)),
    (2, Text),
    (4, Message(K::SaveTable)),
];

/// The payloads of requests and answers, and of the messages that only these hold.
fn request_payloads(kind: MessageKind) -> &'static [(u32, PayloadKind)]
    ensures { result.now ≡ kinds.request_payloads kind }
{
    match kind {
        K::UserContext => &[(1, Text)],
        K::KeyValue => &[(1, Text), (2, Text)],
        K::ExecutePlanRequest => &EXECUTE_PLAN_REQUEST,
        K::RequestOption => &[(1, Message(K::ReattachOptions))],
        K::ExecutePlanResponse => &EXECUTE_PLAN_RESPONSE,
        K::ReattachExecuteRequest => &REATTACH_EXECUTE_REQUEST,
        K::ReleaseExecuteRequest => &RELEASE_EXECUTE_REQUEST,
        K::ReleaseUntil => &[(1, Text)],
        K::ReleaseExecuteResponse => &[(1, Text), (2, Text)],
        K::AnalyzePlanRequest => &ANALYZE_PLAN_REQUEST,
        K::AnalyzedPlan => &[(1, Message(K::Plan))],
        K::AnalyzePlanResponse => &ANALYZE_PLAN_RESPONSE,
        K::SchemaAnswer => &[(1, Message(K::DataType))],
        K::SparkVersionAnswer => &[(1, Text)],
        K::ConfigRequest => &CONFIG_REQUEST,
        K::ConfigOperation => &CONFIG_OPERATION,
        K::ConfigPairs => &[(1, Message(K::KeyValue))],
        K::ConfigKeys => &[(1, Text)],
        K::ConfigPrefix => &[(1, Text)],
        K::ConfigResponse => &[(1, Text), (2, Message(K::KeyValue))],
        K::InterruptRequest => &INTERRUPT_REQUEST,
        K::InterruptResponse => &[(1, Text), (2, Text)],
        _ => &[],
    }
}

/// The payloads of plans and relations, and of the messages that only these hold.
fn relation_payloads(kind: MessageKind) -> &'static [(u32, PayloadKind)]
    ensures { result.now ≡ kinds.relation_payloads kind }
{
    match kind {
        K::Plan => &[(1, Message(K::Relation)), (2, Message(K::Command))],
        K::Relation => &RELATION,
        K::Read => &[(1, Message(K::NamedTable))],
        K::NamedTable => &[(1, Text)],
        K::Project => &[(1, Message(K::Relation)), (3, Message(K::Expression))],
        K::Filter => &[(1, Message(K::Relation)), (2, Message(K::Expression))],
        K::Join => &JOIN,
        K::SetOperation => &[(1, Message(K::Relation)), (2, Message(K::Relation))],
        K::Sort => &[(1, Message(K::Relation)), (2, Message(K::SortOrder))],
        K::Limit => &[(1, Message(K::Relation))],
        K::Offset => &[(1, Message(K::Relation))],
        K::Aggregate => &AGGREGATE,
        K::LocalRelation => &[(2, Text)],
        K::SubqueryAlias => &[(1, Message(K::Relation)), (2, Text), (3, Text)],
        K::ToDf => &[(1, Message(K::Relation)), (2, Text)],
        K::WithColumnsRenamed => &[(1, Message(K::Relation)), (2, Message(K::RenameEntry))],
        K::RenameEntry => &[(1, Text), (2, Text)],
        K::Drop => &DROP,
        K::WithColumns => &[(1, Message(K::Relation)), (2, Message(K::Alias))],
        K::Deduplicate => &[(1, Message(K::Relation)), (2, Text)],
        _ => &[],
    }
}

/// The payloads of expressions, types and commands, and of the messages that only these hold.
fn expression_payloads(kind: MessageKind) -> &'static [(u32, PayloadKind)]
    ensures { result.now ≡ kinds.expression_payloads kind }
{
    match kind {
        K::Expression => &EXPRESSION,
        K::Literal => &[(1, Message(K::DataType)), (13, Text)],
        K::UnresolvedAttribute => &[(1, Text)],
        K::UnresolvedFunction => &[(1, Text), (2, Message(K::Expression))],
        K::UnresolvedStar => &[(1, Text)],
        K::Alias => &[(1, Message(K::Expression)), (2, Text)],
        K::Cast => &CAST,
        K::SortOrder => &[(1, Message(K::Expression))],
        K::DataType => &DATA_TYPE,
        K::StructType => &[(1, Message(K::StructField))],
        K::StructField => &[(1, Text), (2, Message(K::DataType))],
        K::Command => &[(2, Message(K::WriteOperation))],
        K::WriteOperation => &WRITE_OPERATION,
        K::SaveTable => &[(1, Text)],
        _ => &[],
    }
}

/// What stands beside this number.
fn payload_at(number: u32, entries: &[(u32, PayloadKind)]) -> Option<PayloadKind>
    ensures { result ≡ kinds.payload_at number entries.now }
{
    for entry in entries {
        if entry.0 == number {
            return Some(entry.1);
        }
    }
    None
}

/// What a payload of this number is in a message of this kind: a message, a text, or neither.
#[tactic(auto, unfolding(crate::specs::Kinds::payload_of))]
pub fn payload_of(kind: MessageKind, number: u32) -> PayloadKind
    ensures { result ≡ kinds.payload_of kind number }
{
    payload_at(number, request_payloads(kind))
        .or(payload_at(number, relation_payloads(kind)).or(payload_at(
            number,
            expression_payloads(kind),
        )))
        .unwrap_or(PayloadKind::Other)
}

/// Whether a payload of this number sets a member of the oneof of a message of this kind.
fn is_payload_member(kind: MessageKind, number: u32) -> bool
    ensures { result ≡ kinds.is_payload_member kind number }
{
    match kind {
        K::Plan => number == 1 || number == 2,
        K::ExecutePlanResponse => number == 2 || number == 14,
        K::ReleaseExecuteRequest | K::InterruptRequest => number == 5 || number == 6,
        K::AnalyzePlanRequest => number > 3,
        K::AnalyzePlanResponse => number == 2 || number == 6 || number == 8,
        K::ConfigOperation => number < 8,
        K::Relation => number > 1,
        K::Literal => number == 1 || number == 13,
        K::Cast => number == 2 || number == 3,
        K::Expression | K::DataType | K::Command => true,
        _ => false,
    }
}

/// Whether a varint of this number sets a member of the oneof of a message of this kind.
fn is_number_member(kind: MessageKind, number: u32) -> bool
    ensures { result ≡ kinds.is_number_member kind number }
{
    match kind {
        K::Literal => number == 3 || number == 6 || number == 7 || number == 16,
        _ => false,
    }
}

/// Whether a record with this number and content sets a member of the oneof of a message of this kind.
#[tactic(auto, unfolding(crate::specs::Kinds::is_member))]
pub fn is_member(kind: MessageKind, number: u32, content: &Content) -> bool
    ensures { result ≡ kinds.is_member kind number (content_of content.now) }
{
    match content {
        Content::Number(_) => is_number_member(kind, number),
        Content::Payload(_) => is_payload_member(kind, number),
        Content::Eight(_) | Content::Four(_) => false,
    }
}
