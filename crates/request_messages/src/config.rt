ghost use Rattle.std.specs.Prelude.{◌≡◌, ◌≤◌, IfOk};
ghost use Rattle.proto_fields.specs.Views.{seen};
ghost use Rattle.request_messages.specs.Configs as configs;
ghost use Rattle.request_messages.specs.Depths as depths;

use crate::UserContext;
use crate::context_field::{context_depth, context_from};
use crate::operation_reading::operation_in;
use cn_base::{Copied, List, OutOfMemory, Text};
use proto_fields::{Record, text_field};
use response_messages::KeyValue;
use std::alloc::Global;

/// What is asked of a session's settings.
#[derive(Debug, Drop)]
pub enum ConfigOperation {
    /// To set these keys.
    Set { pairs: List<KeyValue> },
    /// The values of these keys.
    Get { keys: List<Text> },
    /// The values of these keys, or the values given here.
    GetWithDefault { pairs: List<KeyValue> },
    /// The values of those of these keys that have one.
    GetOption { keys: List<Text> },
    /// All keys that begin so, or all keys.
    GetAll { prefix: Option<Text> },
    /// To forget these keys.
    Unset { keys: List<Text> },
    /// Whether these keys may be set.
    IsModifiable { keys: List<Text> },
    /// Nothing of these.
    Absent,
}

/// Reads or changes the settings of a session (`base.proto`, ConfigRequest).
#[derive(Debug, Drop)]
pub struct ConfigRequest {
    pub session_id: Text,
    pub user_context: Option<UserContext>,
    pub operation: ConfigOperation,
}

impl Copied for ConfigOperation {
    fn copy(&self, alloc: Global) -> Result<ConfigOperation, OutOfMemory> {
        match self {
            ConfigOperation::Set { pairs } => Ok(ConfigOperation::Set {
                pairs: pairs.copy(alloc)?,
            }),
            ConfigOperation::Get { keys } => Ok(ConfigOperation::Get {
                keys: keys.copy(alloc)?,
            }),
            ConfigOperation::GetWithDefault { pairs } => Ok(ConfigOperation::GetWithDefault {
                pairs: pairs.copy(alloc)?,
            }),
            ConfigOperation::GetOption { keys } => Ok(ConfigOperation::GetOption {
                keys: keys.copy(alloc)?,
            }),
            ConfigOperation::GetAll { prefix } => Ok(ConfigOperation::GetAll {
                prefix: prefix.copy(alloc)?,
            }),
            ConfigOperation::Unset { keys } => Ok(ConfigOperation::Unset {
                keys: keys.copy(alloc)?,
            }),
            ConfigOperation::IsModifiable { keys } => Ok(ConfigOperation::IsModifiable {
                keys: keys.copy(alloc)?,
            }),
            ConfigOperation::Absent => Ok(ConfigOperation::Absent),
        }
    }
}

impl Copied for ConfigRequest {
    fn copy(&self, alloc: Global) -> Result<ConfigRequest, OutOfMemory> {
        Ok(ConfigRequest {
            session_id: self.session_id.copy(alloc)?,
            user_context: self.user_context.copy(alloc)?,
            operation: self.operation.copy(alloc)?,
        })
    }
}

/// The request that a message's records hold. An operation without a member is `Absent`, as an absent one is.
pub fn config_from(alloc: Global, items: &[Record]) -> Result<ConfigRequest, OutOfMemory>
    ensures { IfOk result (λ request. request ≡ configs.config_request_of (seen items.now)) }
{
    Ok(ConfigRequest {
        session_id: text_field(alloc, items, 1)?,
        user_context: context_from(alloc, items)?,
        operation: operation_in(alloc, items)?,
    })
}

/// How many messages are nested in an operation with these pairs.
fn pairs_operation_depth(pairs: &[KeyValue]) -> u32
    ensures exact { result ≡ depths.pairs_operation_depth pairs.now }
    ensures few { result ≤ 3 }
{
    match pairs {
        [] => 2,
        [_, ..] => 3,
    }
}

/// How many messages are nested in the field `operation`.
fn operation_depth(operation: &ConfigOperation) -> u32
    ensures exact { result ≡ depths.operation_depth operation.now }
    ensures few { result ≤ 3 }
{
    match operation {
        ConfigOperation::Set { pairs } => pairs_operation_depth(pairs.as_slice()),
        ConfigOperation::Get { keys: _ } => 2,
        ConfigOperation::GetWithDefault { pairs } => pairs_operation_depth(pairs.as_slice()),
        ConfigOperation::GetOption { keys: _ } => 2,
        ConfigOperation::GetAll { prefix: _ } => 2,
        ConfigOperation::Unset { keys: _ } => 2,
        ConfigOperation::IsModifiable { keys: _ } => 2,
        ConfigOperation::Absent => 0,
    }
}

/// How many messages are nested in the request's message, itself among them. It takes no memory.
pub fn config_depth(request: &ConfigRequest) -> u32
    ensures { result ≡ depths.config_depth request.now }
{
    let inner = context_depth(&request.user_context).max(operation_depth(&request.operation));
    inner + 1
}
