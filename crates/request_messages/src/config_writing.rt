ghost use Rattle.std.specs.Prelude.{◌≡◌, ◌≤◌, ◌++◌, OnOk};
ghost use Rattle.proto_fields.specs.Sizes.{size_of};
ghost use Rattle.proto_fields.specs.Spelling.{spell};
ghost use Rattle.request_messages.specs.Configs as configs;

use crate::context_field::{context_size, put_context};
use crate::{ConfigOperation, ConfigRequest};
use cn_base::{OutOfMemory, Text};
use expression_messages::{put_message_head, put_texts, texts_size};
use proto_fields::{MessageWriter, message_size, optional_text_size, text_size};
use response_messages::{KeyValue, pairs_size, put_pairs};

/// Puts an operation with these pairs, its member of this number, before what stands.
fn put_pairs_operation(
    out: &mut MessageWriter,
    number: u32,
    pairs: &[KeyValue],
) -> Result<(), OutOfMemory>
    requires low { 1 ≤ number }
    requires high { number ≤ 536870911 }
    ensures { OnOk result (out.new ≡ spell (configs.pairs_operation number pairs.now) ++ out.old) }
{
    let end = out.len();
    put_pairs(out, 1, pairs)?;
    put_message_head(out, number, end)?;
    put_message_head(out, 3, end)
}

/// Puts an operation with these keys, its member of this number, before what stands.
fn put_keys_operation(
    out: &mut MessageWriter,
    number: u32,
    keys: &[Text],
) -> Result<(), OutOfMemory>
    requires low { 1 ≤ number }
    requires high { number ≤ 536870911 }
    ensures { OnOk result (out.new ≡ spell (configs.keys_operation number keys.now) ++ out.old) }
{
    let end = out.len();
    put_texts(out, 1, keys)?;
    put_message_head(out, number, end)?;
    put_message_head(out, 3, end)
}

/// Puts an operation with this prefix, its member of this number, before what stands.
fn put_prefix_operation(
    out: &mut MessageWriter,
    number: u32,
    prefix: &Option<Text>,
) -> Result<(), OutOfMemory>
    requires low { 1 ≤ number }
    requires high { number ≤ 536870911 }
    ensures { OnOk result (out.new ≡ spell (configs.prefix_operation number prefix.now) ++ out.old) }
{
    let end = out.len();
    out.put_optional_text(1, prefix)?;
    put_message_head(out, number, end)?;
    put_message_head(out, 3, end)
}

/// Puts the field `operation` before what stands, or nothing where it is absent.
#[tactic(auto, using(expression_messages::proofs::Written::spell_nil))]
fn put_operation(out: &mut MessageWriter, operation: &ConfigOperation) -> Result<(), OutOfMemory>
    ensures { OnOk result (out.new ≡ spell (configs.operation_fields operation.now) ++ out.old) }
{
    match operation {
        ConfigOperation::Set { pairs } => put_pairs_operation(out, 1, pairs.as_slice()),
        ConfigOperation::Get { keys } => put_keys_operation(out, 2, keys.as_slice()),
        ConfigOperation::GetWithDefault { pairs } => put_pairs_operation(out, 3, pairs.as_slice()),
        ConfigOperation::GetOption { keys } => put_keys_operation(out, 4, keys.as_slice()),
        ConfigOperation::GetAll { prefix } => put_prefix_operation(out, 5, prefix),
        ConfigOperation::Unset { keys } => put_keys_operation(out, 6, keys.as_slice()),
        ConfigOperation::IsModifiable { keys } => put_keys_operation(out, 7, keys.as_slice()),
        ConfigOperation::Absent => Ok(()),
    }
}

/// Puts the request's message before what stands. Where memory runs out, nothing is promised of what stands then.
#[tactic(auto, using(expression_messages::proofs::Written::stand_three))]
pub fn put_config(out: &mut MessageWriter, request: &ConfigRequest) -> Result<(), OutOfMemory>
    ensures { OnOk result (out.new ≡ spell (configs.config_fields request.now) ++ out.old) }
{
    put_operation(out, &request.operation)?;
    put_context(out, &request.user_context)?;
    out.put_text(1, request.session_id.as_str())
}

/// How many bytes an operation with these pairs takes; 2^64 - 1 where it is above that.
fn pairs_operation_size(number: u32, pairs: &[KeyValue]) -> u64
    requires low { 1 ≤ number }
    requires high { number ≤ 536870911 }
    ensures { result ≡ size_of (configs.pairs_operation number pairs.now) }
{
    message_size(3, message_size(number, pairs_size(1, pairs)))
}

/// How many bytes an operation with these keys takes; 2^64 - 1 where it is above that.
fn keys_operation_size(number: u32, keys: &[Text]) -> u64
    requires low { 1 ≤ number }
    requires high { number ≤ 536870911 }
    ensures { result ≡ size_of (configs.keys_operation number keys.now) }
{
    message_size(3, message_size(number, texts_size(1, keys)))
}

/// How many bytes an operation with this prefix takes; 2^64 - 1 where it is above that.
fn prefix_operation_size(number: u32, prefix: &Option<Text>) -> u64
    requires low { 1 ≤ number }
    requires high { number ≤ 536870911 }
    ensures { result ≡ size_of (configs.prefix_operation number prefix.now) }
{
    message_size(3, message_size(number, optional_text_size(1, prefix)))
}

/// How many bytes the field `operation` takes: none where it is absent, 2^64 - 1 where it is above that.
#[tactic(auto, using(expression_messages::proofs::Measured::size_of_nil))]
fn operation_size(operation: &ConfigOperation) -> u64
    ensures { result ≡ size_of (configs.operation_fields operation.now) }
{
    match operation {
        ConfigOperation::Set { pairs } => pairs_operation_size(1, pairs.as_slice()),
        ConfigOperation::Get { keys } => keys_operation_size(2, keys.as_slice()),
        ConfigOperation::GetWithDefault { pairs } => pairs_operation_size(3, pairs.as_slice()),
        ConfigOperation::GetOption { keys } => keys_operation_size(4, keys.as_slice()),
        ConfigOperation::GetAll { prefix } => prefix_operation_size(5, prefix),
        ConfigOperation::Unset { keys } => keys_operation_size(6, keys.as_slice()),
        ConfigOperation::IsModifiable { keys } => keys_operation_size(7, keys.as_slice()),
        ConfigOperation::Absent => 0,
    }
}

/// How many bytes the request's message takes; 2^64 - 1 where it is above that. It takes no memory.
#[tactic(auto, using(expression_messages::proofs::Measured::sized_three))]
pub fn config_size(request: &ConfigRequest) -> u64
    ensures { result ≡ size_of (configs.config_fields request.now) }
{
    let session = text_size(1, request.session_id.as_str());
    let context = context_size(&request.user_context);
    let operation = operation_size(&request.operation);
    session.saturating_add(context).saturating_add(operation)
}
