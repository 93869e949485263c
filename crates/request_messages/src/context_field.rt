ghost use Rattle.std.specs.Prelude.{◌≡◌, ◌≤◌, ◌++◌, IfOk, OnOk};
ghost use Rattle.proto_fields.specs.Sizes.{size_of};
ghost use Rattle.proto_fields.specs.Spelling.{spell};
ghost use Rattle.proto_fields.specs.Views.{seen};
ghost use Rattle.request_messages.specs.Depths as depths;
ghost use Rattle.request_messages.specs.Requests as requests;
ghost use Rattle.request_messages.specs.Spelled as spelled;

use crate::UserContext;
use crate::user_context::{put_user_context, user_context_from, user_context_size};
use cn_base::OutOfMemory;
use expression_messages::put_message_head;
use proto_fields::{MessageWriter, Record, merged, message_size};
use std::alloc::Global;

/// The user whom the records of a request name by the field `user_context`, number 2; `None` where it is absent.
pub fn context_from(alloc: Global, items: &[Record]) -> Result<Option<UserContext>, OutOfMemory>
    ensures { IfOk result (λ context. context ≡ requests.context_of (seen items.now)) }
{
    match merged(alloc, items, 2)? {
        Some(found) => Ok(Some(user_context_from(alloc, found.as_slice())?)),
        None => Ok(None),
    }
}

/// Puts the field `user_context` of a request before what stands, where it is present. Where memory runs out, nothing is promised of what
/// stands then.
#[tactic(auto, using(expression_messages::proofs::Written::spell_nil))]
pub fn put_context(
    out: &mut MessageWriter,
    context: &Option<UserContext>,
) -> Result<(), OutOfMemory>
    ensures { OnOk result (out.new ≡ spell (spelled.context_fields context.now) ++ out.old) }
{
    match context {
        Some(present) => {
            let end = out.len();
            put_user_context(out, present)?;
            put_message_head(out, 2, end)
        }
        None => Ok(()),
    }
}

/// How many bytes the field `user_context` of a request takes: none where it is absent, 2^64 - 1 where it is above that. It takes no memory.
#[tactic(auto, using(expression_messages::proofs::Measured::size_of_nil))]
pub fn context_size(context: &Option<UserContext>) -> u64
    ensures { result ≡ size_of (spelled.context_fields context.now) }
{
    match context {
        Some(present) => message_size(2, user_context_size(present)),
        None => 0,
    }
}

/// How many messages are nested in the field `user_context` of a request: 1 where it is present, else 0. It takes no memory.
pub fn context_depth(context: &Option<UserContext>) -> u32
    ensures exact { result ≡ depths.context_depth context.now }
    ensures few { result ≤ 1 }
{
    match context {
        Some(_) => 1,
        None => 0,
    }
}
