ghost use Rattle.std.specs.Prelude.{◌≡◌, ◌++◌, IfOk, OnOk};
ghost use Rattle.proto_fields.specs.Sizes.{size_of};
ghost use Rattle.proto_fields.specs.Spelling.{spell};
ghost use Rattle.proto_fields.specs.Views.{seen};
ghost use Rattle.request_messages.specs.Requests as requests;
ghost use Rattle.request_messages.specs.Spelled as spelled;

use cn_base::{Copied, OutOfMemory, Text};
use proto_fields::{MessageWriter, Record, text_field, text_size};
use std::alloc::Global;

/// Who asks (`base.proto`, UserContext).
#[derive(Debug, Drop)]
pub struct UserContext {
    /// The user's name; empty where the message has none.
    pub user_id: Text,
}

impl Copied for UserContext {
    fn copy(&self, alloc: Global) -> Result<UserContext, OutOfMemory> {
        Ok(UserContext {
            user_id: self.user_id.copy(alloc)?,
        })
    }
}

/// The user that a message's records hold.
pub fn user_context_from(alloc: Global, items: &[Record]) -> Result<UserContext, OutOfMemory>
    ensures { IfOk result (λ context. context ≡ requests.user_context_of (seen items.now)) }
{
    Ok(UserContext {
        user_id: text_field(alloc, items, 1)?,
    })
}

/// Puts the user's message before what stands. Where memory runs out, nothing is promised of what stands then.
pub fn put_user_context(out: &mut MessageWriter, context: &UserContext) -> Result<(), OutOfMemory>
    ensures { OnOk result (out.new ≡ spell (spelled.user_context_fields context.now) ++ out.old) }
{
    out.put_text(1, context.user_id.as_str())
}

/// How many bytes the user's message takes; 2^64 - 1 where it is above that. It takes no memory.
pub fn user_context_size(context: &UserContext) -> u64
    ensures { result ≡ size_of (spelled.user_context_fields context.now) }
{
    text_size(1, context.user_id.as_str())
}
