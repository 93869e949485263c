ghost use Rattle.std.specs.Prelude.{◌≡◌, ◌++◌, IfOk, OnOk};
ghost use Rattle.proto_fields.specs.Sizes.{size_of};
ghost use Rattle.proto_fields.specs.Spelling.{spell};
ghost use Rattle.proto_fields.specs.Views.{seen};
ghost use Rattle.request_messages.specs.Depths as depths;
ghost use Rattle.request_messages.specs.Requests as requests;
ghost use Rattle.request_messages.specs.Spelled as spelled;

use cn_base::OutOfMemory;
use expression_messages::put_message_head;
use proto_fields::{
    MessageWriter, Record, bool_field, bool_size, merged, message_size, payloads, records,
};
use std::alloc::Global;

/// The flag of one request option; `None` where it has no `reattach_options`.
fn option_flag(alloc: Global, payload: &[u8]) -> Result<Option<bool>, OutOfMemory>
    ensures { IfOk result (λ flag. flag ≡ requests.option_flag payload.now) }
{
    let found = records(alloc, payload)?;
    match merged(alloc, found.as_slice(), 1)? {
        Some(options) => Ok(Some(bool_field(options.as_slice(), 1))),
        None => Ok(None),
    }
}

/// Whether the records of a request ask for an execution that may be reattached, by its field `request_options`, number 5: the flag of the
/// last option that has `reattach_options`, false where none has.
pub fn reattachable_from(alloc: Global, items: &[Record]) -> Result<bool, OutOfMemory>
    ensures { IfOk result (λ flag. flag ≡ requests.reattachable_of (seen items.now)) }
{
    let mut last = None;
    for payload in payloads(alloc, items, 5)?.as_slice() {
        last = option_flag(alloc, *payload)?.or(last);
    }
    Ok(last.unwrap_or(false))
}

/// Puts the field `request_options` of a request before what stands: one option where the flag is true, else none. Where memory runs out,
/// nothing is promised of what stands then.
#[tactic(auto, using(expression_messages::proofs::Written::spell_nil))]
pub fn put_reattachable(out: &mut MessageWriter, flag: bool) -> Result<(), OutOfMemory>
    ensures { OnOk result (out.new ≡ spell (spelled.reattachable_fields flag) ++ out.old) }
{
    if !flag {
        return Ok(());
    }
    let end = out.len();
    out.put_bool(1, true)?;
    put_message_head(out, 1, end)?;
    put_message_head(out, 5, end)
}

/// How many bytes the field `request_options` of a request takes. It takes no memory.
#[tactic(auto, using(expression_messages::proofs::Measured::size_of_nil))]
pub fn reattachable_size(flag: bool) -> u64
    ensures { result ≡ size_of (spelled.reattachable_fields flag) }
{
    if flag {
        message_size(5, message_size(1, bool_size(1, true)))
    } else {
        0
    }
}

/// How many messages are nested in the field `request_options` of a request. It takes no memory.
pub fn reattachable_depth(flag: bool) -> u32
    ensures { result ≡ depths.reattachable_depth flag }
{
    if flag { 2 } else { 0 }
}
