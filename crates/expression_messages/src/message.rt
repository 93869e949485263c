ghost use Rattle.std.specs.Prelude.{◌≡◌, ◌≤◌, ℕ, List, ◌++◌, length, IfOk, OnOk, OnErr};
ghost use Rattle.proto_fields.specs.Spelling.{spell, payload_fields};
ghost use Rattle.proto_fields.specs.Views.{seen};
ghost use Rattle.expression_messages.specs.Messages.{message_at};

use cn_base::{List, OutOfMemory};
use proto_fields::{MessageWriter, Record, merged};
use std::alloc::Global;

/// The records of a singular message of this number; none where it is absent.
pub fn message_records<'a>(
    alloc: Global,
    records: &[Record<'a>],
    number: u32,
) -> Result<List<Record<'a>>, OutOfMemory>
    ensures { IfOk result (λ found. seen found ≡ message_at number (seen records.now)) }
{
    match merged(alloc, records, number)? {
        Some(found) => Ok(found),
        None => Ok(List::new(alloc)),
    }
}

/// Puts the tag and the length of the message that was written since `end` bytes stood: it becomes a payload of this number.
/// Where memory runs out, nothing changes.
#[tactic(auto, using(crate::proofs::Written::headed))]
pub fn put_message_head(out: &mut MessageWriter, number: u32, end: usize) -> Result<(), OutOfMemory>
    requires low { 1 ≤ number }
    requires high { number ≤ 536870911 }
    requires within { end ≤ length out.old }
    ensures ok { (message after : List ℕ) → out.old ≡ message ++ after → length after ≡ end
        → OnOk result (out.new ≡ spell (payload_fields number message) ++ after) }
    ensures err { OnErr result (out.new ≡ out.old) }
{
    let length = out.len() - end;
    out.put_head(number, length)
}
