ghost use Rattle.std.specs.Prelude.{◌≡◌, ◌≤◌, ◌++◌, IfOk, OnOk, option_map};
ghost use Rattle.proto_fields.specs.Readings.{merged};
ghost use Rattle.proto_fields.specs.Sizes.{size_of};
ghost use Rattle.proto_fields.specs.Spelling.{spell, optional_payload_fields};
ghost use Rattle.proto_fields.specs.Views.{seen};
ghost use Rattle.command_messages.specs.Commands as commands;
ghost use Rattle.command_messages.specs.Depths as depths;
ghost use Rattle.command_messages.specs.Spelled as spelled;

use crate::SaveTable;
use crate::save_table::{put_save_table, save_table_from, save_table_size};
use cn_base::OutOfMemory;
use expression_messages::put_message_head;
use proto_fields::{MessageWriter, Record, merged, message_size};
use std::alloc::Global;

/// The table that the records of a write operation name by the field `table`, number 4; `None` where it is absent.
pub fn table_from(alloc: Global, items: &[Record]) -> Result<Option<SaveTable>, OutOfMemory>
    ensures { IfOk result
        (λ table. table ≡ option_map commands.save_table_of (merged 4 (seen items.now))) }
{
    match merged(alloc, items, 4)? {
        Some(found) => Ok(Some(save_table_from(alloc, found.as_slice())?)),
        None => Ok(None),
    }
}

/// Puts the field `table` of a write operation before what stands, where it is present. Where memory runs out, nothing is promised of what
/// stands then.
#[tactic(auto, using(expression_messages::proofs::Written::spell_nil))]
pub fn put_table(out: &mut MessageWriter, table: &Option<SaveTable>) -> Result<(), OutOfMemory>
    ensures { OnOk result (out.new
        ≡ spell (optional_payload_fields 4
        (option_map (λ present. spell (spelled.save_table_fields present)) table.now)) ++ out.old) }
{
    match table {
        Some(present) => {
            let end = out.len();
            put_save_table(out, present)?;
            put_message_head(out, 4, end)
        }
        None => Ok(()),
    }
}

/// How many bytes the field `table` of a write operation takes: none where it is absent, 2^64 - 1 where it is above that. It takes no memory.
#[tactic(auto, using(expression_messages::proofs::Measured::size_of_nil))]
pub fn table_size(table: &Option<SaveTable>) -> u64
    ensures { result
        ≡ size_of (optional_payload_fields 4
        (option_map (λ present. spell (spelled.save_table_fields present)) table.now)) }
{
    match table {
        Some(present) => message_size(4, save_table_size(present)),
        None => 0,
    }
}

/// How many messages are nested in the field `table` of a write operation: 1 where it is present, else 0. It takes no memory.
pub fn table_depth(table: &Option<SaveTable>) -> u32
    ensures exact { result ≡ depths.table_depth table.now }
    ensures few { result ≤ 1 }
{
    match table {
        Some(_) => 1,
        None => 0,
    }
}
