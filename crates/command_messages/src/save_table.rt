ghost use Rattle.std.specs.Prelude.{◌≡◌, ◌++◌, IfOk, OnOk};
ghost use Rattle.proto_fields.specs.Sizes.{size_of};
ghost use Rattle.proto_fields.specs.Spelling.{spell};
ghost use Rattle.proto_fields.specs.Views.{seen};
ghost use Rattle.command_messages.specs.Commands as commands;
ghost use Rattle.command_messages.specs.Spelled as spelled;

use cn_base::{Copied, OutOfMemory, Text};
use proto_fields::{MessageWriter, Record, int_size, int32_field, text_field, text_size};
use std::alloc::Global;

/// The table that is written (`commands.proto`, WriteOperation.SaveTable).
#[derive(Debug, Drop)]
pub struct SaveTable {
    pub table_name: Text,
    /// 1 save as table, 2 insert into.
    pub save_method: i32,
}

impl Copied for SaveTable {
    fn copy(&self, alloc: Global) -> Result<SaveTable, OutOfMemory> {
        Ok(SaveTable {
            table_name: self.table_name.copy(alloc)?,
            save_method: self.save_method,
        })
    }
}

/// The table that a message's records hold.
pub fn save_table_from(alloc: Global, items: &[Record]) -> Result<SaveTable, OutOfMemory>
    ensures { IfOk result (λ table. table ≡ commands.save_table_of (seen items.now)) }
{
    Ok(SaveTable {
        table_name: text_field(alloc, items, 1)?,
        save_method: int32_field(items, 2),
    })
}

/// Puts the table's message before what stands. Where memory runs out, nothing is promised of what stands then.
#[tactic(auto, using(expression_messages::proofs::Written::stand_two))]
pub fn put_save_table(out: &mut MessageWriter, table: &SaveTable) -> Result<(), OutOfMemory>
    ensures { OnOk result (out.new ≡ spell (spelled.save_table_fields table.now) ++ out.old) }
{
    out.put_int32(2, table.save_method)?;
    out.put_text(1, table.table_name.as_str())
}

/// How many bytes the table's message takes; 2^64 - 1 where it is above that. It takes no memory.
#[tactic(auto, using(expression_messages::proofs::Measured::sized_two))]
pub fn save_table_size(table: &SaveTable) -> u64
    ensures { result ≡ size_of (spelled.save_table_fields table.now) }
{
    let name = text_size(1, table.table_name.as_str());
    let method = int_size(2, i64::from(table.save_method));
    name.saturating_add(method)
}
