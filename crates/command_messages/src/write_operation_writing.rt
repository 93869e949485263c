ghost use Rattle.std.specs.Prelude.{◌≡◌, ◌++◌, OnOk};
ghost use Rattle.proto_fields.specs.Sizes.{size_of};
ghost use Rattle.proto_fields.specs.Spelling.{spell};
ghost use Rattle.command_messages.specs.Spelled as spelled;

use crate::WriteOperation;
use crate::table_field::{put_table, table_size};
use cn_base::OutOfMemory;
use proto_fields::{MessageWriter, int_size, optional_text_size};

/// Puts the write operation's fields besides its relation before what stands. Where memory runs out, nothing is promised of what stands then.
#[tactic(auto, using(expression_messages::proofs::Written::stand_three))]
pub fn put_write_operation_rest<R>(
    out: &mut MessageWriter,
    it: &WriteOperation<R>,
) -> Result<(), OutOfMemory>
    ensures { OnOk result (out.new ≡ spell (spelled.write_operation_rest it.now) ++ out.old) }
{
    out.put_int32(5, it.mode)?;
    put_table(out, &it.table)?;
    out.put_optional_text(2, &it.source)
}

/// How many bytes the write operation's fields besides its relation take; 2^64 - 1 where it is above that. It takes no memory.
#[tactic(auto, using(expression_messages::proofs::Measured::sized_three))]
pub fn write_operation_rest_size<R>(it: &WriteOperation<R>) -> u64
    ensures { result ≡ size_of (spelled.write_operation_rest it.now) }
{
    let source = optional_text_size(2, &it.source);
    let table = table_size(&it.table);
    let mode = int_size(5, i64::from(it.mode));
    source.saturating_add(table).saturating_add(mode)
}
