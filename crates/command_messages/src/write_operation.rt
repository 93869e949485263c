ghost use Rattle.std.specs.Prelude.{◌≡◌, IfOk};
ghost use Rattle.proto_fields.specs.Views.{seen};
ghost use Rattle.command_messages.specs.Commands as commands;

use crate::SaveTable;
use crate::table_field::table_from;
use cn_base::{Copied, OutOfMemory, Text};
use proto_fields::{Record, int32_field, optional_text};
use std::alloc::Global;

/// Writes the rows of a relation (`commands.proto`, WriteOperation).
#[derive(Debug, Drop)]
pub struct WriteOperation<R> {
    /// A relation whose member is `Other(0)` where none is there.
    pub input: R,
    /// The format of the target.
    pub source: Option<Text>,
    pub table: Option<SaveTable>,
    /// 0 unspecified, 1 append, 2 overwrite, 3 error if exists, 4 ignore.
    pub mode: i32,
}

impl<R: Copied + Drop> Copied for WriteOperation<R> {
    fn copy(&self, alloc: Global) -> Result<WriteOperation<R>, OutOfMemory> {
        let input = self.input.copy(alloc)?;
        write_operation_like(alloc, self, input)
    }
}

/// The write operation over this relation that a message's records hold.
pub fn write_operation_over<R: Drop>(
    alloc: Global,
    items: &[Record],
    input: R,
) -> Result<WriteOperation<R>, OutOfMemory>
    ensures { IfOk result (λ it. it ≡ commands.write_operation_of input (seen items.now)) }
{
    let source = optional_text(alloc, items, 2)?;
    let table = table_from(alloc, items)?;
    let mode = int32_field(items, 5);
    Ok(WriteOperation {
        input,
        source,
        table,
        mode,
    })
}

/// The same write operation over another relation.
pub fn write_operation_like<R, S: Drop>(
    alloc: Global,
    it: &WriteOperation<R>,
    input: S,
) -> Result<WriteOperation<S>, OutOfMemory>
    ensures { IfOk result (λ copied. copied
        ≡ record { input = input; source = it.now.source; table = it.now.table; mode = it.now.mode }) }
{
    let source = it.source.copy(alloc)?;
    let table = it.table.copy(alloc)?;
    Ok(WriteOperation {
        input,
        source,
        table,
        mode: it.mode,
    })
}
