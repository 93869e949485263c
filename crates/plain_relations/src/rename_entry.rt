ghost use Rattle.std.specs.Prelude.{◌≡◌, IfOk};
ghost use Rattle.proto_fields.specs.Fields.{fields_of};
ghost use Rattle.proto_fields.specs.Views.{seen};
ghost use Rattle.expression_messages.specs.Messages.{messages_at};
ghost use Rattle.plain_relations.specs.Maps.{entry_of};

use cn_base::{Copied, List, OutOfMemory, Text};
use proto_fields::{Record, payloads, records, text_field};
use std::alloc::Global;

/// An entry of the map of WithColumnsRenamed (Protocol Buffers Encoding, "Maps").
#[derive(Debug, Drop)]
pub struct RenameEntry {
    /// The name of a column.
    pub key: Text,
    /// Its new name.
    pub value: Text,
}

impl Copied for RenameEntry {
    fn copy(&self, alloc: Global) -> Result<RenameEntry, OutOfMemory> {
        Ok(RenameEntry {
            key: self.key.copy(alloc)?,
            value: self.value.copy(alloc)?,
        })
    }
}

/// The entry that a payload holds.
fn entry_from(alloc: Global, payload: &[u8]) -> Result<RenameEntry, OutOfMemory>
    ensures { IfOk result (λ entry. entry ≡ entry_of (fields_of payload.now)) }
{
    let found = records(alloc, payload)?;
    Ok(RenameEntry {
        key: text_field(alloc, found.as_slice(), 1)?,
        value: text_field(alloc, found.as_slice(), 2)?,
    })
}

/// The entries that the records of a message hold by their field `rename_columns_map`, number 2, in order.
pub(crate) fn entries_from(
    alloc: Global,
    items: &[Record],
) -> Result<List<RenameEntry>, OutOfMemory>
    ensures { IfOk result (λ entries. entries ≡ messages_at entry_of 2 (seen items.now)) }
{
    let mut entries = List::new(alloc);
    for payload in payloads(alloc, items, 2)?.as_slice() {
        entries.push(entry_from(alloc, *payload)?)?;
    }
    Ok(entries)
}
