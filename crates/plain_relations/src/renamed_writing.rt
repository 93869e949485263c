ghost use Rattle.std.specs.Prelude.{◌≡◌, ◌++◌, OnOk};
ghost use Rattle.proto_fields.specs.Sizes.{size_of};
ghost use Rattle.proto_fields.specs.Spelling.{spell};
ghost use Rattle.expression_messages.specs.Messages.{messages_fields};
ghost use Rattle.plain_relations.specs.Spelled as spelled;

use crate::{RenameEntry, WithColumnsRenamed};
use cn_base::OutOfMemory;
use expression_messages::put_message_head;
use proto_fields::{MessageWriter, message_size, payload_size};

/// Puts the entry's message before what stands, its key and its value even where they are empty.
fn put_entry(out: &mut MessageWriter, entry: &RenameEntry) -> Result<(), OutOfMemory>
    ensures { OnOk result (out.new ≡ spell (spelled.entry_fields entry.now) ++ out.old) }
{
    out.put_payload(2, entry.value.as_str().as_bytes())?;
    out.put_payload(1, entry.key.as_str().as_bytes())
}

/// Puts the entries of the map before what stands.
fn put_entries(out: &mut MessageWriter, entries: &[RenameEntry]) -> Result<(), OutOfMemory>
    ensures { OnOk result (out.new
        ≡ spell (messages_fields spelled.entry_fields 2 entries.now) ++ out.old) }
{
    for index in (0..entries.len()).rev() {
        let end = out.len();
        put_entry(out, &entries[index])?;
        put_message_head(out, 2, end)?;
    }
    Ok(())
}

/// Puts the message's fields besides its input before what stands: the entries of its map, in order. Where memory runs out, nothing is
/// promised of what stands then.
pub fn put_renamed_rest<R>(
    out: &mut MessageWriter,
    it: &WithColumnsRenamed<R>,
) -> Result<(), OutOfMemory>
    ensures { OnOk result (out.new ≡ spell (spelled.renamed_rest it.now) ++ out.old) }
{
    put_entries(out, it.rename_map.entries())
}

/// How many bytes the entry's message takes; 2^64 - 1 where it is above that.
fn entry_size(entry: &RenameEntry) -> u64
    ensures { result ≡ size_of (spelled.entry_fields entry.now) }
{
    let key = payload_size(1, entry.key.as_str().len());
    key.saturating_add(payload_size(2, entry.value.as_str().len()))
}

/// How many bytes the entries of the map take; 2^64 - 1 where it is above that.
fn entries_size(entries: &[RenameEntry]) -> u64
    ensures { result ≡ size_of (messages_fields spelled.entry_fields 2 entries.now) }
{
    let mut total = 0u64;
    for entry in entries {
        total = total.saturating_add(message_size(2, entry_size(entry)));
    }
    total
}

/// How many bytes the message's fields besides its input take; 2^64 - 1 where it is above that. It takes no memory.
pub fn renamed_rest_size<R>(it: &WithColumnsRenamed<R>) -> u64
    ensures { result ≡ size_of (spelled.renamed_rest it.now) }
{
    entries_size(it.rename_map.entries())
}
