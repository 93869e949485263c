ghost use Rattle.std.specs.Prelude.{◌≡◌, ◌≤◌, ◌++◌, IfOk, OnOk};
ghost use Rattle.proto_fields.specs.Sizes.{size_of};
ghost use Rattle.proto_fields.specs.Spelling.{spell};
ghost use Rattle.proto_fields.specs.Views.{seen};
ghost use Rattle.relation_parts.specs.Depths as depths;
ghost use Rattle.relation_parts.specs.Parts as parts;
ghost use Rattle.relation_parts.specs.Spelled as spelled;

use cn_base::{Copied, OutOfMemory, Text};
use expression_messages::put_message_head;
use proto_fields::{MessageWriter, Record, merged, message_size, text_field, text_size};
use std::alloc::Global;

/// A table, by its name (`relations.proto`, Read.NamedTable).
#[derive(Debug, Drop)]
pub struct NamedTable {
    /// The table's name as it was written; empty where the message has none.
    pub unparsed_identifier: Text,
}

/// The rows of a table (`relations.proto`, Read).
#[derive(Debug, Drop)]
pub struct Read {
    /// The table; `None` where the message has none.
    pub named_table: Option<NamedTable>,
}

impl Copied for NamedTable {
    fn copy(&self, alloc: Global) -> Result<NamedTable, OutOfMemory> {
        Ok(NamedTable {
            unparsed_identifier: self.unparsed_identifier.copy(alloc)?,
        })
    }
}

impl Copied for Read {
    fn copy(&self, alloc: Global) -> Result<Read, OutOfMemory> {
        Ok(Read {
            named_table: self.named_table.copy(alloc)?,
        })
    }
}

/// The table that a message's records name.
fn named_table_from(alloc: Global, items: &[Record]) -> Result<NamedTable, OutOfMemory>
    ensures { IfOk result (λ table. table ≡ parts.named_table_of (seen items.now)) }
{
    Ok(NamedTable {
        unparsed_identifier: text_field(alloc, items, 1)?,
    })
}

/// The read that a message's records hold (`relations.proto`, Read). Where there are several payloads of its table, they are joined.
pub fn read_from(alloc: Global, items: &[Record]) -> Result<Read, OutOfMemory>
    ensures { IfOk result (λ it. it ≡ parts.read_of (seen items.now)) }
{
    match merged(alloc, items, 1)? {
        Some(found) => Ok(Read {
            named_table: Some(named_table_from(alloc, found.as_slice())?),
        }),
        None => Ok(Read { named_table: None }),
    }
}

/// Puts the read's message before what stands; a table without a name is written too. Where memory runs out, nothing is promised of what
/// stands then.
#[tactic(auto, using(expression_messages::proofs::Written::spell_nil))]
pub fn put_read(out: &mut MessageWriter, read: &Read) -> Result<(), OutOfMemory>
    ensures { OnOk result (out.new ≡ spell (spelled.read_fields read.now) ++ out.old) }
{
    match &read.named_table {
        Some(table) => {
            let end = out.len();
            out.put_text(1, table.unparsed_identifier.as_str())?;
            put_message_head(out, 1, end)
        }
        None => Ok(()),
    }
}

/// How many bytes the read's message takes; 2^64 - 1 where it is above that. It takes no memory.
#[tactic(auto, using(expression_messages::proofs::Measured::size_of_nil))]
pub fn read_size(read: &Read) -> u64
    ensures { result ≡ size_of (spelled.read_fields read.now) }
{
    match &read.named_table {
        Some(table) => message_size(1, text_size(1, table.unparsed_identifier.as_str())),
        None => 0,
    }
}

/// How many messages are nested in the read's message, itself among them: 2 where it has a table, else 1. It takes no memory.
pub fn read_depth(read: &Read) -> u32
    ensures exact { result ≡ depths.read_depth read.now }
    ensures few { result ≤ 2 }
{
    match &read.named_table {
        Some(_) => 2,
        None => 1,
    }
}
