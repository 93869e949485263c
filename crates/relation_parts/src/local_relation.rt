ghost use Rattle.std.specs.Prelude.{◌≡◌, ◌++◌, IfOk, OnOk};
ghost use Rattle.proto_fields.specs.Sizes.{size_of};
ghost use Rattle.proto_fields.specs.Spelling.{spell};
ghost use Rattle.proto_fields.specs.Views.{seen};
ghost use Rattle.relation_parts.specs.Parts as parts;
ghost use Rattle.relation_parts.specs.Spelled as spelled;

use cn_base::{Bytes, Copied, OutOfMemory, Text};
use proto_fields::{
    MessageWriter, Record, optional_bytes, optional_bytes_size, optional_text, optional_text_size,
};
use std::alloc::Global;

/// Rows that the message holds (`relations.proto`, LocalRelation).
#[derive(Debug, Drop)]
pub struct LocalRelation {
    /// An Arrow stream (field `data`).
    pub payload: Option<Bytes>,
    /// A schema, by its text.
    pub schema: Option<Text>,
}

impl Copied for LocalRelation {
    fn copy(&self, alloc: Global) -> Result<LocalRelation, OutOfMemory> {
        Ok(LocalRelation {
            payload: self.payload.copy(alloc)?,
            schema: self.schema.copy(alloc)?,
        })
    }
}

/// The rows that a message's records hold (`relations.proto`, LocalRelation). The Arrow stream is copied and not looked at.
pub fn local_relation_from(alloc: Global, items: &[Record]) -> Result<LocalRelation, OutOfMemory>
    ensures { IfOk result (λ it. it ≡ parts.local_relation_of (seen items.now)) }
{
    Ok(LocalRelation {
        payload: optional_bytes(alloc, items, 1)?,
        schema: optional_text(alloc, items, 2)?,
    })
}

/// Puts the message before what stands; an empty stream and an empty schema that are present are written. Where memory runs out, nothing is
/// promised of what stands then.
#[tactic(auto, using(expression_messages::proofs::Written::stand_two))]
pub fn put_local_relation(out: &mut MessageWriter, local: &LocalRelation) -> Result<(), OutOfMemory>
    ensures { OnOk result (out.new ≡ spell (spelled.local_relation_fields local.now) ++ out.old) }
{
    out.put_optional_text(2, &local.schema)?;
    out.put_optional_bytes(1, &local.payload)
}

/// How many bytes the message takes; 2^64 - 1 where it is above that. It takes no memory.
#[tactic(auto, using(expression_messages::proofs::Measured::sized_two))]
pub fn local_relation_size(local: &LocalRelation) -> u64
    ensures { result ≡ size_of (spelled.local_relation_fields local.now) }
{
    let payload = optional_bytes_size(1, &local.payload);
    let schema = optional_text_size(2, &local.schema);
    payload.saturating_add(schema)
}
