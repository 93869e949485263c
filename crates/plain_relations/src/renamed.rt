ghost use Rattle.std.specs.Prelude.{◌≡◌, ◌≤◌, IfOk};
ghost use Rattle.proto_fields.specs.Views.{seen};
ghost use Rattle.plain_relations.specs.Depths as depths;
ghost use Rattle.plain_relations.specs.Plain as plain;

use crate::RenameMap;
use crate::rename_entry::entries_from;
use cn_base::{Boxed, Copied, OutOfMemory};
use proto_fields::Record;
use std::alloc::Global;

/// A relation some of whose columns have new names (`relations.proto`, WithColumnsRenamed).
#[derive(Debug, Drop)]
pub struct WithColumnsRenamed<R> {
    /// `Other(0)` where no relation is there.
    pub input: Boxed<R>,
    /// The map (field `rename_columns_map`).
    pub rename_map: RenameMap,
}

impl<R: Copied + Drop> Copied for WithColumnsRenamed<R> {
    fn copy(&self, alloc: Global) -> Result<WithColumnsRenamed<R>, OutOfMemory> {
        renamed_like(alloc, self, self.input.get().copy(alloc)?)
    }
}

/// The new names of this input's columns that a message's records hold.
pub fn renamed_over<R: Drop>(
    alloc: Global,
    items: &[Record],
    input: R,
) -> Result<WithColumnsRenamed<R>, OutOfMemory>
    ensures { IfOk result (λ it. it ≡ plain.renamed_of input (seen items.now)) }
{
    let entries = entries_from(alloc, items)?;
    Ok(WithColumnsRenamed {
        input: Boxed::new(alloc, input)?,
        rename_map: RenameMap::of(alloc, entries)?,
    })
}

/// The same new names of another input's columns.
pub fn renamed_like<R, S: Drop>(
    alloc: Global,
    it: &WithColumnsRenamed<R>,
    input: S,
) -> Result<WithColumnsRenamed<S>, OutOfMemory>
    ensures { IfOk result (λ copied. copied ≡ record { input = input; rename_map = it.now.rename_map }) }
{
    Ok(WithColumnsRenamed {
        input: Boxed::new(alloc, input)?,
        rename_map: it.rename_map.copy(alloc)?,
    })
}

/// How many messages are nested in the message's fields besides its input: 1 where the map has entries, else 0. It takes no memory.
pub fn renamed_rest_depth<R>(it: &WithColumnsRenamed<R>) -> u32
    ensures exact { result ≡ depths.renamed_depth it.now }
    ensures few { result ≤ 1 }
{
    if it.rename_map.is_empty() { 0 } else { 1 }
}
