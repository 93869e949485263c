ghost use Rattle.plain_relations.specs.Maps.{KeysRise};
ghost use Rattle.plain_relations.specs.Rising.{KeysRise-prop};

use crate::RenameEntry;
use crate::map_merging::map_of_last;
use cn_base::{Copied, List, OutOfMemory};
use std::alloc::Global;
use std::fmt::{self, Debug, Formatter, Write};

/// A map from names of columns to their new names: one entry a key, in the order of the keys' bytes (Protocol Buffers Encoding, "Maps"). No other
/// list of entries is one.
#[derive(Drop)]
pub struct RenameMap {
    entries: List<RenameEntry>,
    pub ghost rising: { KeysRise entries } by { KeysRise-prop entries },
}

impl RenameMap {
    ghost use Rattle.std.specs.Prelude.{◌≡◌, [], ◌↔◌, IfOk, IsTrue};
    ghost use Rattle.plain_relations.specs.RenameMaps.{rename_map_of};

    /// The map of entries, of which the last one counts where a key stands in several. It takes n log n steps for n entries.
    pub fn of(alloc: Global, entries: List<RenameEntry>) -> Result<RenameMap, OutOfMemory>
        ensures { IfOk result (λ map. map ≡ rename_map_of entries) }
    {
        let mut left = entries;
        let count = left.len();
        let found = map_of_last(alloc, &mut left, count)?;
        Ok(RenameMap {
            entries: List::from_vec(found.into_vec()),
        })
    }

    /// The entries in the order of their keys' bytes.
    pub fn entries(&self) -> &[RenameEntry]
        ensures { result.now ≡ self.now.entries }
    {
        self.entries.as_slice()
    }

    /// Whether there is no entry.
    pub fn is_empty(&self) -> bool
        ensures { IsTrue result ↔ (self.now.entries ≡ []) }
    {
        self.entries.is_empty()
    }
}

impl Copied for RenameMap {
    fn copy(&self, alloc: Global) -> Result<RenameMap, OutOfMemory> {
        Ok(RenameMap {
            entries: self.entries.copy(alloc)?,
        })
    }
}

impl Debug for RenameMap {
    /// The entries, as a list prints them.
    fn fmt<W: Write>(&self, f: &mut Formatter<W>) -> Result<(), fmt::Error> {
        self.entries.fmt(f)
    }
}
