ghost use Rattle.std.specs.Prelude.{◌≡◌, IfOk};

use cn_base::{Copied, List, OutOfMemory, Text};
use std::alloc::Global;

/// A setting: its key, and its value where it has one.
#[derive(Debug, Drop)]
pub struct Pair {
    pub key: Text,
    pub value: Option<Text>,
}

/// Settings in their order.
#[derive(Debug, Drop)]
pub struct Settings(pub List<Pair>);

impl Copied for Pair {
    fn copy(&self, alloc: Global) -> Result<Pair, OutOfMemory> {
        Ok(Pair {
            key: self.key.copy(alloc)?,
            value: self.value.copy(alloc)?,
        })
    }
}

impl Copied for Settings {
    fn copy(&self, alloc: Global) -> Result<Settings, OutOfMemory> {
        Ok(Settings(self.0.copy(alloc)?))
    }
}
