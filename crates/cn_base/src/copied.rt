ghost use Rattle.std.specs.Prelude.{◌≡◌, IfOk};

use crate::{Boxed, List, OutOfMemory};
use std::alloc::Global;

/// A value that can be copied while there is memory. A copy equals what it copies.
pub trait Copied {
    /// A copy, which equals `self`.
    fn copy(&self, alloc: Global) -> Result<Self, OutOfMemory>
    where
        Self: Sized,
        ensures { IfOk result (λ c. c ≡ self.now) };
}

impl<T: Copied + Drop> Copied for List<T> {
    fn copy(&self, alloc: Global) -> Result<List<T>, OutOfMemory> {
        let mut items = List::new(alloc);
        for item in self.as_slice() {
            items.push(item.copy(alloc)?)?;
        }
        Ok(items)
    }
}

impl<T: Copied + Drop> Copied for Boxed<T> {
    fn copy(&self, alloc: Global) -> Result<Boxed<T>, OutOfMemory> {
        Boxed::new(alloc, self.get().copy(alloc)?)
    }
}

impl<T: Copied + Drop> Copied for Option<T> {
    fn copy(&self, alloc: Global) -> Result<Option<T>, OutOfMemory> {
        match self {
            None => Ok(None),
            Some(value) => Ok(Some(value.copy(alloc)?)),
        }
    }
}

impl Copied for bool {
    fn copy(&self, _alloc: Global) -> Result<bool, OutOfMemory> {
        Ok(*self)
    }
}

impl Copied for u32 {
    fn copy(&self, _alloc: Global) -> Result<u32, OutOfMemory> {
        Ok(*self)
    }
}

impl Copied for u64 {
    fn copy(&self, _alloc: Global) -> Result<u64, OutOfMemory> {
        Ok(*self)
    }
}

impl Copied for i32 {
    fn copy(&self, _alloc: Global) -> Result<i32, OutOfMemory> {
        Ok(*self)
    }
}

impl Copied for i64 {
    fn copy(&self, _alloc: Global) -> Result<i64, OutOfMemory> {
        Ok(*self)
    }
}
