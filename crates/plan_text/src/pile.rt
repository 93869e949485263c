ghost use Rattle.std.specs.Prelude.{◌≡◌, [], ◌∷◌, ◌++◌, OnOk, OnErr, option_to_list, reverse};
ghost use Rattle.plan_text.specs.Piles.{top, rest};

use cn_base::{List, OutOfMemory};
use std::alloc::Global;
use std::marker::Model;
use std::mem;

/// Things that were put on one another. Contracts see the last one first.
#[derive(Debug, Drop)]
pub struct Pile<T> {
    items: List<T>,
}

impl<T> Model for Pile<T> {
    ghost use Rattle.std.specs.Prelude.{List, reverse};

    ghost Value = { List T };

    ghost view = { λ p. reverse p.items };
}

impl<T> Pile<T> {
    /// Nothing. It takes no memory.
    pub fn new(alloc: Global) -> Pile<T>
        ensures { result ≡ [] }
    {
        Pile {
            items: List::new(alloc),
        }
    }
}

impl<T> Pile<T> {
    /// These, put in their order.
    pub fn of(items: List<T>) -> Pile<T>
        ensures { result ≡ reverse items }
    {
        Pile { items }
    }
}

impl<T: Drop> Pile<T> {
    /// Puts one on the others.
    pub fn put(&mut self, item: T) -> Result<(), OutOfMemory>
        ensures ok { OnOk result (self.new ≡ item ∷ self.old) }
        ensures err { OnErr result (self.new ≡ self.old) }
    {
        self.items.push(item)
    }

    /// Takes the last one; the default where there is none.
    pub fn take(&mut self, default: T) -> T
        ensures item { result ≡ top default self.old }
        ensures rest { self.new ≡ rest self.old }
    {
        match self.items.pop() {
            Some(item) => item,
            None => default,
        }
    }

    /// Takes all, in the order in which they were put.
    pub fn take_all(&mut self, alloc: Global) -> List<T>
        ensures all { result ≡ reverse self.old }
        ensures none { self.new ≡ [] }
    {
        mem::replace(&mut self.items, List::new(alloc))
    }
}
