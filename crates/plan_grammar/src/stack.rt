ghost use Rattle.std.specs.Prelude.{◌≡◌, [], ◌∷◌, ◌++◌, OnOk, option_to_list, IsNone};
ghost use Rattle.plan_grammar.specs.Derivation.{whole};

use crate::symbol::{PipelineSymbol, Symbol};
use cn_base::OutOfMemory;
use std::alloc::Global;
use std::marker::Model;

/// The symbols that stand for what is left of a text. Contracts see the next one first.
#[derive(Debug, Drop)]
pub struct Stack {
    symbols: Vec<Symbol>,
}

impl Model for Stack {
    ghost use Rattle.std.specs.Prelude.{List, reverse};
    ghost use Rattle.plan_grammar.specs.declared.symbol.Symbol.{Symbol};

    ghost Value = { List Symbol };

    ghost view = { λ s. reverse s.symbols.items };
}

impl Stack {
    /// No symbol. It takes no memory.
    pub fn new(alloc: Global) -> Stack
        ensures { result ≡ [] }
    {
        Stack {
            symbols: Vec::new(alloc),
        }
    }

    /// Takes the next symbol, where there is one.
    pub fn pop(&mut self) -> Option<Symbol>
        ensures next { self.old ≡ option_to_list result ++ self.new }
        ensures none { IsNone result → self.old ≡ [] }
    {
        self.symbols.pop()
    }

    /// Puts these symbols before the others.
    pub fn push_all(&mut self, production: &[Symbol]) -> Result<(), OutOfMemory>
        ensures { OnOk result (self.new ≡ production.now ++ self.old) }
    {
        let mut left = production.len();
        while left > 0 {
            left -= 1;
            self.symbols.push(production[left])?;
        }
        Ok(())
    }
}
