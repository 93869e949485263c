ghost use Rattle.std.specs.Prelude.{◌≡◌, IfOk};
ghost use Rattle.expr_eval.specs.Operands.{operand_value};

use cn_base::{Copied, OutOfMemory};
use cn_types::Value;
use std::alloc::Global;

/// The value of an expression over a row: the row or the expression lends it, or it was made.
#[derive(Debug, Drop)]
pub enum Operand<'a> {
    Lent(&'a Value),
    Made(Value),
}

impl<'a> Operand<'a> {
    /// Lends the value.
    pub fn value(&self) -> &Value
        ensures { result.now ≡ operand_value self.now }
    {
        match self {
            Operand::Lent(value) => value,
            Operand::Made(value) => value,
        }
    }

    /// The value, which is copied where it is lent.
    pub fn into_value(self, alloc: Global) -> Result<Value, OutOfMemory>
        ensures { IfOk result (λ value. value ≡ operand_value self.entry) }
    {
        match self {
            Operand::Lent(value) => value.copy(alloc),
            Operand::Made(value) => Ok(value),
        }
    }
}
