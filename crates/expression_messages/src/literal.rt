ghost use Rattle.std.specs.Prelude.{◌≡◌, IfOk};

use crate::TypeMessage;
use cn_base::{Copied, OutOfMemory, Text};
use std::alloc::Global;

/// A constant (`expressions.proto`, Expression.Literal).
#[derive(Debug, Drop)]
pub enum Literal {
    /// Null, of this type.
    Null(TypeMessage),
    Boolean(bool),
    Integer(i32),
    Long(i64),
    String(Text),
    /// Days from 1970-01-01.
    Date(i32),
    /// A literal whose message holds none of these members.
    Absent,
}

impl Copied for Literal {
    fn copy(&self, alloc: Global) -> Result<Literal, OutOfMemory> {
        match self {
            Literal::Null(kind) => Ok(Literal::Null(kind.copy(alloc)?)),
            Literal::Boolean(value) => Ok(Literal::Boolean(*value)),
            Literal::Integer(value) => Ok(Literal::Integer(*value)),
            Literal::Long(value) => Ok(Literal::Long(*value)),
            Literal::String(text) => Ok(Literal::String(text.copy(alloc)?)),
            Literal::Date(days) => Ok(Literal::Date(*days)),
            Literal::Absent => Ok(Literal::Absent),
        }
    }
}
