ghost use Rattle.std.specs.Prelude.{◌≡◌, IfOk};

use crate::Function;
use cn_base::{Boxed, Copied, List, OutOfMemory};
use cn_types::{DataType, Value};
use std::alloc::Global;

/// An expression over a row, with the type of its value.
#[derive(Debug, Drop)]
pub enum TypedExpr {
    /// The row's value at a place, counted from 0.
    Column {
        place: u32,
        kind: DataType,
    },
    /// A constant, null or of the type.
    Literal {
        value: Value,
        kind: DataType,
    },
    /// A function of the arguments' values.
    Call {
        function: Function,
        arguments: List<TypedExpr>,
        kind: DataType,
    },
    /// The child's value in another type.
    Cast {
        child: Boxed<TypedExpr>,
        kind: DataType,
    },
}

impl Copied for TypedExpr {
    fn copy(&self, alloc: Global) -> Result<TypedExpr, OutOfMemory> {
        match self {
            TypedExpr::Column { place, kind } => Ok(TypedExpr::Column {
                place: *place,
                kind: *kind,
            }),
            TypedExpr::Literal { value, kind } => Ok(TypedExpr::Literal {
                value: value.copy(alloc)?,
                kind: *kind,
            }),
            TypedExpr::Call {
                function,
                arguments,
                kind,
            } => {
                let mut copied = List::new(alloc);
                for argument in arguments.as_slice() {
                    copied.push(argument.copy(alloc)?)?;
                }
                Ok(TypedExpr::Call {
                    function: *function,
                    arguments: copied,
                    kind: *kind,
                })
            }
            TypedExpr::Cast { child, kind } => Ok(TypedExpr::Cast {
                child: Boxed::new(alloc, child.get().copy(alloc)?)?,
                kind: *kind,
            }),
        }
    }
}
