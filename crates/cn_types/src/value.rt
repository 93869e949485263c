ghost use Rattle.std.specs.Prelude.{◌≡◌, IfOk};

use cn_base::{Copied, OutOfMemory, Text};
use std::alloc::Global;

/// The type of a column.
#[derive(Clone, Copy, Debug, PartialEq, Eq)]
pub enum DataType {
    /// True or false.
    Boolean,
    /// A signed number of 32 bits.
    Integer,
    /// A signed number of 64 bits.
    Long,
    /// A UTF-8 text.
    Text,
    /// A calendar date.
    Date,
}

/// A value of a column, or null.
#[derive(Debug, Drop)]
pub enum Value {
    /// No value. It belongs to every type.
    Null,
    Boolean(bool),
    Integer(i32),
    Long(i64),
    Text(Text),
    /// Days from 1970-01-01, from -719162 (0001-01-01) to 2932896 (9999-12-31).
    Date(i32),
}

impl Copied for DataType {
    fn copy(&self, _alloc: Global) -> Result<DataType, OutOfMemory> {
        Ok(*self)
    }
}

impl Copied for Value {
    fn copy(&self, alloc: Global) -> Result<Value, OutOfMemory> {
        match self {
            Value::Null => Ok(Value::Null),
            Value::Boolean(value) => Ok(Value::Boolean(*value)),
            Value::Integer(value) => Ok(Value::Integer(*value)),
            Value::Long(value) => Ok(Value::Long(*value)),
            Value::Text(value) => Ok(Value::Text(value.copy(alloc)?)),
            Value::Date(days) => Ok(Value::Date(*days)),
        }
    }
}
