ghost use Rattle.std.specs.Prelude.{◌≡◌, IfOk};

use cn_base::{Copied, List, OutOfMemory, Text};
use std::alloc::Global;

/// A field of a struct type (`types.proto`, DataType.StructField). `T` is its type, or what stands for it.
#[derive(Debug, Drop)]
pub struct StructField<T = TypeMessage> {
    pub name: Text,
    /// `Other(0)` where no type is there.
    pub data_type: T,
    pub nullable: bool,
}

/// A data type (`types.proto`, DataType).
#[derive(Debug, Drop)]
pub enum TypeMessage {
    Null,
    Boolean,
    Byte,
    Short,
    Integer,
    Long,
    String,
    Date,
    Struct(List<StructField<TypeMessage>>),
    /// A type outside the profile, by its field number; 0 where no type is there.
    Other(u32),
}

impl Copied for TypeMessage {
    fn copy(&self, alloc: Global) -> Result<TypeMessage, OutOfMemory> {
        match self {
            TypeMessage::Null => Ok(TypeMessage::Null),
            TypeMessage::Boolean => Ok(TypeMessage::Boolean),
            TypeMessage::Byte => Ok(TypeMessage::Byte),
            TypeMessage::Short => Ok(TypeMessage::Short),
            TypeMessage::Integer => Ok(TypeMessage::Integer),
            TypeMessage::Long => Ok(TypeMessage::Long),
            TypeMessage::String => Ok(TypeMessage::String),
            TypeMessage::Date => Ok(TypeMessage::Date),
            TypeMessage::Struct(fields) => {
                let mut copied = List::new(alloc);
                for field in fields.as_slice() {
                    copied.push(StructField {
                        name: field.name.copy(alloc)?,
                        data_type: field.data_type.copy(alloc)?,
                        nullable: field.nullable,
                    })?;
                }
                Ok(TypeMessage::Struct(copied))
            }
            TypeMessage::Other(number) => Ok(TypeMessage::Other(*number)),
        }
    }
}

impl<T: Copied + Drop> Copied for StructField<T> {
    fn copy(&self, alloc: Global) -> Result<StructField<T>, OutOfMemory> {
        Ok(StructField {
            name: self.name.copy(alloc)?,
            data_type: self.data_type.copy(alloc)?,
            nullable: self.nullable,
        })
    }
}
