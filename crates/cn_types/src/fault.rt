ghost use Rattle.std.specs.Prelude.{◌≡◌};
ghost use Rattle.cn_types.specs.declared.fault.ValueFault.TheVariants.{OutOfMemory as value_memory};
ghost use Rattle.cn_types.specs.declared.fault.SchemaFault.TheVariants.{OutOfMemory as schema_memory};

use cn_base::OutOfMemory;
use thiserror::Error;

/// Why a text was not read as a value of a type.
#[derive(Debug, Drop, PartialEq, Eq, Error)]
pub enum ValueFault {
    /// The text spells no value of the type.
    #[error("the text spells no value of the type")]
    BadValue,
    /// There was no memory.
    #[error("out of memory")]
    OutOfMemory,
}

impl From<OutOfMemory> for ValueFault {
    ghost from_gives = { λ _ e. e ≡ value_memory };

    fn from(_error: OutOfMemory) -> ValueFault {
        ValueFault::OutOfMemory
    }
}

/// Why a text was not read as a schema.
#[derive(Debug, Drop, PartialEq, Eq, Error)]
pub enum SchemaFault {
    /// The text is no JSON.
    #[error("the text is no JSON")]
    NotJson,
    /// The value is no object with `"type":"struct"` and a list `fields` of objects with a text `name`, or a `nullable` is no truth value.
    #[error("the JSON value is no struct of named fields")]
    NotStruct,
    /// The field at this place, counted from 0, is the first whose `type` is none of `boolean`, `integer`, `long`, `string` and `date`.
    #[error("the field at place {place} has an unknown type")]
    UnknownType { place: usize },
    /// There was no memory.
    #[error("out of memory")]
    OutOfMemory,
}

impl From<OutOfMemory> for SchemaFault {
    ghost from_gives = { λ _ e. e ≡ schema_memory };

    fn from(_error: OutOfMemory) -> SchemaFault {
        SchemaFault::OutOfMemory
    }
}
