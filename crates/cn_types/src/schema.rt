ghost use Rattle.std.specs.Prelude.{◌≡◌, ◌≢◌, IfOk, IfErr};

use crate::json::{fault_of, schema_of};
use crate::{DataType, SchemaFault};
use cn_base::{Copied, List, OutOfMemory, Text};
use serde_json::Value;
use std::alloc::Global;

/// A column's name and type, and whether it may have nulls.
#[derive(Debug, Drop)]
pub struct Field {
    pub name: Text,
    pub kind: DataType,
    pub nullable: bool,
}

/// The columns of a table or a result, from the left.
#[derive(Debug, Drop)]
pub struct Schema(pub List<Field>);

impl Schema {
    ghost use Rattle.cn_types.specs.Json.{schema_in};

    /// Reads a schema's JSON text: an object with `"type":"struct"` and a list `fields` of objects with a text `name`, a `type` of
    /// `boolean`, `integer`, `long`, `string` or `date`, and a truth value `nullable`, which is true where it is missing. Other keys are
    /// ignored. `NotJson` says that the text is no JSON (RFC 8259), `NotStruct` that the value is no such object, and `UnknownType` names
    /// the first field of another type.
    pub fn from_json(alloc: Global, text: &str) -> Result<Schema, SchemaFault>
        ensures ok { IfOk result (λ s. schema_in text.now ≡ Ok s) }
        ensures refused { IfErr result (λ e. e ≢ SchemaFault.OutOfMemory → schema_in text.now ≡ Err e) }
    {
        match Value::from_str(alloc, text) {
            Ok(value) => schema_of(alloc, &value),
            Err(error) => Err(fault_of(&error)),
        }
    }
}

impl Copied for Field {
    fn copy(&self, alloc: Global) -> Result<Field, OutOfMemory> {
        Ok(Field {
            name: self.name.copy(alloc)?,
            kind: self.kind,
            nullable: self.nullable,
        })
    }
}

impl Copied for Schema {
    fn copy(&self, alloc: Global) -> Result<Schema, OutOfMemory> {
        Ok(Schema(self.0.copy(alloc)?))
    }
}
