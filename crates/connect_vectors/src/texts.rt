use crate::input::{first_word, unreadable};
use crate::lines::{row_shown, schema_text};
use cn_base::List;
use cn_types::{DataType, Row, Schema, SchemaFault, Value, ValueFault, value_of_text};
use std::alloc::{AllocError, Global};

/// The schema that a JSON text says, or why it says none.
pub fn schema(alloc: Global, text: &str) -> Result<String, AllocError> {
    match Schema::from_json(alloc, text) {
        Ok(schema) => {
            let schema = schema_text(alloc, &schema)?;
            format!(in alloc; "ok {schema}")
        }
        Err(SchemaFault::OutOfMemory) => Err(AllocError),
        Err(fault) => format!(in alloc; "{fault:?}"),
    }
}

/// The value of a type that a text spells, printed again.
pub fn value(alloc: Global, argument: &str) -> Result<String, AllocError> {
    let (name, text) = first_word(argument);
    let Some(kind) = kind_of(name) else {
        return unreadable(alloc);
    };
    match value_of_text(alloc, kind, text) {
        Ok(value) => printed(alloc, value),
        Err(ValueFault::OutOfMemory) => Err(AllocError),
        Err(fault) => format!(in alloc; "{fault:?}"),
    }
}

fn printed(alloc: Global, value: Value) -> Result<String, AllocError> {
    let mut values = List::new(alloc);
    values.push(value)?;
    let text = row_shown(alloc, &Row(values))?;
    format!(in alloc; "ok {text}")
}

fn kind_of(name: &str) -> Option<DataType> {
    match name {
        "boolean" => Some(DataType::Boolean),
        "integer" => Some(DataType::Integer),
        "long" => Some(DataType::Long),
        "string" => Some(DataType::Text),
        "date" => Some(DataType::Date),
        _ => None,
    }
}
