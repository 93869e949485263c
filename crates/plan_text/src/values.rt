ghost use Rattle.std.specs.Prelude.{◌≡◌, ◌++◌, IfOk, OnOk};
ghost use Rattle.std.specs.String.{string_bytes};
ghost use Rattle.plan_text.specs.Drafts as drafts;
ghost use Rattle.plan_text.specs.Writable.{HasValues};

use crate::draft::Draft;
use crate::makers::relation;
use crate::names::push_json;
use arrow_ipc::write_stream;
use cn_base::{List, OutOfMemory, Text};
use cn_types::{DataType, Field, Schema};
use plan_messages::{LocalRelation, RelationMember};
use std::alloc::Global;
use std::mem;

fn kind_word(kind: DataType) -> &'static str
    ensures { result.now ≡ drafts.kind_word kind }
{
    match kind {
        DataType::Boolean => "boolean",
        DataType::Integer => "integer",
        DataType::Long => "long",
        DataType::Text => "string",
        DataType::Date => "date",
    }
}

fn push_field(out: &mut String, field: &Field) -> Result<(), OutOfMemory>
    ensures { OnOk result (string_bytes out.new ≡ string_bytes out.old ++ drafts.field_json field.now) }
{
    out.push_str("{\"name\":\"")?;
    push_json(out, field.name.as_str())?;
    out.push_str("\",\"type\":\"")?;
    out.push_str(kind_word(field.kind))?;
    out.push_str("\",\"nullable\":true,\"metadata\":{}}")
}

/// Adds fields, each behind a comma.
fn push_fields(out: &mut String, fields: &[Field]) -> Result<(), OutOfMemory>
    ensures { OnOk result (string_bytes out.new ≡ string_bytes out.old ++ drafts.more_fields_json fields.now) }
{
    for field in fields {
        out.push_str(",")?;
        push_field(out, field)?;
    }
    Ok(())
}

/// The text of a schema whose fields may all have nulls.
fn schema_json(alloc: Global, fields: &[Field]) -> Result<Text, OutOfMemory>
    ensures { IfOk result (λ t. t ≡ drafts.schema_json fields.now) }
{
    let mut out = String::from_str(alloc, "{\"type\":\"struct\",\"fields\":[")?;
    if let Some((first, more)) = fields.split_first() {
        push_field(&mut out, first)?;
        push_fields(&mut out, more)?;
    }
    out.push_str("]}")?;
    Ok(Text::from_string(out))
}

impl Draft {
    /// Makes a relation of the columns and rows that were read.
    pub fn values(&mut self, alloc: Global) -> Result<(), OutOfMemory>
        requires { HasValues self.old }
        ensures { OnOk result (self.new ≡ drafts.values_done self.old) }
    {
        let schema = Schema(mem::replace(&mut self.columns, List::new(alloc)));
        let rows = mem::replace(&mut self.rows, List::new(alloc));
        let payload = write_stream(alloc, &schema, rows.as_slice())?;
        let text = schema_json(alloc, schema.0.as_slice())?;
        self.relations.put(relation(RelationMember::LocalRelation(LocalRelation {
            payload: Some(payload),
            schema: Some(text),
        })))
    }
}
