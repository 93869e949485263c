ghost use Rattle.std.specs.Prelude.{◌≡◌, ◌<◌};
ghost use Rattle.arrow_read.specs.Tables.{presence as said_presence, int_kind as said_int, date_kind as said_date, plain_kind as said_plain, kind_in as said_kind, type_in as said_type, has_item as says_item, plain_type_in as said_plain_type, field_in as said_field};

use crate::text;
use cn_types::DataType;
use flat_tables::{Table, Vector};
use std::marker::Model;

/// The table `Field` (Schema.fbs): the name, whether there may be nulls, and the type, if it is one of the five.
#[derive(Debug, Drop)]
pub(crate) struct RawField<'a> {
    pub(crate) name: &'a str,
    pub(crate) nullable: bool,
    pub(crate) kind: Option<DataType>,
}

impl<'a> Model for RawField<'a> {
    ghost use Rattle.arrow_read.specs.Tables.{FieldView};

    ghost Value = { FieldView };

    ghost view = { λ f. record { name = f.name.now; nullable = f.nullable; kind = f.kind } };
}

/// Whether a slot's field is there, or none where its entry lies outside the buffer. It needs no byte of the field.
#[tactic(auto, unfolding(crate::specs::Tables::presence))]
pub(crate) fn presence(table: &Table, slot: u16) -> Option<bool>
    ensures { result ≡ said_presence table.now slot }
{
    flat_tables::slots_are_found();
    if table.has(slot) {
        return Some(true);
    }
    match table.u8_at(slot) {
        Ok(None) => Some(false),
        Ok(Some(_)) => None,
        Err(_) => None,
    }
}

/// The type of a table `Int`: signed, of 32 or 64 bits.
fn int_kind(width: i32, signed: u8) -> Option<DataType>
    ensures { result ≡ said_int width signed }
{
    if signed == 0 {
        return None;
    }
    match width {
        32 => Some(DataType::Integer),
        64 => Some(DataType::Long),
        _ => None,
    }
}

/// The type of a table `Date`, in days.
fn date_kind(unit: i16) -> Option<DataType>
    ensures { result ≡ said_date unit }
{
    if unit == 0 {
        Some(DataType::Date)
    } else {
        None
    }
}

/// A type without slots, by its number in the union `Type`.
fn plain_kind(number: u8) -> Option<DataType>
    ensures { result ≡ said_plain number }
{
    match number {
        5 => Some(DataType::Text),
        6 => Some(DataType::Boolean),
        _ => None,
    }
}

/// A type by its number in the union `Type` and its table.
#[tactic(auto, unfolding(crate::specs::Tables::kind_in))]
fn kind_in(number: u8, table: &Table) -> Option<Option<DataType>>
    ensures { result ≡ said_kind number table.now }
{
    if number == 2 {
        let width = table.i32_at(0).ok()?;
        let signed = table.u8_at(1).ok()?;
        return Some(int_kind(width.unwrap_or(0), signed.unwrap_or(0)));
    }
    if number == 8 {
        let unit = table.i16_at(0).ok()?;
        return Some(date_kind(unit.unwrap_or(1)));
    }
    Some(plain_kind(number))
}

/// A field's type, which has to be there.
#[tactic(auto, unfolding(crate::specs::Tables::type_in))]
fn type_in(field: &Table) -> Option<Option<DataType>>
    ensures { result ≡ said_type field.now }
{
    let number = field.u8_at(2).ok()?;
    let named = field.table_at(3).ok()?;
    let table = named?;
    kind_in(number.unwrap_or(0), &table)
}

fn has_item(vector: &Option<Vector>) -> bool
    ensures { result ≡ says_item vector.now }
{
    match vector {
        Some(vector) => !vector.is_empty(),
        None => false,
    }
}

/// A field's type, which is none of the five where there is a dictionary or a child.
#[tactic(auto, unfolding(crate::specs::Tables::plain_type_in))]
fn plain_type_in(field: &Table) -> Option<Option<DataType>>
    ensures { result ≡ said_plain_type field.now }
{
    let kind = type_in(field)?;
    let dictionary = presence(field, 4)?;
    let children = field.vector_at(5, 4).ok()?;
    if dictionary || has_item(&children) {
        return Some(None);
    }
    Some(kind)
}

/// The field at a place of a schema's fields.
#[tactic(auto, unfolding(crate::specs::Tables::field_in))]
pub(crate) fn field_in<'a>(fields: &Vector<'a>, place: usize) -> Option<RawField<'a>>
    requires within { place < fields.now.count }
    requires offsets { fields.now.width ≡ 4 }
    ensures { result ≡ said_field fields.now place }
{
    let field = fields.table(place).ok()?;
    let bytes = field.text_at(0).ok()?;
    let nullable = field.u8_at(1).ok()?;
    let kind = plain_type_in(&field)?;
    let name = text::utf8(bytes.unwrap_or(b""))?;
    Some(RawField {
        name,
        nullable: nullable.unwrap_or(0) != 0,
        kind,
    })
}
