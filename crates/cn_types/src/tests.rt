use crate::*;
use cn_base::{Copied, List, OutOfMemory, Text};
use std::alloc::Global;
use std::cmp::Ordering;
use std::test::Fail;

fn field(alloc: Global, name: &str, kind: DataType) -> Result<Field, OutOfMemory> {
    Ok(Field {
        name: Text::of(alloc, name)?,
        kind,
        nullable: true,
    })
}

fn text(alloc: Global, text: &str) -> Result<Value, OutOfMemory> {
    Ok(Value::Text(Text::of(alloc, text)?))
}

#[test]
fn names_are_printed_with_their_escapes(rt: HostRuntime) -> Result<(), Fail> {
    let alloc = rt.alloc();
    let mut fields = List::new(alloc);
    let none = Schema(List::new(alloc));
    assert_eq!(rt; header_text(alloc, &none)?.as_str(), "\n");
    fields.push(field(alloc, "id", DataType::Long)?)?;
    fields.push(field(alloc, "", DataType::Text)?)?;
    fields.push(field(alloc, "a\\b\tc\nd\re", DataType::Date)?)?;
    fields.push(field(alloc, "é", DataType::Boolean)?)?;
    let schema = Schema(fields).copy(alloc)?;
    assert_eq!(rt;
        header_text(alloc, &schema)?.as_str(),
        "id\t\ta\\\\b\\tc\\nd\\re\té\n"
    );
    Ok(())
}

#[test]
fn values_are_printed(rt: HostRuntime) -> Result<(), Fail> {
    let alloc = rt.alloc();
    let mut values = List::new(alloc);
    values.push(Value::Long(i64::MIN))?;
    values.push(Value::Integer(-1))?;
    values.push(Value::Null)?;
    values.push(Value::Boolean(true))?;
    values.push(Value::Boolean(false))?;
    let mut row = Row(values);
    assert_eq!(rt;
        row_text(alloc, &row)?.as_str(),
        "-9223372036854775808\t-1\t\\N\ttrue\tfalse\n"
    );
    row.0 = List::new(alloc);
    assert_eq!(rt; row_text(alloc, &row)?.as_str(), "\n");
    Ok(())
}

#[test]
fn dates_are_printed(rt: HostRuntime) -> Result<(), Fail> {
    let alloc = rt.alloc();
    let mut values = List::new(alloc);
    values.push(Value::Date(-719162))?;
    values.push(Value::Date(0))?;
    values.push(Value::Date(19782))?;
    values.push(Value::Date(2932896))?;
    assert_eq!(rt;
        row_text(alloc, &Row(values))?.as_str(),
        "0001-01-01\t1970-01-01\t2024-02-29\t9999-12-31\n"
    );
    Ok(())
}

#[test]
fn printed_values_are_read_back(rt: HostRuntime) -> Result<(), Fail> {
    use DataType::*;
    let table = [
        (Boolean, "true", Some(Value::Boolean(true))),
        (Boolean, "false", Some(Value::Boolean(false))),
        (Boolean, "True", None),
        (Boolean, "", None),
        (Boolean, "\\N", Some(Value::Null)),
        (Integer, "-2147483648", Some(Value::Integer(i32::MIN))),
        (Integer, "2147483648", None),
        (Long, "9223372036854775807", Some(Value::Long(i64::MAX))),
        (Long, "-9223372036854775808", Some(Value::Long(i64::MIN))),
        (Long, "9223372036854775808", None),
        (Long, "-0", None),
        (Long, "01", None),
        (Long, "+1", None),
        (Long, "\\\\N", None),
        (Date, "0001-01-01", Some(Value::Date(-719162))),
        (Date, "9999-12-31", Some(Value::Date(2932896))),
        (Date, "2024-02-29", Some(Value::Date(19782))),
        (Date, "2023-02-29", None),
        (Date, "1900-02-29", None),
        (Date, "0000-12-31", None),
        (Date, "10000-01-01", None),
        (Date, "2024-2-9", None),
        (Date, "20240229", None),
        (Date, "2024-02-29T00:00:00", None),
        (Text, "\\N", Some(Value::Null)),
    ];
    for (kind, spelling, want) in table {
        match (value_of_text(rt.alloc(), kind, spelling), want) {
            (Ok(value), Some(want)) => {
                assert_eq!(rt; order(&value, &want), Ordering::Equal, "{spelling}")
            }
            (answer, _) => assert_eq!(rt; answer.err(), Some(ValueFault::BadValue), "{spelling}"),
        }
    }
    Ok(())
}

#[test]
fn printed_texts_are_read_back(rt: HostRuntime) -> Result<(), Fail> {
    let table = [
        ("", Some("")),
        ("a b é", Some("a b é")),
        ("\\\\N", Some("\\N")),
        ("a\\\\x", Some("a\\x")),
        ("\\\\\\t\\n\\r", Some("\\\t\n\r")),
        ("a\\x", None),
        ("a\\é", None),
        ("a\\", None),
        ("a\tb", None),
        ("a\nb", None),
        ("a\rb", None),
        ("\\Na", None),
    ];
    for (spelling, want) in table {
        match (value_of_text(rt.alloc(), DataType::Text, spelling), want) {
            (Ok(Value::Text(found)), Some(want)) => assert_eq!(rt; found.as_str(), want),
            (answer, _) => assert_eq!(rt; answer.err(), Some(ValueFault::BadValue), "{spelling}"),
        }
    }
    Ok(())
}

#[test]
fn values_stand_in_their_order(rt: HostRuntime) {
    let table = [
        (Value::Null, Value::Null, Ordering::Equal),
        (Value::Null, Value::Boolean(false), Ordering::Less),
        (Value::Long(i64::MIN), Value::Null, Ordering::Greater),
        (Value::Boolean(false), Value::Boolean(true), Ordering::Less),
        (Value::Integer(-2), Value::Integer(1), Ordering::Less),
        (Value::Long(10), Value::Long(9), Ordering::Greater),
        (Value::Date(-1), Value::Date(0), Ordering::Less),
    ];
    for (left, right, want) in table {
        assert_eq!(rt; order(&left, &right), want, "{left:?} {right:?}");
    }
}

#[test]
fn texts_stand_in_the_order_of_their_bytes(rt: HostRuntime) -> Result<(), Fail> {
    let table = [
        ("b", "abc", Ordering::Greater),
        ("a", "ab", Ordering::Less),
        ("z", "é", Ordering::Less),
        ("", "", Ordering::Equal),
    ];
    for (left, right, want) in table {
        let (left, right) = (text(rt.alloc(), left)?, text(rt.alloc(), right)?);
        assert_eq!(rt; order(&left, &right), want, "{left:?} {right:?}");
    }
    Ok(())
}

#[test]
fn rows_are_weighed_and_shared(rt: HostRuntime) -> Result<(), Fail> {
    let alloc = rt.alloc();
    let mut values = List::new(alloc);
    values.push(text(alloc, "xé")?)?;
    values.push(Value::Date(0))?;
    values.push(Value::Long(0))?;
    values.push(Value::Integer(0))?;
    values.push(Value::Boolean(true))?;
    values.push(Value::Null)?;
    let row = Row(values).copy(alloc)?;
    assert_eq!(rt; row.weight(), 7 + 4 + 8 + 4 + 1 + 1);
    let mut rows = List::new(alloc);
    rows.push(row)?;
    let shared = RowList::of(alloc, rows)?.share()?.copy(alloc)?;
    assert_eq!(rt; shared.as_slice().len(), 1);
    assert_eq!(rt; DataType::Date.copy(alloc)?, DataType::Date);
    Ok(())
}

#[test]
fn settings_are_copied(rt: HostRuntime) -> Result<(), Fail> {
    let alloc = rt.alloc();
    let mut pairs = List::new(alloc);
    pairs.push(Pair {
        key: Text::of(alloc, "a")?,
        value: Some(Text::of(alloc, "")?),
    })?;
    pairs.push(Pair {
        key: Text::of(alloc, "a")?,
        value: None,
    })?;
    let settings = Settings(pairs).copy(alloc)?;
    let mut shown = String::new(alloc);
    for pair in settings.0.as_slice() {
        shown.push_str(pair.key.as_str())?;
        shown.push_str(if pair.value.is_some() { "=;" } else { ";" })?;
    }
    assert_eq!(rt; shown.as_str(), "a=;a;");
    Ok(())
}

fn said(alloc: Global, answer: Result<Schema, SchemaFault>) -> Result<String, OutOfMemory> {
    let schema = match answer {
        Ok(schema) => schema,
        Err(SchemaFault::NotJson) => return String::from_str(alloc, "NotJson"),
        Err(SchemaFault::NotStruct) => return String::from_str(alloc, "NotStruct"),
        Err(SchemaFault::UnknownType { place }) => return format!(in alloc; "UnknownType {place}"),
        Err(SchemaFault::OutOfMemory) => return String::from_str(alloc, "OutOfMemory"),
    };
    let mut shown = String::new(alloc);
    for field in schema.0.as_slice() {
        shown.push_str(field.name.as_str())?;
        shown.push_str(match field.kind {
            DataType::Boolean => " boolean",
            DataType::Integer => " integer",
            DataType::Long => " long",
            DataType::Text => " string",
            DataType::Date => " date",
        })?;
        shown.push_str(if field.nullable { ";" } else { "!;" })?;
    }
    Ok(shown)
}

#[test]
fn schemas_are_read_from_json(rt: HostRuntime) -> Result<(), Fail> {
    let table = [
        (
            r#"{"type":"struct","fields":[{"name":"a","type":"integer","nullable":true,"metadata":{}}]}"#,
            "a integer;",
        ),
        (
            r#"{"type":"struct","fields":[{"name":"a","type":"double"}]}"#,
            "UnknownType 0",
        ),
        ("[]", "NotStruct"),
        ("", "NotJson"),
        ("x", "NotJson"),
        (
            r#"{"type":"struct","fields":[{"name":"a","type":"long","nullable":1}]}"#,
            "NotStruct",
        ),
        (
            r#"{"fields":[{"type":"date","name":"d"}],"type":"struct"}"#,
            "d date;",
        ),
        (r#"{"type":"struct","fields":[]}"#, ""),
        (
            r#"{"type":"struct","fields":[{"type":"long"}]}"#,
            "NotStruct",
        ),
        (
            r#"{"type":"struct","fields":[{"name":"a","type":"long","type":"date"}]}"#,
            "a date;",
        ),
        (r#"{"type":"struct","fields":{}}"#, "NotStruct"),
        (r#"{"type":"struct"}"#, "NotStruct"),
        (r#"{"type":"array","fields":[]}"#, "NotStruct"),
        (
            r#"{"type":"struct","fields":[{"name":1,"type":"long"}]}"#,
            "NotStruct",
        ),
        (
            r#"{"type":"struct","fields":[{"name":"a","type":{"type":"struct"}}]}"#,
            "UnknownType 0",
        ),
        // What is no struct of named fields comes before an unknown type.
        (
            r#"{"type":"struct","fields":[{"name":"a","type":"double"},{"type":"long"}]}"#,
            "NotStruct",
        ),
        (
            r#"{"type":"struct","fields":[{"name":"a","type":"boolean","nullable":false},{"name":"é","type":"string"},{"name":"c"}]}"#,
            "UnknownType 2",
        ),
        (
            r#"{"type":"struct","fields":[{"name":"a","type":"boolean","nullable":false},{"name":"é","type":"string"}]}"#,
            "a boolean!;é string;",
        ),
    ];
    for (text, want) in table {
        let answer = said(rt.alloc(), Schema::from_json(rt.alloc(), text))?;
        assert_eq!(rt; answer.as_str(), want, "{text}");
    }
    Ok(())
}
