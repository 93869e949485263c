use super::*;
use MessageFault::{NotUtf8, TooDeep, Wire};
use MessageKind as K;
use cn_base::{Bytes, Text};
use proto_wire::WireFault;
use std::process::Abort;
use std::test::Fail;

fn varint<'a>(number: u32, value: u64) -> Record<'a> {
    let content = Content::Number(value);
    Record { number, content }
}

fn payload(number: u32, bytes: &[u8]) -> Record<'_> {
    let content = Content::Payload(bytes);
    Record { number, content }
}

#[test]
fn the_last_member_of_a_oneof_counts(rt: HostRuntime) -> Result<(), Fail> {
    let items = [
        payload(1, b"a"),
        payload(2, b"b"),
        varint(2, 0),
        payload(1, b"c"),
        payload(3, b"d"),
        payload(1, b"e"),
    ];
    let items = items.as_slice();
    let plan = latest(K::Plan, items).ok_or("no member")?;
    assert_eq!(rt; plan.number, 1);
    let found = payloads(rt.alloc(), plan.since, 1)?;
    let expected: [&[u8]; 2] = [b"c", b"e"];
    assert_eq!(rt; found.as_slice(), expected.as_slice());
    // Of a relation every payload but that of `common` is a member; of a command all are.
    let relation = latest(K::Relation, items).ok_or("no member")?;
    assert_eq!(rt; relation.number, 3);
    assert_eq!(rt;
        last_payload(relation.since, 3).ok_or("none")?,
        b"d".as_slice()
    );
    assert!(rt; latest(K::UserContext, items).is_none());
    Ok(())
}

#[test]
fn a_scalar_is_a_member_by_its_wire_type(rt: HostRuntime) -> Result<(), Fail> {
    let scalars = [varint(3, 1), varint(7, 2), payload(7, b""), varint(5, 9)];
    let literal = latest(K::Literal, scalars.as_slice()).ok_or("no member")?;
    assert_eq!(rt; literal.number, 7);
    assert_eq!(rt; optional_int64(literal.since, 7), Some(2));
    Ok(())
}

#[test]
fn faults_are_printed(rt: HostRuntime) -> Result<(), Fail> {
    let table = [
        (
            Wire(WireFault::Truncated { at: 7 }),
            "the input ends inside a record, at 7",
        ),
        (NotUtf8 { at: 2 }, "a text that is no UTF-8 at 2"),
        (TooDeep { at: 9 }, "a message nested too deep at 9"),
        (MessageFault::OutOfMemory, "out of memory"),
    ];
    for (fault, text) in &table {
        let printed = format!(in rt.alloc(); "{fault}")?;
        assert_eq!(rt; printed.as_str(), *text);
    }
    Ok(())
}

#[test]
fn optional_payloads_are_written_where_present(rt: HostRuntime) -> Result<(), Fail> {
    let alloc = rt.alloc();
    let mut writer = MessageWriter::new(alloc);
    writer.put_optional_text(3, &None)?;
    writer.put_optional_text(2, &Some(Text::new(alloc)))?;
    writer.put_optional_bytes(1, &Some(Bytes::of(alloc, b"\x07")?))?;
    assert_eq!(rt;
        writer.finish().as_slice(),
        b"\x0a\x01\x07\x12\x00".as_slice()
    );
    Ok(())
}
