use super::*;
use cn_base::{Bytes, OutOfMemory};
use proto_fields::{MessageWriter, records};
use std::alloc::Global;
use std::process::Abort;
use std::test::Fail;

/// The relation that the bytes hold.
fn relation_in(alloc: Global, bytes: &[u8]) -> Result<Relation, OutOfMemory> {
    let found = records(alloc, bytes)?;
    relation_from(alloc, found.as_slice(), 200)
}

/// The relation, written.
fn written(alloc: Global, relation: &Relation) -> Result<Bytes, OutOfMemory> {
    let mut out = MessageWriter::new(alloc);
    put_relation(&mut out, relation)?;
    Ok(out.finish())
}

/// The relation that the bytes hold, written again.
fn again(alloc: Global, bytes: &[u8]) -> Result<Bytes, OutOfMemory> {
    let relation = relation_in(alloc, bytes)?;
    written(alloc, &relation)
}

/// Bytes, and how their relation is written again.
static RELATIONS: [(&[u8], &[u8]); 5] = [
    // A range with a plan id.
    (
        b"\x0a\x02\x10\x01\x7a\x06\x08\x00\x10\x03\x18\x01",
        b"\x0a\x02\x10\x01\x7a\x06\x08\x00\x10\x03\x18\x01",
    ),
    // A filter in two payloads, which are joined.
    (
        b"\x22\x0a\x0a\x08\x7a\x06\x08\x00\x10\x03\x18\x01\x22\x06\x12\x04\x0a\x02\x18\x01",
        b"\x22\x10\x0a\x08\x7a\x06\x08\x00\x10\x03\x18\x01\x12\x04\x0a\x02\x18\x01",
    ),
    // A limit, a range and a limit: the last one counts alone, and has no input.
    (
        b"\x42\x04\x0a\x02\x7a\x00\x7a\x00\x42\x02\x10\x07",
        b"\x42\x04\x0a\x00\x10\x07",
    ),
    // A set operation on two ranges.
    (
        b"\x32\x0a\x0a\x02\x7a\x00\x12\x04\x7a\x02\x10\x03",
        b"\x32\x0a\x0a\x02\x7a\x00\x12\x04\x7a\x02\x10\x03",
    ),
    // A relation outside the profile.
    (b"\xf2\x01\x02\x10\x05", b""),
];

#[test]
fn relations_are_written_again(rt: HostRuntime) -> Result<(), Fail> {
    for (bytes, wanted) in &RELATIONS {
        assert_eq!(rt; again(rt.alloc(), *bytes)?.as_slice(), *wanted);
    }
    Ok(())
}
