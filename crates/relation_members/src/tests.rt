use super::*;
use cn_base::{Bytes, OutOfMemory};
use proto_fields::{MessageKind, MessageWriter, latest, records};
use std::alloc::Global;
use std::process::Abort;
use std::test::Fail;

/// The fields of a member's message besides its inputs, written.
fn rest_of(alloc: Global, member: &RelationMember<u32>) -> Result<Bytes, OutOfMemory> {
    let mut out = MessageWriter::new(alloc);
    put_rest(&mut out, member)?;
    Ok(out.finish())
}

/// The rest of the member over the input 7 that a message's bytes hold, written again.
fn unary_again(alloc: Global, number: u32, bytes: &[u8]) -> Result<Bytes, OutOfMemory> {
    let found = records(alloc, bytes)?;
    let member = unary_member(alloc, number, found.as_slice(), 7u32, 0)?;
    rest_of(alloc, &member)
}

/// The number of a member over one input, the bytes of its message, and the rest of these.
static UNARY: [(u32, &[u8], &[u8]); 3] = [
    (8, b"\x0a\x00\x10\x05", b"\x10\x05"),
    (13, b"\x10\x03", b"\x10\x03"),
    (18, b"\x0a\x00\x12\x01a\x12\x00", b"\x12\x01a\x12\x00"),
];

#[test]
fn members_over_one_input(rt: HostRuntime) -> Result<(), Fail> {
    for (number, bytes, again) in &UNARY {
        assert_eq!(rt; input_count(*number), 1);
        assert_eq!(rt;
            unary_again(rt.alloc(), *number, *bytes)?.as_slice(),
            *again
        );
    }
    Ok(())
}
