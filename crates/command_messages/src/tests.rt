use super::*;
use cn_base::{Bytes, Copied, OutOfMemory};
use proto_fields::{MessageWriter, records};
use std::alloc::Global;
use std::process::Abort;
use std::test::Fail;

/// The write operation over this input that the bytes hold.
fn operation_in(
    alloc: Global,
    bytes: &[u8],
    input: u32,
) -> Result<WriteOperation<u32>, OutOfMemory> {
    let found = records(alloc, bytes)?;
    write_operation_over(alloc, found.as_slice(), input)
}

/// The fields besides the input of a copy, written again.
fn rest_again(alloc: Global, operation: &WriteOperation<u32>) -> Result<Bytes, OutOfMemory> {
    let like = write_operation_like(alloc, operation, true)?;
    let copied = like.copy(alloc)?;
    let mut out = MessageWriter::new(alloc);
    put_write_operation_rest(&mut out, &copied)?;
    Ok(out.finish())
}

/// Bytes, what they are read as, and how the fields besides the input are written again.
static OPERATIONS: [(&[u8], &[u8], &[u8]); 4] = [
    (
        b"",
        b"WriteOperation { input: 7, source: None, table: None, mode: 0 }",
        b"",
    ),
    (
        b"\x0a\x00\x12\x01p\x22\x05\x0a\x01t\x10\x02\x28\x03",
        b"WriteOperation { input: 7, source: Some(Text { inner: \"p\" }), table: Some(SaveTable { table_name: Text { inner: \"t\" }, save_method: 2 }), mode: 3 }",
        b"\x12\x01p\x22\x05\x0a\x01t\x10\x02\x28\x03",
    ),
    // An empty table and an empty source are there.
    (
        b"\x12\x00\x22\x00",
        b"WriteOperation { input: 7, source: Some(Text { inner: \"\" }), table: Some(SaveTable { table_name: Text { inner: \"\" }, save_method: 0 }), mode: 0 }",
        b"\x12\x00\x22\x00",
    ),
    // Two payloads of one message are joined, and the path 3 is skipped.
    (
        b"\x22\x03\x0a\x01a\x1a\x01/\x22\x02\x10\x01",
        b"WriteOperation { input: 7, source: None, table: Some(SaveTable { table_name: Text { inner: \"a\" }, save_method: 1 }), mode: 0 }",
        b"\x22\x05\x0a\x01a\x10\x01",
    ),
];

#[test]
fn write_operations(rt: HostRuntime) -> Result<(), Fail> {
    for (bytes, shown, again) in &OPERATIONS {
        let operation = operation_in(rt.alloc(), *bytes, 7)?;
        let printed = format!(in rt.alloc(); "{operation:?}")?;
        assert_eq!(rt; printed.as_bytes(), *shown);
        assert_eq!(rt; rest_again(rt.alloc(), &operation)?.as_slice(), *again);
        assert_eq!(rt; write_operation_rest_size(&operation), again.len() as u64);
    }
    Ok(())
}
