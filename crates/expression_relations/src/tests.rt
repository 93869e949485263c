use super::*;
use cn_base::{Copied, OutOfMemory};
use proto_fields::{MessageWriter, records};
use std::alloc::Global;
use std::process::Abort;
use std::test::Fail;

/// The copy of the message that the bytes hold.
fn filter_in(alloc: Global, bytes: &[u8]) -> Result<Filter<u32>, OutOfMemory> {
    let found = records(alloc, bytes)?;
    let it = filter_over(alloc, found.as_slice(), 7u32, 200)?;
    it.copy(alloc)
}

/// Bytes, what they are read as, how that is written again, how deep it is, and whether it is known.
static FILTER: [(&[u8], &[u8], &[u8], u32, bool); 2] = [
    (
        b"",
        b"Filter { input: Boxed { inner: 7 }, condition: Other(0) }",
        b"\x12\x00",
        1,
        false,
    ),
    (
        b"\x12\x04\x0a\x02\x18\x01",
        b"Filter { input: Boxed { inner: 7 }, condition: Literal(Boolean(true)) }",
        b"\x12\x04\x0a\x02\x18\x01",
        2,
        true,
    ),
];

#[test]
fn filters_are_read_and_written(rt: HostRuntime) -> Result<(), Fail> {
    for (bytes, shown, again, depth, known) in &FILTER {
        let it = filter_in(rt.alloc(), *bytes)?;
        let printed = format!(in rt.alloc(); "{it:?}")?;
        assert_eq!(rt; printed.as_bytes(), *shown);
        let mut out = MessageWriter::new(rt.alloc());
        put_filter_rest(&mut out, &it)?;
        assert_eq!(rt; out.finish().as_slice(), *again);
        assert_eq!(rt; filter_rest_size(&it), again.len() as u64);
        assert_eq!(rt; filter_rest_depth(&it), *depth);
        assert_eq!(rt; is_known_filter(&it), *known);
    }
    Ok(())
}
