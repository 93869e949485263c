use super::*;
use cn_base::{Bytes, Copied, List, OutOfMemory, Text};
use proto_fields::{MessageWriter, records};
use std::alloc::Global;
use std::process::Abort;
use std::test::Fail;

/// A message that was read over the input 7 and copied, as it is printed and written again, and the size of what is written.
#[derive(Drop)]
struct Again {
    printed: String,
    bytes: Bytes,
    size: u64,
}

/// Bytes, what they are read as over the input 7, and how that is written again.
type Row = (&'static [u8], &'static [u8], &'static [u8]);

/// Whether the message is printed and written as the row says.
fn is_row(again: &Again, row: &Row) -> bool {
    again.printed.as_bytes() == row.1
        && again.bytes.as_slice() == row.2
        && again.size == row.2.len() as u64
}

fn limit_again(alloc: Global, bytes: &[u8]) -> Result<Again, OutOfMemory> {
    let found = records(alloc, bytes)?;
    let it = limit_over(alloc, found.as_slice(), 7u32)?.copy(alloc)?;
    let mut out = MessageWriter::new(alloc);
    put_limit_rest(&mut out, &it)?;
    Ok(Again {
        printed: format!(in alloc; "{it:?}")?,
        bytes: out.finish(),
        size: limit_rest_size(&it),
    })
}

static LIMITS: [Row; 3] = [
    (
        b"\x10\x05",
        b"Limit { input: Boxed { inner: 7 }, number: 5 }",
        b"\x10\x05",
    ),
    (b"", b"Limit { input: Boxed { inner: 7 }, number: 0 }", b""),
    // A number below 0 takes ten bytes, and an input and what isn't in the profile are skipped.
    (
        b"\x0a\x00\x10\xff\xff\xff\xff\xff\xff\xff\xff\xff\x01\x1a\x01x",
        b"Limit { input: Boxed { inner: 7 }, number: -1 }",
        b"\x10\xff\xff\xff\xff\xff\xff\xff\xff\xff\x01",
    ),
];

#[test]
fn limits(rt: HostRuntime) -> Result<(), Fail> {
    for row in &LIMITS {
        let again = limit_again(rt.alloc(), row.0)?;
        assert!(rt; is_row(&again, row));
    }
    Ok(())
}

/// An entry of a map.
fn entry(alloc: Global, key: &str, value: &str) -> Result<RenameEntry, OutOfMemory> {
    Ok(RenameEntry {
        key: Text::of(alloc, key)?,
        value: Text::of(alloc, value)?,
    })
}

#[test]
fn the_last_entry_of_a_key_counts(rt: HostRuntime) -> Result<(), Fail> {
    let alloc = rt.alloc();
    let mut entries = List::new(alloc);
    entries.push(entry(alloc, "b", "x")?)?;
    entries.push(entry(alloc, "a", "y")?)?;
    entries.push(entry(alloc, "b", "z")?)?;
    let map = RenameMap::of(alloc, entries)?;
    let found = map.entries();
    assert_eq!(rt; found.len(), 2);
    assert_eq!(rt; found[0].value.as_str(), "y");
    assert_eq!(rt; found[1].value.as_str(), "z");
    Ok(())
}
