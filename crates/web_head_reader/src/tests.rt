ghost use Rattle.std.specs.Prelude.{◌<◌, ◌≤◌, ◌^◌, length};

use super::*;
use cn_base::Bytes;
use std::alloc::Global;
use std::test::Fail;

/// How a head stands after its bytes.
#[derive(Clone, Copy, Debug, PartialEq, Eq)]
enum End {
    /// More may come.
    Open,
    /// It is whole, and has so many bytes.
    Whole(usize),
    TooLong,
    OutOfMemory,
}

/// How a head stands after a fault.
fn refused(fault: HeadReadFault) -> End {
    match fault {
        HeadReadFault::HeadTooLong => End::TooLong,
        HeadReadFault::OutOfMemory => End::OutOfMemory,
    }
}

/// Reads bytes in pieces: `cut` bytes, and then `step` at a time.
fn read(alloc: Global, bytes: &[u8], cut: usize, step: usize) -> End
    requires cut { cut ≤ length bytes.now }
    requires step { 0 < step }
    requires small { length bytes.now < 2 ^ 62 }
{
    let mut reader = HeadReader::new(alloc);
    let mut start = 0usize;
    let mut end = cut;
    'pieces: loop {
        match reader.take(&bytes[start..end]) {
            Ok(_) => {}
            Err(fault) => return refused(fault),
        }
        if end == bytes.len() {
            break;
        }
        start = end;
        end = bytes.len().min(end.saturating_add(step));
    }
    if reader.is_whole() {
        return End::Whole(reader.head().len());
    }
    End::Open
}

/// Heads, and how they stand after their bytes.
static HEADS: [(&[u8], End); 3] = [
    (b"GET / HTTP/1.1\r\nhost: a\r\n\r\nrest", End::Whole(27)),
    (b"a\r\n\r\r\n\r\n", End::Whole(8)),
    (b"a\r\n \r\n", End::Open),
];

#[test]
fn heads_end_at_the_first_empty_line(rt: HostRuntime) {
    for (bytes, end) in &HEADS {
        assert!(rt; bytes.len() < 1_000);
        assert_eq!(rt; read(rt.alloc(), bytes, 0, 1), *end, "{bytes:?}");
        assert_eq!(rt; read(rt.alloc(), bytes, 0, 1_000), *end, "{bytes:?}");
    }
}

#[test]
fn a_head_takes_no_byte_after_its_end_and_keeps_its_fault(rt: HostRuntime) -> Result<(), Fail> {
    let mut reader = HeadReader::new(rt.alloc());
    assert_eq!(rt; reader.take(b"a\r\n\r\nbody")?, 5);
    assert_eq!(rt; reader.take(b"more")?, 0);
    assert_eq!(rt; reader.head(), b"a\r\n\r\n".as_slice());
    let mut long = Bytes::new(rt.alloc());
    for _ in 0..16_384 {
        long.append(b"x")?;
    }
    let mut refused = HeadReader::new(rt.alloc());
    assert_eq!(rt;
        refused.take(long.as_slice()),
        Err(HeadReadFault::HeadTooLong)
    );
    assert_eq!(rt; refused.take(b"\r\n\r\n"), Err(HeadReadFault::HeadTooLong));
    Ok(())
}
