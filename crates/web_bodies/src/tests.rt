ghost use Rattle.std.specs.Prelude.{◌<◌, ◌^◌, length};

use super::*;
use cn_base::Bytes;
use std::alloc::Global;
use std::test::Fail;
use web_heads::BodyKind;

/// How a body stands after its bytes.
#[derive(Clone, Copy, Debug, PartialEq, Eq)]
enum End {
    /// More may come.
    Open,
    /// It is over after so many bytes.
    Over(usize),
    Fault(BodyFault),
}

/// Reads a body whose first byte is byte 100 of its connection, in pieces of at most `step` bytes.
fn read(alloc: Global, kind: BodyKind, bytes: &[u8], step: usize) -> Result<(Bytes, End), Fail>
    requires step { 0 < step }
    requires small { length bytes.now < 2 ^ 62 }
{
    let mut payload = Bytes::new(alloc);
    let mut reader = BodyReader::new(alloc, kind, 100);
    let mut taken = 0usize;
    'pieces: while taken < bytes.len() && !reader.is_over() {
        let piece = &bytes[taken..bytes.len().min(taken.saturating_add(step))];
        let ahead = reader.payload_ahead(piece.len());
        if ahead == 0 {
            match reader.take_framing(piece) {
                Ok(count) => taken += count,
                Err(fault) => return Ok((payload, End::Fault(fault))),
            }
        } else {
            payload.append(&piece[..ahead])?;
            reader.take_payload(ahead);
            taken += ahead;
        }
    }
    if reader.is_over() {
        return Ok((payload, End::Over(taken)));
    }
    Ok((payload, End::Open))
}

/// Bodies in chunks: their bytes, the payload in them, and how they stand after them.
static CHUNKED: [(&[u8], &[u8], End); 4] = [
    (
        b"3;a=b\r\nabc\r\n1\r\nd\r\n0\r\nx: y\r\n\r\nGET",
        b"abcd",
        End::Over(29),
    ),
    (b"3\r\nab", b"ab", End::Open),
    (
        b"1\r\na\r\n2\r\nbc\r\r",
        b"abc",
        End::Fault(BodyFault::BadChunk { at: 111 }),
    ),
    (
        b"1\r\na\r\nzz\n",
        b"a",
        End::Fault(BodyFault::BadChunk { at: 106 }),
    ),
];

#[test]
fn bodies_are_read_at_once_and_byte_by_byte(rt: HostRuntime) -> Result<(), Fail> {
    for (bytes, expected, end) in &CHUNKED {
        assert!(rt; bytes.len() < 1_000);
        for step in [1, 1_000] {
            let (payload, stands) = read(rt.alloc(), BodyKind::Chunks, bytes, step)?;
            assert_eq!(rt; payload.as_slice(), *expected, "{bytes:?}");
            assert_eq!(rt; stands, *end, "{bytes:?}");
        }
    }
    Ok(())
}
