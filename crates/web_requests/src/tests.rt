ghost use Rattle.std.specs.Prelude.{◌<◌, ◌≤◌, ◌^◌, length};

use super::*;
use std::alloc::Global;
use web_contents::WebFault;

/// How a request stands after its bytes.
#[derive(Clone, Copy, Debug, PartialEq, Eq)]
enum End {
    /// More has to come.
    More,
    /// It is whole: it goes to `/s/M`, with the message `28 01`.
    Whole,
    /// It is whole, and goes elsewhere or has another message.
    Other,
    Fault(WebFault),
}

/// Whether a whole request is the one of the tables.
fn whole(path: &str, message: &[u8]) -> End {
    if path == "/s/M" && message == b"\x28\x01".as_slice() {
        End::Whole
    } else {
        End::Other
    }
}

/// Reads bytes in pieces: `cut` bytes, and then `step` at a time.
fn read(alloc: Global, bytes: &[u8], cut: usize, step: usize) -> End
    requires cut { cut ≤ length bytes.now }
    requires step { 0 < step }
    requires small { length bytes.now < 2 ^ 62 }
{
    let mut reader = RequestReader::new(alloc);
    let mut start = 0usize;
    let mut end = cut;
    'pieces: loop {
        match reader.feed(&bytes[start..end]) {
            Ok(true) => return whole(reader.path(), reader.message()),
            Ok(false) => {}
            Err(fault) => return End::Fault(fault),
        }
        if end == bytes.len() {
            return End::More;
        }
        start = end;
        end = bytes.len().min(end.saturating_add(step));
    }
}

/// The bytes of connections, and how their requests stand after them.
static REQUESTS: [(&[u8], End); 4] = [
    (
        b"POST /s/M HTTP/1.1\r\ncontent-type: application/grpc-web\r\ntransfer-encoding: chunked\r\n\r\n3\r\n\0\0\0\r\n2\r\n\0\x02\r\n2\r\n(\x01\r\n0\r\n\r\n",
        End::Whole,
    ),
    (
        b"POST /s/M HTTP/1.1\r\ncontent-type: application/grpc-web\r\ncontent-length: 7\r\n\r\n\0\0\0\0\x02(",
        End::More,
    ),
    (
        b"POST / HTTP/1.1\r\nhost: a\r\n\r\n",
        End::Fault(WebFault::BadType),
    ),
    (
        b"POST /s/M HTTP/1.1\r\ncontent-type: application/grpc-web\r\ntransfer-encoding: chunked\r\n\r\n7\r\n\0\0\0\0\x02(\x010\r\n",
        End::Fault(WebFault::BadChunk { at: 96 }),
    ),
];

#[test]
fn requests_are_read_at_once_and_byte_by_byte(rt: HostRuntime) {
    for (bytes, end) in &REQUESTS {
        assert!(rt; bytes.len() < 1_000);
        assert_eq!(rt; read(rt.alloc(), bytes, 0, 1), *end, "{bytes:?}");
        assert_eq!(rt; read(rt.alloc(), bytes, 0, 1_000), *end, "{bytes:?}");
    }
}

/// What the end of the connection makes of a request.
fn cut_off(alloc: Global, bytes: &[u8]) -> Option<WebFault> {
    let mut reader = RequestReader::new(alloc);
    match reader.feed(bytes) {
        Ok(true) => None,
        Ok(false) => Some(reader.finish()),
        Err(_) => Some(reader.finish()),
    }
}

#[test]
fn the_end_of_the_connection_cuts_a_request_off(rt: HostRuntime) {
    let alloc = rt.alloc();
    assert_eq!(rt;
        cut_off(alloc, b"GET / HTTP/1.1\r\nhost: a\r\n\r"),
        Some(WebFault::Truncated)
    );
    assert_eq!(rt;
        cut_off(alloc, b"GET / HTTP/1.1\r\nhost: a\r\n\r\n"),
        Some(WebFault::BadMethod)
    );
}
