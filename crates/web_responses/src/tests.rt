ghost use Rattle.std.specs.Prelude.{◌+◌, ◌<◌, ◌≤◌, ◌^◌, length};

use super::*;
use std::alloc::Global;
use std::process::Abort;
use std::rt::HostRuntime;
use std::test::Fail;
use web_contents::WebFault;

/// What the bytes of a connection tell: `h` and the status of the head, `m` and each message, `t` with the status and the message of trailers,
/// and `end`; and what the end of the connection makes of them: whether the answer is whole, or the fault.
struct Case {
    bytes: &'static [u8],
    told: &'static str,
    finish: Result<bool, WebFault>,
}

/// Writes what a reader told.
fn put_event(alloc: Global, out: &mut String, event: &WebEvent) -> Result<(), Fail> {
    match event {
        WebEvent::Head { status } => {
            out.push_str(format!(in alloc; "h{status} ")?.as_str())?;
        }
        WebEvent::Message(message) => {
            let text = String::from_utf8_lossy(alloc, message.as_slice())?;
            out.push_str(format!(in alloc; "m:{text} ")?.as_str())?;
        }
        WebEvent::Trailers(trailers) => {
            let status = trailers.status;
            let text = trailers.message.as_str();
            out.push_str(format!(in alloc; "t{status}:{text} ")?.as_str())?;
        }
        WebEvent::End => out.push_str("end")?,
    }
    Ok(())
}

/// What a reader tells of bytes in pieces, `cut` bytes and then `step` at a time, and what their end makes of them.
fn read(
    alloc: Global,
    bytes: &[u8],
    cut: usize,
    step: usize,
) -> Result<(String, Result<bool, WebFault>), Fail>
    requires cut { cut ≤ length bytes.now }
    requires small { length bytes.now < 2 ^ 62 }
{
    let mut out = String::new(alloc);
    let mut reader = ResponseReader::new(alloc);
    let mut start = 0usize;
    let mut end = cut;
    for _turn in 0..2_000 {
        let Ok((taken, event)) = reader.feed(&bytes[start..end]) else {
            break;
        };
        start += taken;
        match event {
            Some(event) => put_event(alloc, &mut out, &event)?,
            None => {
                if end == bytes.len() {
                    break;
                }
                end = bytes.len().min(end.saturating_add(step));
            }
        }
    }
    let finish = reader.finish();
    Ok((out, finish))
}

/// Compares what is read at once and byte by byte.
fn check(rt: &impl Abort, alloc: Global, case: &Case) -> Result<(), Fail> {
    assert!(rt; case.bytes.len() < 1_000);
    for step in [1, 1_000] {
        let (told, finish) = read(alloc, case.bytes, 0, step)?;
        assert_eq!(rt; told.as_str(), case.told);
        assert_eq!(rt; finish, case.finish, "{told}");
    }
    Ok(())
}

static CASES: [Case; 4] = [
    Case {
        bytes: b"HTTP/1.1 200 OK\r\ncontent-type: application/grpc-web+proto\r\ntransfer-encoding: Chunked\r\n\r\n7\r\n\0\0\0\0\x02ab\r\n14\r\n\x80\0\0\0\x0Fgrpc-status:0\r\n\r\n0\r\n\r\n",
        told: "h200 m:ab t0: end",
        finish: Ok(false),
    },
    Case {
        bytes: b"HTTP/1.1 200 OK\r\ncontent-type: application/grpc-web\r\n\r\n\0\0\0\0\x02ab",
        told: "h200 m:ab ",
        finish: Ok(true),
    },
    Case {
        bytes: b"HTTP/1.1 500 Oh\r\ngrpc-status: 13\r\ntransfer-encoding: chunked\r\n\r\n1\r\nx\r\n",
        told: "h500 t13: ",
        finish: Err(WebFault::AfterTrailers),
    },
    Case {
        bytes: b"HTTP/1.1 200 OK\r\ncontent-type: application/grpc-web\r\ntransfer-encoding: chunked\r\n\r\n5\r\n\0\0\0\0\0\r\nx\r\n",
        told: "h200 m: ",
        finish: Err(WebFault::BadChunk { at: 93 }),
    },
];

#[test]
fn answers_tell_their_events_or_the_first_fault(rt: HostRuntime) -> Result<(), Fail> {
    for case in &CASES {
        check(&rt, rt.alloc(), case)?;
    }
    Ok(())
}
