ghost use Rattle.std.specs.Prelude.{◌<◌, ◌≤◌, ◌^◌, length};

use super::*;
use std::alloc::Global;
use std::process::Abort;
use std::rt::HostRuntime;
use std::test::Fail;
use web_frames::{FrameFault, Side};
use web_heads::BodyKind;

/// The place of the first byte of each body in its connection.
const AT: u64 = 100;

/// What a body tells: `m` and each message, `t` with the status and the message of trailers, and `end`; and what the end of the connection
/// makes of it after its bytes: whether it is whole, or the fault.
struct Case {
    side: Side,
    kind: BodyKind,
    bytes: &'static [u8],
    told: &'static str,
    finish: Result<bool, WebFault>,
}

/// Writes what a reader told.
fn put_event(alloc: Global, out: &mut String, event: &ContentEvent) -> Result<(), Fail> {
    match event {
        ContentEvent::Message(message) => {
            let text = String::from_utf8_lossy(alloc, message.as_slice())?;
            out.push_str(format!(in alloc; "m:{text} ")?.as_str())?;
        }
        ContentEvent::Trailers(trailers) => {
            let status = trailers.status;
            let text = trailers.message.as_str();
            out.push_str(format!(in alloc; "t{status}:{text} ")?.as_str())?;
        }
        ContentEvent::End => out.push_str("end")?,
    }
    Ok(())
}

/// What a reader tells of bytes in pieces, `cut` bytes and then `step` at a time, and what their end makes of them.
fn read(
    alloc: Global,
    side: Side,
    kind: BodyKind,
    bytes: &[u8],
    cut: usize,
    step: usize,
) -> Result<(String, Result<bool, WebFault>), Fail>
    requires cut { cut ≤ length bytes.now }
    requires small { length bytes.now < 2 ^ 62 }
{
    let mut out = String::new(alloc);
    let mut reader = ContentReader::new(alloc, side, kind, AT);
    let mut start = 0usize;
    let mut end = cut;
    for _turn in 0..1_000 {
        let Ok((taken, event)) = reader.take(&bytes[start..end]) else {
            break;
        };
        start += taken;
        match event {
            Some(ContentEvent::End) => {
                out.push_str("end")?;
                break;
            }
            Some(event) => put_event(alloc, &mut out, &event)?,
            None => {
                if end == bytes.len() {
                    break;
                }
                end = bytes.len().min(end.saturating_add(step));
            }
        }
    }
    Ok((out, reader.finish()))
}

/// Compares what is read at once and byte by byte.
fn check(rt: &impl Abort, alloc: Global, case: &Case) -> Result<(), Fail> {
    assert!(rt; case.bytes.len() < 1_000);
    for step in [1, 1_000] {
        let (told, finish) = read(alloc, case.side, case.kind, case.bytes, 0, step)?;
        assert_eq!(rt; told.as_str(), case.told);
        assert_eq!(rt; finish, case.finish, "{told}");
    }
    Ok(())
}

static CASES: [Case; 4] = [
    Case {
        side: Side::Request,
        kind: BodyKind::Chunks,
        bytes: b"3\r\n\0\0\0\r\n2\r\n\0\x02\r\n2\r\nab\r\n0\r\n\r\n",
        told: "m:ab end",
        finish: Ok(false),
    },
    Case {
        side: Side::Request,
        kind: BodyKind::Length(6),
        bytes: b"\0\0\0\0\x02ab",
        told: "",
        finish: Err(WebFault::NoMessage),
    },
    Case {
        side: Side::Response,
        kind: BodyKind::ToEnd,
        bytes: b"\x80\0\0\0\x2Agrpc-status:9\r\ngrpc-message:a%20b%FF%25c\r\n",
        told: "t9:a b\u{FFFD}%c ",
        finish: Ok(true),
    },
    Case {
        side: Side::Response,
        kind: BodyKind::Chunks,
        bytes: b"7\r\n\0\0\0\0\x02ab\r\n7g\r\n",
        told: "m:ab ",
        finish: Err(WebFault::BadChunk { at: 112 }),
    },
];

#[test]
fn bodies_tell_their_frames_or_the_first_fault(rt: HostRuntime) -> Result<(), Fail> {
    for case in &CASES {
        check(&rt, rt.alloc(), case)?;
    }
    Ok(())
}

#[test]
fn a_fault_is_printed_with_its_number(rt: HostRuntime) -> Result<(), Fail> {
    let fault = WebFault::from(FrameFault::FrameTooLong { length: 9 });
    let text = format!(in rt.alloc(); "{fault}")?;
    assert_eq!(rt; text.as_str(), "a frame of 9 bytes");
    Ok(())
}
