ghost use Rattle.std.specs.Prelude.{◌<◌};

use super::*;
use cn_base::{Bytes, Copied, Text};
use std::alloc::Global;
use std::test::Fail;

/// What a payload of one side tells: `m` and each message, `t` with the status and the message of trailers, and the fault.
struct Case {
    side: Side,
    bytes: &'static [u8],
    told: &'static str,
}

/// Adds what a reader tells of a piece, and whether it is refused by it.
fn feed_all(
    alloc: Global,
    reader: &mut FrameReader,
    piece: &[u8],
    out: &mut String,
) -> Result<bool, Fail> {
    let mut rest = piece;
    for _ in 0..piece.len() {
        match reader.feed(rest) {
            Ok((taken, event)) => {
                if taken <= rest.len() {
                    rest = &rest[taken..];
                }
                match event {
                    Some(FrameEvent::Message(message)) => {
                        let text = String::from_utf8_lossy(alloc, message.as_slice())?;
                        out.push_str(format!(in alloc; "m:{text} ")?.as_str())?;
                    }
                    Some(FrameEvent::Trailers(trailers)) => {
                        let status = trailers.status;
                        let text = trailers.message.as_str();
                        out.push_str(format!(in alloc; "t{status}:{text} ")?.as_str())?;
                    }
                    None => {}
                }
                if rest.is_empty() {
                    return Ok(false);
                }
            }
            Err(fault) => {
                out.push_str(format!(in alloc; "{fault:?}")?.as_str())?;
                return Ok(true);
            }
        }
    }
    Ok(false)
}

/// What a reader tells of a payload that comes in pieces of so many bytes.
fn told(alloc: Global, case: &Case, step: usize) -> Result<String, Fail>
    requires { 0 < step }
{
    let mut out = String::new(alloc);
    let mut reader = FrameReader::new(alloc, case.side);
    for piece in case.bytes.chunks(step) {
        if feed_all(alloc, &mut reader, piece, &mut out)? {
            return Ok(out);
        }
    }
    Ok(out)
}

static CASES: [Case; 4] = [
    Case {
        side: Side::Response,
        bytes: b"\x02\x00\x00\x00\x01a\x82\x00\x00\x00\x0Fgrpc-status:7\r\n\x00",
        told: "m:a t7: AfterTrailers",
    },
    Case {
        side: Side::Response,
        bytes: b"\x00\x00\x00\x00\x01a\x80\x00\x00\x00\x02x:\x80",
        told: "m:a BadTrailer",
    },
    Case {
        side: Side::Request,
        bytes: b"\x00\x00\x00\x00\x02abc",
        told: "m:ab AfterMessage",
    },
    Case {
        side: Side::Request,
        bytes: b"\x00\x04\x00\x00\x01",
        told: "FrameTooLong { length: 67108865 }",
    },
];

#[test]
fn payloads_tell_the_same_at_once_and_byte_by_byte(rt: HostRuntime) -> Result<(), Fail> {
    for case in &CASES {
        for step in [1, 100] {
            assert_eq!(rt; told(rt.alloc(), case, step)?.as_str(), case.told);
        }
    }
    Ok(())
}

/// The trailers of a payload, or the fault, in one text.
fn trailers_told(alloc: Global, read: Result<Trailers, FrameFault>) -> Result<String, Fail> {
    match read {
        Ok(trailers) => {
            let status = trailers.status;
            let message = trailers.message.as_str();
            Ok(format!(in alloc; "{status}:{message}")?)
        }
        Err(fault) => Ok(format!(in alloc; "{fault:?}")?),
    }
}

static TRAILERS: [(&str, &str); 3] = [
    ("grpc-status:9\r\ngrpc-message:[X] 100%25\r\n", "9:[X] 100%"),
    (
        "no colon\r\nGRPC-Status: 7\r\ngrpc-status:8\r\ngrpc-message:%C3%A4%FF%4",
        "7:\u{E4}\u{FFFD}%4",
    ),
    ("grpc-status:4294967296\r\n", "BadTrailer"),
];

#[test]
fn trailers_say_the_first_of_each_name(rt: HostRuntime) -> Result<(), Fail> {
    let alloc = rt.alloc();
    for (payload, expected) in &TRAILERS {
        let read = read_trailers(alloc, payload.as_bytes());
        assert_eq!(rt; trailers_told(alloc, read)?.as_str(), *expected);
    }
    let of_head = trailers_of(alloc, b"12", Some(b"no%20such"))?;
    assert_eq!(rt; of_head.copy(alloc)?.message.as_str(), "no such");
    Ok(())
}

#[test]
fn written_trailers_have_their_bytes(rt: HostRuntime) -> Result<(), Fail> {
    let alloc = rt.alloc();
    let mut out = Bytes::of(alloc, frame_head(0x80, 40).as_slice())?;
    let message = Text::of(alloc, "[X] 100%")?;
    put_trailers(alloc, &mut out, &Trailers { status: 9, message })?;
    assert_eq!(rt;
        out.as_slice(),
        b"\x80\x00\x00\x00\x28grpc-status:9\r\ngrpc-message:[X] 100%25\r\n".as_slice()
    );
    Ok(())
}
