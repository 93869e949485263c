ghost use Rattle.std.specs.Prelude.{◌<◌, length};

use super::*;
use cn_base::{Bytes, Text};
use std::alloc::Global;
use std::test::Fail;

/// The trailers that a reader tells of the bytes of a connection.
fn trailers_told(alloc: Global, bytes: &[u8]) -> Option<Trailers>
    requires { length bytes.now < 1000 }
{
    let mut reader = ResponseReader::new(alloc);
    let mut start = 0usize;
    for _turn in 0..4 {
        let Ok((taken, event)) = reader.feed(&bytes[start..]) else {
            return None;
        };
        start += taken;
        match event {
            Some(WebEvent::Trailers(trailers)) => return Some(trailers),
            Some(WebEvent::Head { status: _ }) => {}
            Some(WebEvent::Message(_)) => {}
            Some(WebEvent::End) => {}
            None => {}
        }
    }
    None
}

#[test]
fn a_message_with_a_percent_sign_is_written_and_read_back(rt: HostRuntime) -> Result<(), Fail> {
    let message = Text::of(rt.alloc(), "[X] 100%")?;
    assert!(rt; message.as_str().len() <= 65_536);
    assert!(rt; !message.as_str().starts_with(' '));
    let trailers = Trailers { status: 9, message };
    let end = response_end(rt.alloc(), &trailers)?;
    let mut bytes = Bytes::of(rt.alloc(), response_head())?;
    bytes.append(end.as_slice())?;
    assert!(rt; bytes.as_slice().len() < 1_000);
    match trailers_told(rt.alloc(), bytes.as_slice()) {
        Some(told) => {
            assert_eq!(rt; told.status, 9);
            assert_eq!(rt; told.message.as_str(), "[X] 100%");
        }
        None => assert!(rt; false, "no trailers"),
    }
    Ok(())
}

#[test]
fn a_compressed_request_is_unimplemented(rt: HostRuntime) {
    let name = FaultName::Compressed;
    assert_eq!(rt;
        answer_of(WebFault::Compressed),
        Some(FaultAnswer::Grpc { status: 12, name })
    );
    assert_eq!(rt; name.as_str(), "COMPRESSED");
}
