use super::*;
use cn_base::Text;
use std::test::Fail;
use web_frames::Trailers;

#[test]
fn a_request_is_written(rt: HostRuntime) -> Result<(), Fail> {
    let host = Text::of(rt.alloc(), "a:1")?;
    let bytes = write_request(rt.alloc(), "/s/M", &host, b"\x28\x01")?;
    let head =
        b"POST /s/M HTTP/1.1\r\nhost: a:1\r\ncontent-type: application/grpc-web+proto\r\naccept: application/grpc-web+proto\r\nx-grpc-web: 1\r\nconnection: close\r\ncontent-length: 7\r\n\r\n";
    let (front, back) = bytes.as_slice().split_at(head.len().min(bytes.len()));
    assert_eq!(rt; front, head.as_slice());
    assert_eq!(rt; back, b"\0\0\0\0\x02\x28\x01".as_slice());
    Ok(())
}

#[test]
fn a_response_is_written(rt: HostRuntime) -> Result<(), Fail> {
    let head =
        b"HTTP/1.1 200 OK\r\ncontent-type: application/grpc-web+proto\r\nconnection: close\r\ntransfer-encoding: chunked\r\n\r\n";
    assert_eq!(rt; response_head(), head.as_slice());
    let message = response_message(rt.alloc(), b"0123456789ab")?;
    assert_eq!(rt;
        message.as_slice(),
        b"11\r\n\0\0\0\0\x0c0123456789ab\r\n".as_slice()
    );
    Ok(())
}

#[test]
fn a_response_is_ended(rt: HostRuntime) -> Result<(), Fail> {
    let message = Text::of(rt.alloc(), "[X] 100%")?;
    assert!(rt; message.as_str().len() <= 65_536);
    assert!(rt; !message.as_str().starts_with(' '));
    let trailers = Trailers { status: 9, message };
    let end = response_end(rt.alloc(), &trailers)?;
    assert_eq!(rt;
        end.as_slice(),
        b"2d\r\n\x80\0\0\0\x28grpc-status:9\r\ngrpc-message:[X] 100%25\r\n\r\n0\r\n\r\n".as_slice()
    );
    Ok(())
}

#[test]
fn a_request_is_refused(rt: HostRuntime) -> Result<(), Fail> {
    let head = refused_head(rt.alloc(), 405)?;
    assert_eq!(rt;
        head.as_slice(),
        b"HTTP/1.1 405 Method Not Allowed\r\nconnection: close\r\ncontent-length: 0\r\n\r\n".as_slice()
    );
    Ok(())
}
