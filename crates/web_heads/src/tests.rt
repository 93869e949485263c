use super::*;
use std::test::Fail;

#[test]
fn a_request_says_its_path_and_its_framing(rt: HostRuntime) {
    let table: [(&[u8], Result<BodyKind, HeadFault>); 3] = [
        (
            b"POST /p HTTP/1.1\r\ncontent-type: application/grpc-web\r\ncontent-length: 9\r\n\r\n",
            Ok(BodyKind::Length(9)),
        ),
        (
            b"GET / HTTP/1.1\r\nhost: a\r\n\r\n",
            Err(HeadFault::BadMethod),
        ),
        (b"GET / HTTP/1.1\r\nhost\r\n\r\n", Err(HeadFault::BadHead)),
    ];
    for (head, body) in table {
        match read_request_head(rt.alloc(), head) {
            Ok(read) => {
                assert_eq!(rt; read.path.as_str(), "/p");
                assert_eq!(rt; Ok(read.body), body, "{head:?}");
            }
            Err(fault) => assert_eq!(rt; Err(fault), body, "{head:?}"),
        }
    }
}

#[test]
fn a_response_says_its_status_and_its_trailers(rt: HostRuntime) -> Result<(), Fail> {
    let bytes: &[u8] =
        b"HTTP/1.1 200 OK\r\ncontent-type: application/grpc-web\r\nGrpc-Status: 12\r\ngrpc-status: 3\r\nGRPC-MESSAGE: x%20y \r\n\r\n";
    let head = read_response_head(rt.alloc(), bytes)?;
    assert_eq!(rt; head.status, 200);
    assert_eq!(rt; head.body, BodyKind::ToEnd);
    assert!(rt; head.has_grpc_type);
    match &head.grpc_status {
        Some(status) => assert_eq!(rt; status.as_slice(), b"12".as_slice()),
        None => assert!(rt; false, "no status"),
    }
    match &head.grpc_message {
        Some(message) => assert_eq!(rt; message.as_slice(), b"x%20y".as_slice()),
        None => assert!(rt; false, "no message"),
    }
    Ok(())
}

#[test]
fn lines_numbers_and_ends_are_found(rt: HostRuntime) {
    assert_eq!(rt; chunk_size(b"ff;a=b\r\n"), Some(255));
    assert_eq!(rt; chunk_size(b"0000000000000000f\r\n"), None);
    assert_eq!(rt; head_end(b"ab\r\n\r\nc\r\n\r\n", 3), Some(11));
    assert_eq!(rt; decimal(b"007", 10), Some(7));
    assert_eq!(rt; decimal(b"11", 10), None);
}
