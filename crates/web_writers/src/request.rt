ghost use Rattle.std.specs.Prelude.{◌≡◌, ◌++◌, ◌≤◌, length, string_bytes, IfOk};
ghost use Rattle.web_requests.specs.Machine.{request_in, read};
ghost use Rattle.web_writers.specs.Requests as requests;
ghost use Rattle.web_writers.specs.Requests.{IsVisibleText};

use cn_base::{Bytes, OutOfMemory, Text};
use std::alloc::Global;
use web_frames::frame_head;

/// The head of a request whose body has so many bytes.
#[tactic(auto, unfolding(crate::specs::Requests::head_text))]
fn request_head(alloc: Global, path: &str, host: &str, length: usize) -> Result<String, OutOfMemory>
    ensures { IfOk result (λ text. string_bytes text ≡ requests.head_text path.now host.now length) }
{
    let text = format!(in alloc;
        "POST {path} HTTP/1.1\r\nhost: {host}\r\ncontent-type: application/grpc-web+proto\r\naccept: application/grpc-web+proto\r\nx-grpc-web: 1\r\nconnection: close\r\ncontent-length: {length}\r\n\r\n"
    )?;
    Ok(text)
}

/// The bytes of a request to a path of a host: a POST head (RFC 9112, section 3) with a Content-Length, and one message frame. The message
/// has at most 64 MiB; path and host have 1 to 1,024 bytes, all of 0x21 to 0x7E.
#[tactic(auto, unfolding(crate::specs::Requests::request_bytes))]
pub fn write_request(
    alloc: Global,
    path: &str,
    host: &Text,
    message: &[u8],
) -> Result<Bytes, OutOfMemory>
    requires path { IsVisibleText path.now }
    requires host { IsVisibleText host.now }
    requires message { length message.now ≤ 67108864 }
    ensures exact { IfOk result (λ bytes. bytes ≡ requests.request_bytes path.now host.now message.now) }
    ensures read { IfOk result (λ bytes. request_in bytes ≡ read path.now message.now) }
{
    let frame_length = message.len() + 5;
    let head = request_head(alloc, path, host.as_str(), frame_length)?;
    let mut bytes = Bytes::with_room(alloc, head.len() + frame_length)?;
    bytes.append(head.as_bytes())?;
    bytes.append_both(&frame_head(0, message.len() as u32), message)?;
    Ok(bytes)
}
