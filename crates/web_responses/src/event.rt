use cn_base::Bytes;
use web_frames::Trailers;

/// What a response tells as its bytes come.
#[derive(Debug, Drop)]
pub enum WebEvent {
    /// Its head, which is right, with the status code (RFC 9110, section 15).
    Head { status: u16 },
    /// A message.
    Message(Bytes),
    /// The trailers: of the head, where it has them, or of the body, where they are the last of its frames.
    Trailers(Trailers),
    /// The end of a body by length or in chunks. Bytes after it say nothing.
    End,
}
