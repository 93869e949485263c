use cn_base::Bytes;
use web_frames::Trailers;

/// What a body of frames tells as its bytes come.
#[derive(Debug, Drop)]
pub enum ContentEvent {
    /// A message, which the payload of a frame is.
    Message(Bytes),
    /// The trailers, which are the last of a response.
    Trailers(Trailers),
    /// The end of the body, whose frames are whole.
    End,
}
