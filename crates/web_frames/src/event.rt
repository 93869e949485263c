use crate::Trailers;
use cn_base::Bytes;

/// What a whole frame tells.
#[derive(Debug, Drop)]
pub enum FrameEvent {
    /// A message, which the frame's payload is.
    Message(Bytes),
    /// The trailers, which are the last of a response.
    Trailers(Trailers),
}
