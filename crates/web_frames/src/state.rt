use crate::FrameFault;

/// Where a reader of frames stands.
#[derive(Clone, Copy, Debug, PartialEq, Eq)]
pub enum FramePlace {
    /// Before a frame, or within one.
    Open,
    /// After the message of a request.
    Whole,
    /// After the trailers of a response.
    Over,
    /// After the byte that settled a fault, or after memory ran out.
    Refused(FrameFault),
}
