ghost use Rattle.std.specs.Prelude.{◌≡◌};
ghost use Rattle.web_frames.specs.Format as format;

/// The longest payload of a request's frame, in bytes: 64 MiB.
pub const REQUEST_LIMIT: u32 = 67_108_864;

/// The longest payload of a response's frame, in bytes: 16 MiB.
pub const RESPONSE_LIMIT: u32 = 16_777_216;

/// Whose frames these are.
#[derive(Clone, Copy, Debug, PartialEq, Eq)]
pub enum Side {
    /// A request: one message, and nothing after it.
    Request,
    /// A response: messages, and then the trailers, where there are some, and nothing after them.
    Response,
}

/// The longest payload of a frame of a side, in bytes.
pub(crate) fn frame_limit(side: Side) -> u32
    ensures { result ≡ format.frame_limit side }
{
    match side {
        Side::Request => REQUEST_LIMIT,
        Side::Response => RESPONSE_LIMIT,
    }
}
