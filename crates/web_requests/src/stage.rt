use web_contents::WebFault;

/// Which part of a request a reader is in.
#[derive(Clone, Copy, Debug, PartialEq, Eq)]
pub(crate) enum Stage {
    /// Its head.
    Head,
    /// Its body, or after it; the reader of the body's contents says where.
    Body,
    /// After a fault of the head, or after memory ran out.
    Refused(WebFault),
}
