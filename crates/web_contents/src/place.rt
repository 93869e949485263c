use crate::WebFault;

/// Where a reader of the contents of a body stands.
#[derive(Clone, Copy, Debug, PartialEq, Eq)]
pub enum ContentPlace {
    /// Within the body: more of it has to come, or may come where it ends with the connection.
    Open,
    /// After the body, whose frames are whole.
    Over,
    /// After the byte that settled a fault, or after memory ran out.
    Refused(WebFault),
}
