use crate::HeadReadFault;

/// Where a reader of a head stands.
#[derive(Clone, Copy, Debug, PartialEq, Eq)]
pub enum HeadPlace {
    /// Before the head's last byte.
    Open,
    /// After the head's last byte.
    Whole,
    /// After the byte that settled the fault, or after memory ran out.
    Refused(HeadReadFault),
}
