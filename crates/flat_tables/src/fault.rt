use thiserror::Error;

/// Why a look-up in a flatbuffer gave nothing.
#[derive(Clone, Copy, Debug, PartialEq, Eq, Error)]
pub enum FlatFault {
    /// A byte that the look-up needs lies outside the buffer. `at` is the place, counted in bytes from the buffer's beginning, of the
    /// number that was to be read; where it is a place below 0, that of the table; for the items of a vector or a text the buffer's length.
    #[error("a byte at {at} lies outside the buffer")]
    OutOfRange { at: usize },
}
