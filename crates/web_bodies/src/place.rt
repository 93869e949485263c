use crate::BodyFault;

/// Where the next byte of a body stands (RFC 9112, sections 6 and 7).
#[derive(Clone, Copy, Debug, PartialEq, Eq)]
pub enum BodyPlace {
    /// In a body by length, of which `left` bytes are to come, at least 1.
    DataByLength { left: u64 },
    /// In a body that ends with the connection.
    DataToEnd,
    /// In a chunk line, whose first byte is byte `at` of the connection.
    ChunkLine { at: u64 },
    /// In the data of a chunk, of which `left` bytes are to come, at least 1.
    ChunkData { left: u64 },
    /// At the CR after the data of a chunk.
    ChunkCr,
    /// At the LF after it; the CR is byte `at` of the connection.
    ChunkLf { at: u64 },
    /// In the trailer section, of which `count` bytes have come, fewer than 16,384.
    Trailers { count: u64, line: TrailerPlace },
    /// The body is over.
    Over,
    /// The body is refused.
    Refused { fault: BodyFault },
}

/// Where the next byte of a trailer section stands (RFC 9112, section 7.1.2). The section begins at the beginning of a line.
#[derive(Clone, Copy, Debug, PartialEq, Eq)]
pub enum TrailerPlace {
    /// After the CR LF of a line.
    LineStart,
    /// After the CR of an empty line.
    EmptyLineCr,
    /// In a line.
    InLine,
    /// After a CR in a line that isn't empty.
    LineCr,
}
