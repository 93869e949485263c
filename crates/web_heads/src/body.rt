/// How the body after a head is framed (RFC 9112, section 6.3).
#[derive(Clone, Copy, Debug, PartialEq, Eq)]
pub enum BodyKind {
    /// So many bytes, at most 2^62.
    Length(u64),
    /// Chunks, and then trailer fields (RFC 9112, section 7.1).
    Chunks,
    /// All bytes up to the end of the connection. Only a response has such a body.
    ToEnd,
}
