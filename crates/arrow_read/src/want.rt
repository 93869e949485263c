/// How many batches a stream has to have.
#[derive(Clone, Copy, Debug, PartialEq, Eq)]
pub enum Batches {
    /// One, neither more nor less.
    ExactlyOne,
    /// Any number, none too.
    Any,
}
