use resolve_names::{ScopeColumn, Tagged};

/// What the names in an operator's expressions can mean.
#[derive(Clone, Copy, Debug)]
pub struct Names<'a> {
    /// Whether names of columns match exactly.
    pub case_sensitive: bool,
    /// The columns of the operator's input, from the left.
    pub columns: &'a [ScopeColumn],
    /// The relations with a plan id below it.
    pub relations: &'a [Tagged<u64>],
}
