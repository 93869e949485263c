use cn_base::List;
use plan_model::Node;
use resolve_names::{ColumnList, Tagged};

/// A relation that is resolved. Columns are told apart by their ids, of the type `I`.
#[derive(Debug, Drop)]
pub struct FoundOf<I> {
    pub node: Node,
    /// Its columns, which names mean.
    pub columns: ColumnList<I>,
    /// The relations with plan ids in it, itself among them, from the left.
    pub relations: List<Tagged<I>>,
}

/// A relation whose columns' ids are numbers.
pub type Found = FoundOf<u64>;
