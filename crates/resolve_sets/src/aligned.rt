use cn_types::DataType;

/// The places, in the left and in the right relation, of what becomes one column; `None` where a side has no such column.
#[derive(Clone, Copy, Debug)]
pub struct Places {
    pub left: Option<u32>,
    pub right: Option<u32>,
}

/// What becomes one column, with its type.
#[derive(Clone, Copy, Debug)]
pub struct Aligned {
    pub left: Option<u32>,
    pub right: Option<u32>,
    pub kind: DataType,
}
