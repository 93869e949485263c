//! Laws over the definitions, each the contract of a function that does nothing. `I` and `J` are the types of the ids.

ghost use Rattle.resolve_ids.specs.Laws.{LimitsJudgeAlike, RowsKeptAlike, LeavesAlike, NamedAlike, DroppedAlike, ColumnsMadeAlike};

/// Law: limits judge the same under other ids, and answers that are alike, once they are judged, are the very same under other ids.
pub fn limits_judge_alike<I, J>()
    ensures { LimitsJudgeAlike I J }
{}

/// Law: `limit`, `offset`, `deduplicate`, an alias, `filter` and `sort` mean the same under other ids.
pub fn rows_are_kept_alike<I, J>()
    ensures { RowsKeptAlike I J }
{}

/// Law: `range` and `read` mean the same with other ids for their columns.
pub fn leaves_are_alike<I, J>()
    ensures { LeavesAlike I J }
{}

/// Law: `to_df` and `with_columns_renamed` mean the same under other ids.
pub fn columns_are_named_alike<I, J>()
    ensures { NamedAlike I J }
{}

/// Law: `drop` means the same under other ids.
pub fn columns_are_dropped_alike<I, J>()
    ensures { DroppedAlike I J }
{}

/// Law: `with_columns`, `project` and `aggregate` mean the same under other ids.
pub fn columns_are_made_alike<I, J>()
    ensures { ColumnsMadeAlike I J }
{}
