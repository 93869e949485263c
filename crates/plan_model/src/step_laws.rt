ghost use Rattle.plan_model.specs.StepLaws.{ConditionsOfPairs, JoinsGrow, GroupsGrow, RowsOnceGrow};

/// Law: columns and expressions of the left side over two rows side by side; when `and`, and `=` of values of one type, are true.
pub fn conditions_of_pairs()
    ensures { ConditionsOfPairs }
{}

/// Law: the pairs of appended inputs, and whether a row has a match in an appended input.
pub fn joins_grow()
    ensures { JoinsGrow }
{}

/// Law: groups of appended rows; counts, sums, and least and greatest values over appended values and over one more.
pub fn groups_grow()
    ensures { GroupsGrow }
{}

/// Law: rows that have each row once, of one more row that was there already or was not.
pub fn rows_once_grow()
    ensures { RowsOnceGrow }
{}
