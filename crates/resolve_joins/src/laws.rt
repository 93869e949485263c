ghost use Rattle.resolve_joins.specs.Laws.{OtherColumnsAreOld, SemiJoinsHaveTheLeftAlone};

/// Law: only the keys of a full join are new columns. Each other column has the id of one of the left's or the right's columns, and in a semi
/// join and an anti join of one of the left's.
pub fn other_columns_are_old()
    ensures { OtherColumnsAreOld }
{}

/// Law: a semi join and an anti join without keys have the left's columns as they are.
pub fn semi_joins_have_the_left_alone()
    ensures { SemiJoinsHaveTheLeftAlone }
{}
