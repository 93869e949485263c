ghost use Rattle.relation_eval.specs.OrderLaws.{GroupedIsAnAggregate, JoinedIsAJoin};

/// Law: the rows of an aggregate in the order of the first rows of their groups are an aggregate.
pub fn grouped_is_an_aggregate()
    ensures { GroupedIsAnAggregate }
{}

/// Law: the pairs that match in the order of the left rows, and behind them the rows without a match, are a join.
pub fn joined_is_a_join()
    ensures { JoinedIsAJoin }
{}
