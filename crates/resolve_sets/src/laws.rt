ghost use Rattle.resolve_sets.specs.Laws.{ResultsBeginWithTheLeft};

/// Law: the first columns of a set operation have the ids, names and qualifiers of the left's.
pub fn results_begin_with_the_left()
    ensures { ResultsBeginWithTheLeft }
{}
