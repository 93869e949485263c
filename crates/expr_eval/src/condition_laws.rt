ghost use Rattle.expr_eval.specs.ConditionLaws.{WellFormedIsInRange};

/// Law: a well-formed expression and a row that fits its columns meet what the evaluation asks for.
pub fn well_formed_is_in_range()
    ensures { WellFormedIsInRange }
{}
