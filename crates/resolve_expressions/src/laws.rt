ghost use Rattle.resolve_expressions.specs.Laws.{SameIsEqual, TypedIsWellFormed, ValuesAreWellFormed, ConditionsAreWellFormed, RegroupedIsWellFormed};

/// Law: two expressions are the same exactly where they are equal.
pub fn same_expressions_are_equal()
    ensures { SameIsEqual }
{}

/// Law: a typed expression is well formed over the columns' types and behind them the calls' types, and each call over the columns' types.
pub fn typed_expressions_are_well_formed()
    ensures { TypedIsWellFormed }
{}

/// Law: a value without aggregate calls is well formed over the columns' types alone.
pub fn values_are_well_formed()
    ensures { ValuesAreWellFormed }
{}

/// Law: a condition is well formed over the columns' types, and boolean.
pub fn conditions_are_well_formed()
    ensures { ConditionsAreWellFormed }
{}

/// Law: what is put over keys and calls is well formed over the keys' types and behind them the calls', and keeps its type.
pub fn regrouped_expressions_are_well_formed()
    ensures { RegroupedIsWellFormed }
{}
