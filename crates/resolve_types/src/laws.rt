ghost use Rattle.resolve_types.specs.Laws.{LiteralsAreWellFormed, AttributesAreWellFormed, CastsAreWellFormed, CallsAreWellFormed};

/// Law: a typed literal is well formed over any columns.
pub fn typed_literals_are_well_formed()
    ensures { LiteralsAreWellFormed }
{}

/// Law: a typed cast is well formed over the columns that its child is well formed over.
pub fn typed_casts_are_well_formed()
    ensures { CastsAreWellFormed }
{}

/// Law: a typed call is well formed over the columns that its arguments are well formed over.
pub fn typed_calls_are_well_formed()
    ensures { CallsAreWellFormed }
{}

/// Law: a typed attribute is well formed over the types of the columns in scope.
pub fn typed_attributes_are_well_formed()
    ensures { AttributesAreWellFormed }
{}
