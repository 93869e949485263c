ghost use Rattle.resolve_sound.specs.PairLaws.{JoinsAre, SetOperationsAre};
ghost use Rattle.resolve_sound.specs.Sound.{IsNullSafe, IsSoundFound};

/// Law: a join of sound relations is sound.
pub fn joins_are_sound()
    ensures { JoinsAre IsSoundFound }
{}

/// Law: a set operation of sound relations is sound.
pub fn set_operations_are_sound<I>()
    ensures { SetOperationsAre I IsSoundFound }
{}

/// Law: a join of null-safe relations is null-safe: what an outer join adds stands in columns that may be null.
pub fn joins_are_null_safe()
    ensures { JoinsAre IsNullSafe }
{}

/// Law: a set operation of null-safe relations is null-safe.
pub fn set_operations_are_null_safe<I>()
    ensures { SetOperationsAre I IsNullSafe }
{}
