ghost use Rattle.resolve_sound.specs.Laws.{AggregatesAre, FewerColumnsAre, KeptRelationsAre, LeavesAre, ProjectionsAre, RenamedRelationsAre, TestedRelationsAre};
ghost use Rattle.resolve_sound.specs.Sound.{HaveFittingRows, IsSoundFound};

/// Law: `limit`, `offset`, an alias and `deduplicate` keep a relation sound.
pub fn kept_relations_are_sound<I>()
    ensures { KeptRelationsAre I IsSoundFound }
{}

/// Law: `filter` and `sort` keep a relation sound.
pub fn tested_relations_are_sound()
    ensures { TestedRelationsAre IsSoundFound }
{}

/// Law: a range is sound, and the table that is read where the tables' rows fit their schemas.
pub fn leaves_are_sound<I>()
    ensures { LeavesAre I HaveFittingRows IsSoundFound }
{}

/// Law: a relation stays sound under other names.
pub fn renamed_relations_are_sound<I>()
    ensures { RenamedRelationsAre I IsSoundFound }
{}

/// Law: a relation stays sound without some of its columns.
pub fn fewer_columns_are_sound<I>()
    ensures { FewerColumnsAre I IsSoundFound }
{}

/// Law: a projection of a sound relation is sound, and a sound relation with more columns.
pub fn projections_are_sound()
    ensures { ProjectionsAre IsSoundFound }
{}

/// Law: an aggregate of a sound relation is sound.
pub fn aggregates_are_sound()
    ensures { AggregatesAre IsSoundFound }
{}
