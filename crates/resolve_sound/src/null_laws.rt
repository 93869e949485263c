ghost use Rattle.resolve_sound.specs.Laws.{AggregatesAre, FewerColumnsAre, KeptRelationsAre, LeavesAre, ProjectionsAre, RenamedRelationsAre, TestedRelationsAre};
ghost use Rattle.resolve_sound.specs.Sound.{HaveSafeRows, IsNullSafe};

/// Law: `limit`, `offset`, an alias and `deduplicate` keep a relation null-safe: no null stands in a column that is never null.
pub fn kept_relations_are_null_safe<I>()
    ensures { KeptRelationsAre I IsNullSafe }
{}

/// Law: `filter` and `sort` keep a relation null-safe.
pub fn tested_relations_are_null_safe()
    ensures { TestedRelationsAre IsNullSafe }
{}

/// Law: a range is null-safe, and the table that is read where the tables have nulls only where their schemas say so.
pub fn leaves_are_null_safe<I>()
    ensures { LeavesAre I HaveSafeRows IsNullSafe }
{}

/// Law: a relation stays null-safe under other names.
pub fn renamed_relations_are_null_safe<I>()
    ensures { RenamedRelationsAre I IsNullSafe }
{}

/// Law: a relation stays null-safe without some of its columns.
pub fn fewer_columns_are_null_safe<I>()
    ensures { FewerColumnsAre I IsNullSafe }
{}

/// Law: a projection of a null-safe relation is null-safe, and a null-safe relation with more columns.
pub fn projections_are_null_safe()
    ensures { ProjectionsAre IsNullSafe }
{}

/// Law: an aggregate of a null-safe relation is null-safe.
pub fn aggregates_are_null_safe()
    ensures { AggregatesAre IsNullSafe }
{}
