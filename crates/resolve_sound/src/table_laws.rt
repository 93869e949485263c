ghost use Rattle.resolve_sound.specs.TableLaws.{ChangesKeepNullable, NullableTablesAreSafe};

/// Law: tables whose rows fit and whose columns may all be null are what a table that is read has to be.
pub fn nullable_tables_are_safe()
    ensures { NullableTablesAreSafe }
{}

/// Law: where all columns of tables may be null, so may those of the tables after a change.
pub fn changes_keep_columns_nullable()
    ensures { ChangesKeepNullable }
{}
