ghost use Rattle.table_store.specs.Laws.{AChangeChangesOneTable, AnAbsentNameFindsNone, ANameFindsItsTable, TheRuleHasCauses};

/// Law: a name finds exactly the one table whose name folds to the same.
pub fn a_name_finds_its_table()
    ensures { ANameFindsItsTable }
{}

/// Law: a name finds no table exactly where no table's name folds to the same.
pub fn an_absent_name_finds_none()
    ensures { AnAbsentNameFindsNone }
{}

/// Law: a change is skipped exactly where it creates or skips and its table is there, and refused exactly in the cases that
/// `Keeper::commit` names.
pub fn the_rule_has_causes()
    ensures { TheRuleHasCauses }
{}

/// Law: a change that is applied raises the version by one, gives its name its table, and leaves each other name the table that it had.
pub fn a_change_changes_one_table()
    ensures { AChangeChangesOneTable }
{}
