ghost use Rattle.session_core.specs.Laws.{CaseIsFree, OneIdIsSpelled, PresetsStay};
ghost use Rattle.session_core.specs.Presets.{IntegerTextsAreWritten};

/// Law: texts that differ only in case are texts of one id, and a text is that of at most one.
pub fn ids_fold_case()
    ensures case { CaseIsFree }
    ensures one { OneIdIsSpelled }
{}

/// Law: the values that `spark.sql.execution.arrow.maxRecordsPerBatch` may take are the texts that are written for numbers of 32 bits.
pub fn integers_are_written()
    ensures { IntegerTextsAreWritten }
{}

/// Law: the presets' keys are the first of a session's settings, and no key stands twice; no operation ends that.
pub fn presets_stay()
    ensures { PresetsStay }
{}
