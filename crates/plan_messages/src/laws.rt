//! Laws over the definitions of plans, each the contract of a function that does nothing.

ghost use Rattle.plan_messages.specs.Laws.{PlansAreReadBack, PlanLevelsAgree, PlansAreValid, CommandTextsAreKept};

/// What a plan is spelled as is a sound message wherever its depth is allowed, and is read as the plan.
pub fn plans_are_read_back()
    ensures { PlansAreReadBack }
{}

/// What is read of a sound message is the same at every level that suffices.
pub fn plan_levels_agree()
    ensures { PlanLevelsAgree }
{}

/// What is read of any fields has the bits of its types and UTF-8 texts, so that it can be written again.
pub fn plans_are_valid()
    ensures { PlansAreValid }
{}

/// Every text of a sound command is read as it stands.
pub fn command_texts_are_kept()
    ensures { CommandTextsAreKept }
{}
