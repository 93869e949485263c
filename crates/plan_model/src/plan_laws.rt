ghost use Rattle.plan_model.specs.JoinCounts.{JoinsGoByConditions, JoinsCountTheirRows};
ghost use Rattle.plan_model.specs.KindLaws.{OutcomesOfKinds, TypesOfKinds, ConditionsOfKinds, ConditionsOfForms};
ghost use Rattle.plan_model.specs.LimitLaws.{RowsAreLimited, PlansAreLimited, FirstErrorsAreOfTheLeft};
ghost use Rattle.plan_model.specs.OutcomeLaws.{ChosenIsAllowed, EveryPlanHasAnOutcome, RowsHaveTheTypes, RowsFitTheSchema, RowsAreWithinLimits, DeterminedOutcomesAreAlike};
ghost use Rattle.plan_model.specs.RelationLaws.{PermutationsHaveTheSameCounts, JoinsMatch, JoinsHoldTheirRows, SetOperationsCount, OneRowWithoutKeys, DistinctRowsAreASet, SortedRowsStay, SortsWithoutTiesAreUnique};
ghost use Rattle.plan_model.specs.SelectionLaws.{SelectionsKeepPlaces, SetOperationsHoldTheirRows, SortsGoByTheFirstKey};
ghost use Rattle.plan_model.specs.ValueRanges.{RowsAreInRange};
ghost use Rattle.plan_model.specs.WorkedPlans.{WorkedPlans};
ghost use Rattle.plan_model.specs.WorkedRelations.{WorkedJoins, WorkedSorts, WorkedSlices};

/// Law: the outcomes and the types of each kind of relation, and whether it is well formed, by those of its inputs; and whether each form
/// of expression is well formed, by its parts.
pub fn relations_follow_their_kind()
    ensures outcomes { OutcomesOfKinds }
    ensures types { TypesOfKinds }
    ensures conditions { ConditionsOfKinds }
    ensures expressions { ConditionsOfForms }
{}

/// Law: every well-formed plan allows an outcome, namely the one that plain functions on lists choose.
pub fn plans_have_outcomes()
    ensures relation { ChosenIsAllowed }
    ensures plan { EveryPlanHasAnOutcome }
{}

/// Law: the rows that a well-formed relation allows have its types, and those that a well-formed plan allows fit its schema.
pub fn rows_fit()
    ensures relation { RowsHaveTheTypes }
    ensures plan { RowsFitTheSchema }
{}

/// Law: the rows that a well-formed relation allows are in range, where the rows, numbers and literals in it are.
pub fn rows_are_in_range()
    ensures { RowsAreInRange }
{}

/// Law: the rows of an allowed outcome are within the limits, in number and in weight.
pub fn rows_are_within_limits()
    ensures { RowsAreWithinLimits }
{}

/// Law: two outcomes of one relation without slices and without distinct rows on columns are the same error, or the same rows in some
/// order.
pub fn determined_outcomes_are_alike()
    ensures { DeterminedOutcomesAreAlike }
{}

/// Law: two lists have the same counts exactly where one is a permutation of the other.
pub fn permutations_have_the_same_counts()
    ensures { PermutationsHaveTheSameCounts }
{}

/// Law: an inner join whose condition is never true of rows that fit and are in range has no row; a semi and an anti join split the left
/// rows; a cross join of which each pair matches has each pair.
pub fn joins_match()
    ensures { JoinsMatch }
{}

/// Law: a row is of a join exactly where it is a pair that matches, or a row without a match beside nulls, or a left row with or without a
/// match, as its kind says; and a pair stands there as often as its two rows in the inputs together.
pub fn joins_hold_their_rows()
    ensures { JoinsHoldTheirRows }
{}

/// Law: `except all` of a relation with itself has no row; `union all` adds counts; `intersect all` and `except all` split the left rows;
/// a set operation without `all` has each row at most once.
pub fn set_operations_count()
    ensures { SetOperationsCount }
{}

/// Law: an aggregate without keys has one row, also over no row.
pub fn one_row_without_keys()
    ensures { OneRowWithoutKeys }
{}

/// Law: distinct rows on all columns are the rows, each once.
pub fn distinct_rows_are_a_set()
    ensures { DistinctRowsAreASet }
{}

/// Law: rows that are in order may stay as they are in a sort.
pub fn sorted_rows_stay()
    ensures { SortedRowsStay }
{}

/// Law: where no two rows tie, a sort has one list.
pub fn sorts_without_ties_are_unique()
    ensures { SortsWithoutTiesAreUnique }
{}

/// Law: two rows match exactly where the condition is true of both side by side, and a cross join with a condition is an inner one.
pub fn joins_go_by_conditions()
    ensures { JoinsGoByConditions }
{}

/// Law: how often two rows side by side stand in a join, as a pair and as a row without a match beside nulls, for each kind of join.
pub fn joins_count_their_rows()
    ensures { JoinsCountTheirRows }
{}

/// Law: rows are an outcome exactly where they are at most 4,194,304 and none weighs more than 8,388,608 bytes; too many rows are an error
/// before a row that is too large is.
pub fn rows_are_limited()
    ensures { RowsAreLimited }
{}

/// Law: a plan's outcome is its rows under its schema, or an error of its relation with the limit that was passed.
pub fn plans_are_limited()
    ensures { PlansAreLimited }
{}

/// Law: of two inputs that both fail a join has the left one's error.
pub fn first_errors_are_of_the_left()
    ensures { FirstErrorsAreOfTheLeft }
{}

/// Law: which rows filters, projections and slices have, and at which places.
pub fn selections_keep_places()
    ensures { SelectionsKeepPlaces }
{}

/// Law: which rows a set operation has without `all`, and how often with it.
pub fn set_operations_hold_their_rows()
    ensures { SetOperationsHoldTheirRows }
{}

/// Law: the first key in which two rows differ alone decides; nulls stand where the key says, other values in its direction.
pub fn sorts_go_by_the_first_key()
    ensures { SortsGoByTheFirstKey }
{}

/// Law: small plans and the outcomes that they allow, written out.
pub fn worked_plans_hold()
    ensures plans { WorkedPlans }
    ensures joins { WorkedJoins }
    ensures sorts { WorkedSorts }
    ensures slices { WorkedSlices }
{}
