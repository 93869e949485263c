ghost use Rattle.plan_model.specs.LogicLaws.{TruthTables, TruthCommutes, DeMorgan, EqualityTellsSameness, NullSafeEqualityTellsSameness};
ghost use Rattle.plan_model.specs.AggregateLaws.{NoValues, CountsAreNeverNull, TotalsAddUp, ExtremesAreReached, CallsHaveTheirType, CallsIgnoreOrder, DistinctValuesAreCounted};
ghost use Rattle.plan_model.specs.CallLaws.{ComparisonsFollowTheOrder, ArithmeticWraps, WhenTakesTheFirst, CoalesceTakesTheFirst, InTellsMembers, TextsAreMadeOfParts, DaysMove, NullsAreTold};
ghost use Rattle.plan_model.specs.FunctionLaws.{NumbersWrap, TextsStartAndEnd, DatePartsAreOfTheCalendar};
ghost use Rattle.plan_model.specs.TypingLaws.{CallsAreOfTheTable, AggregatesAreOfTheTable};
ghost use Rattle.plan_model.specs.ValueLaws.{ValuesOfForms, CastsGiveTheType, DaysAreTested, PartsAreWithin, ValuesHaveTheirType};
ghost use Rattle.plan_model.specs.ValueRanges.{ValuesAreInRange, CallsAreInRange};
ghost use Rattle.plan_model.specs.WorkedRows.{WorkedNumbers, WorkedTruths, WorkedComparisons, WorkedTextsAndDates, WorkedCasts, WorkedAggregates};
ghost use Rattle.plan_model.specs.WorkedTypes.{WorkedCallTypes, WorkedAggregateTypes, CastsOfTypes};

use cn_types::{equal_values_are_the_same, values_are_ordered};

/// Law: `and`, `or` and `not` have Kleene's three-valued tables.
pub fn truth_tables_are_three_valued()
    ensures { TruthTables }
{}

/// Law: `and` and `or` are commutative.
pub fn truth_commutes()
    ensures { TruthCommutes }
{}

/// Law: `not` turns `and` into `or` of the opposites, and `or` into `and`.
pub fn de_morgan_holds()
    ensures { DeMorgan }
{}

/// Law: `=` is null where one side is null, and else tells whether two values of a type are the same.
pub fn equality_tells_sameness()
    ensures { EqualityTellsSameness }
{
    equal_values_are_the_same();
}

/// Law: `<=>` is never null, and tells whether two values of a type are the same, null being the same as null.
pub fn null_safe_equality_tells_sameness()
    ensures { NullSafeEqualityTellsSameness }
{
    equal_values_are_the_same();
}

/// Law: the value of an expression over a row, by the values of its children.
pub fn values_follow_the_form()
    ensures { ValuesOfForms }
{}

/// Law: over no value `sum`, `min` and `max` are null and `count` is zero.
pub fn no_values_sum_to_null()
    ensures { NoValues }
{}

/// Law: `count` is never null.
pub fn counts_are_never_null()
    ensures { CountsAreNeverNull }
{}

/// Law: the sum of the numbers of two lists is that of both, so a sum doesn't depend on how rows are grouped.
pub fn totals_add_up()
    ensures { TotalsAddUp }
{}

/// Law: `min` and `max` bound the values that are not null, and are among them where there are any.
pub fn extremes_are_reached()
    ensures { ExtremesAreReached }
{
    values_are_ordered();
}

/// Law: a cast gives a value of its type, or null, and changes no value that has the type; where there is such a cast it is null of null alone.
pub fn casts_give_the_type()
    ensures { CastsGiveTheType }
{}

/// Law: the test of a day is true exactly from 0001-01-01 to 9999-12-31.
pub fn days_are_tested()
    ensures { DaysAreTested }
{}

/// Law: `contains` is true exactly where the second text is a part of the first.
pub fn parts_are_within()
    ensures { PartsAreWithin }
{}

/// Law: the value of a well-formed expression over a row that fits has the expression's type.
pub fn values_have_their_type()
    ensures { ValuesHaveTheirType }
{}

/// Law: the value of a well-formed aggregate call over rows that fit has the call's type.
pub fn calls_have_their_type()
    ensures { CallsHaveTheirType }
{}

/// Law: the value of a well-formed expression, and of a well-formed aggregate call, over rows in range is in range: numbers have the bits of
/// their types and texts are UTF-8.
pub fn values_are_in_range()
    ensures expressions { ValuesAreInRange }
    ensures aggregates { CallsAreInRange }
{}

/// Law: the value of an aggregate call does not depend on the order of the rows.
pub fn calls_ignore_order()
    ensures { CallsIgnoreOrder }
{}

/// Law: a distinct count is the length of each list that has each value that is not null once, and no other; and there is such a list.
pub fn distinct_values_are_counted()
    ensures { DistinctValuesAreCounted }
{}

/// Law: a number wraps to the one number in its type's range that leaves the same rest by 2^32, or by 2^64.
pub fn numbers_wrap()
    ensures { NumbersWrap }
{}

/// Law: `startswith` and `endswith` are true exactly where the second text is a beginning, or an end, of the first.
pub fn texts_start_and_end()
    ensures { TextsStartAndEnd }
{}

/// Law: `year`, `month` and `dayofmonth` of a date in range are those of the calendar's date with its day number.
pub fn date_parts_are_of_the_calendar()
    ensures { DatePartsAreOfTheCalendar }
{}

/// Law: comparisons follow the one order of values, in which an integer beside a long counts as that long.
pub fn comparisons_follow_the_order()
    ensures { ComparisonsFollowTheOrder }
{}

/// Law: arithmetic of numbers is exact and then wrapped to the type of the call; a division goes towards zero.
pub fn arithmetic_wraps()
    ensures { ArithmeticWraps }
{}

/// Law: `when` gives the value behind the first true condition, else the last value without a condition, else null.
pub fn when_takes_the_first()
    ensures { WhenTakesTheFirst }
{}

/// Law: `coalesce` gives the first value that is not null.
pub fn coalesce_takes_the_first()
    ensures { CoalesceTakesTheFirst }
{}

/// Law: `in` is true where the value equals some other, false where it equals none of them, and else null.
pub fn in_tells_members()
    ensures { InTellsMembers }
{}

/// Law: `concat` joins texts, `length` counts the characters that a text encodes, and `startswith`, `endswith` and `contains` tell parts.
pub fn texts_are_made_of_parts()
    ensures { TextsAreMadeOfParts }
{}

/// Law: `date_add` and `date_sub` move a date to a date in range, and `datediff` counts the days between two.
pub fn days_move()
    ensures { DaysMove }
{}

/// Law: a null argument makes a call null, but for the functions that treat null; without one a call is null for a zero divisor, a day out
/// of range or a `when` without a true condition alone.
pub fn nulls_are_told()
    ensures { NullsAreTold }
{}

/// Law: values of functions, casts and aggregates, written out.
pub fn worked_rows_hold()
    ensures numbers { WorkedNumbers }
    ensures truths { WorkedTruths }
    ensures comparisons { WorkedComparisons }
    ensures texts_and_dates { WorkedTextsAndDates }
    ensures casts { WorkedCasts }
    ensures aggregates { WorkedAggregates }
{}

/// Law: a call has a type exactly where a line of the table of functions allows it, and an aggregate likewise.
pub fn calls_are_of_the_table()
    ensures calls { CallsAreOfTheTable }
    ensures aggregates { AggregatesAreOfTheTable }
{}

/// Law: types of calls and of aggregates, written out, and for each two types whether there is a cast from one to the other.
pub fn worked_types_hold()
    ensures calls { WorkedCallTypes }
    ensures aggregates { WorkedAggregateTypes }
    ensures casts { CastsOfTypes }
{}
