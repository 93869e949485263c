ghost use Rattle.std.specs.Prelude.{◌≡◌, ◌<◌, ◌^◌, IfOk, IfSome, All, length, map, [], ◌∷◌};
ghost use Rattle.plan_model.specs.Groups.{key_and_calls};
ghost use Rattle.plan_model.specs.Outcomes.{limited};
ghost use Rattle.expr_eval.specs.Dated.{HasLiteralsInRange, HasDatesInRange};
ghost use Rattle.relation_eval.specs.Calls.{HasArgumentInRange};
ghost use Rattle.relation_eval.specs.Firsts.{firsts};
ghost use Rattle.relation_eval.specs.Given.{rows_of, outcome_of};
ghost use Rattle.relation_eval.specs.Grouped.{count_from};
ghost use Rattle.relation_eval.specs.Members.{empty_row, group_at, group_of, different_keys, grouped};

use crate::buckets::Buckets;
use crate::calls::call_over;
use crate::firsts::is_first;
use crate::given::{Given, HeldRows};
use crate::limits::limited_rows;
use crate::selections::images_of;
use cn_base::{Copied, List, OutOfMemory};
use cn_types::Row;
use plan_model::{AggregateCall, TypedExpr};
use std::alloc::Global;

/// One row for each different value of the keys, in the order of their first rows: the items over the keys' and then the calls' values.
/// Without keys there is one row, also of no rows.
pub fn aggregate(
    alloc: Global,
    rows: HeldRows,
    keys: &List<TypedExpr>,
    calls: &List<AggregateCall>,
    items: &List<TypedExpr>,
) -> Result<Given, OutOfMemory>
    requires keys { All HasLiteralsInRange keys.now }
    requires calls { All HasArgumentInRange calls.now }
    requires items { All HasLiteralsInRange items.now }
    requires dates { All HasDatesInRange (rows_of rows) }
    ensures { IfOk result (λ given. outcome_of given ≡ limited (grouped keys.now calls.now items.now (rows_of rows))) }
{
    let groups = groups_of(alloc, rows.as_slice(), keys, calls)?;
    let list = images_of(alloc, groups.as_slice(), items)?;
    Ok(limited_rows(HeldRows::Owned(list)))
}

/// For each group its key's values and then the calls' values.
fn groups_of(
    alloc: Global,
    rows: &[Row],
    keys: &List<TypedExpr>,
    calls: &List<AggregateCall>,
) -> Result<Vec<Row>, OutOfMemory>
    requires keys { All HasLiteralsInRange keys.now }
    requires calls { All HasArgumentInRange calls.now }
    requires dates { All HasDatesInRange rows.now }
    ensures groups { IfOk result (λ v. v.items ≡ map (key_and_calls keys.now calls.now rows.now) (different_keys keys.now rows.now)) }
    ensures dates { IfOk result (λ v. All HasDatesInRange v.items) }
{
    if keys.is_empty() {
        return one_group(alloc, rows, calls);
    }
    let key_rows = images_of(alloc, rows, keys)?;
    groups_by_key(alloc, rows, key_rows.as_slice(), calls)
}

/// All rows as one group, whose key has no values.
fn one_group(
    alloc: Global,
    rows: &[Row],
    calls: &List<AggregateCall>,
) -> Result<Vec<Row>, OutOfMemory>
    requires calls { All HasArgumentInRange calls.now }
    requires dates { All HasDatesInRange rows.now }
    ensures groups { IfOk result (λ v. v.items ≡ group_at calls.now rows.now (count_from 0 (length rows.now)) (empty_row) ∷ []) }
    ensures dates { IfOk result (λ v. All HasDatesInRange v.items) }
{
    let places = all_places(alloc, rows.len())?;
    let key = Row(List::new(alloc));
    let mut groups = Vec::new(alloc);
    groups.push(group_row(alloc, rows, places.as_slice(), &key, calls)?)?;
    Ok(groups)
}

fn all_places(alloc: Global, count: usize) -> Result<Vec<usize>, OutOfMemory>
    ensures { IfOk result (λ v. v.items ≡ count_from 0 count) }
{
    let mut places = Vec::new(alloc);
    for place in 0..count {
        places.push(place)?;
    }
    Ok(places)
}

/// For each different key, in the order of its first row, the values of its group.
fn groups_by_key(
    alloc: Global,
    rows: &[Row],
    keys: &[Row],
    calls: &List<AggregateCall>,
) -> Result<Vec<Row>, OutOfMemory>
    requires as_many { length keys.now ≡ length rows.now }
    requires calls { All HasArgumentInRange calls.now }
    requires dates { All HasDatesInRange rows.now }
    requires key_dates { All HasDatesInRange keys.now }
    ensures groups { IfOk result (λ v. v.items ≡ map (group_of calls.now rows.now keys.now) (firsts None keys.now)) }
    ensures dates { IfOk result (λ v. All HasDatesInRange v.items) }
{
    let buckets = Buckets::new(alloc, keys, None)?;
    let mut groups = Vec::new(alloc);
    for (place, key) in keys.iter().enumerate() {
        if is_first(&buckets, key, place) {
            groups.push(group_row(alloc, rows, buckets.same(key, None), key, calls)?)?;
        }
    }
    Ok(groups)
}

/// The key's values, and behind them the calls' values over the rows at these places.
fn group_row(
    alloc: Global,
    rows: &[Row],
    places: &[usize],
    key: &Row,
    calls: &List<AggregateCall>,
) -> Result<Row, OutOfMemory>
    requires calls { All HasArgumentInRange calls.now }
    requires dates { All HasDatesInRange rows.now }
    requires within { All (λ place. place < length rows.now) places.now }
    requires key_dates { HasDatesInRange key.now }
    ensures group { IfOk result (λ row. row ≡ group_at calls.now rows.now places.now key.now) }
    ensures dates { IfOk result HasDatesInRange }
{
    let mut values = key.0.copy(alloc)?;
    for call in calls.as_slice() {
        values.push(call_over(alloc, call, rows, places)?)?;
    }
    Ok(Row(values))
}
