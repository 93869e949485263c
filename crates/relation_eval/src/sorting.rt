ghost use Rattle.std.specs.Prelude.{◌≡◌, IfOk, All, map, unwrap_or, IsPermutation};
ghost use Rattle.std.specs.List.Sorted.{IsSortedBy};
ghost use Rattle.std.specs.Option.{option_copied};
ghost use Rattle.cn_types.specs.declared.value.Value.TheVariants.{Null};
ghost use Rattle.plan_model.specs.Outcomes.{Bounded};
ghost use Rattle.plan_model.specs.Sorting.{IsSort};
ghost use Rattle.plan_model.specs.Selections.{image};
ghost use Rattle.plan_model.specs.Truth.{is_present};
ghost use Rattle.expr_eval.specs.Dated.{HasLiteralsInRange, HasDatesInRange};
ghost use Rattle.relation_eval.specs.Given.{rows_of, outcome_of};
ghost use Rattle.relation_eval.specs.SortKeys.{value_order, found_order, key_exprs, HaveLiteralsInRange};
ghost use Rattle.relation_eval.specs.KeyedRows.{with_keys, row_of_keyed, is_before};

use crate::given::{Given, HeldRows};
use crate::limits::limited_rows;
use cn_base::{List, OutOfMemory};
use cn_types::{Row, Value, order};
use expr_eval::value;
use plan_model::SortKey;
use std::alloc::Global;
use std::cmp::Ordering;

/// A row beside the values of its keys.
#[derive(Debug, Drop)]
struct Keyed {
    found: Row,
    row: Row,
}

/// The rows in the order of the keys. Rows with the same keys keep their order, and owned rows are moved.
pub fn sort(alloc: Global, rows: HeldRows, keys: &List<SortKey>) -> Result<Given, OutOfMemory>
    requires literals { HaveLiteralsInRange keys.now }
    requires dates { All HasDatesInRange (rows_of rows) }
    ensures { IfOk result (λ given. Bounded (IsSort keys.now (rows_of rows)) (outcome_of given)) }
{
    let owned = rows.into_rows(alloc)?;
    let list = sorted_rows(alloc, owned, keys)?;
    Ok(limited_rows(HeldRows::Owned(list)))
}

fn sorted_rows(alloc: Global, rows: Vec<Row>, keys: &List<SortKey>) -> Result<Vec<Row>, OutOfMemory>
    requires literals { HaveLiteralsInRange keys.now }
    requires dates { All HasDatesInRange rows.items }
    ensures { IfOk result (λ v. IsSort keys.now rows.items v.items) }
{
    let keyed = keyed_rows(alloc, rows, keys)?;
    let ordered = sorted(keyed, keys)?;
    let list = rows_alone(alloc, ordered)?;
    Ok(list)
}

fn keyed_rows(
    alloc: Global,
    rows: Vec<Row>,
    keys: &List<SortKey>,
) -> Result<Vec<Keyed>, OutOfMemory>
    requires literals { HaveLiteralsInRange keys.now }
    requires dates { All HasDatesInRange rows.items }
    ensures { IfOk result (λ v. v.items ≡ map (with_keys keys.now) rows.items) }
{
    let mut keyed = Vec::new(alloc);
    for row in rows {
        let found = keys_of(alloc, &row, keys)?;
        keyed.push(Keyed { found, row })?;
    }
    Ok(keyed)
}

fn keys_of(alloc: Global, row: &Row, keys: &List<SortKey>) -> Result<Row, OutOfMemory>
    requires literals { HaveLiteralsInRange keys.now }
    requires dates { HasDatesInRange row.now }
    ensures { IfOk result (λ r. r ≡ image (key_exprs keys.now) row.now) }
{
    let mut values = List::new(alloc);
    for key in keys.as_slice() {
        values.push(value(alloc, &key.expr, row)?)?;
    }
    Ok(Row(values))
}

fn sorted(mut keyed: Vec<Keyed>, keys: &List<SortKey>) -> Result<Vec<Keyed>, OutOfMemory>
    ensures permuted { IfOk result (λ v. IsPermutation keyed.items v.items) }
    ensures ordered { IfOk result (λ v. IsSortedBy (is_before keys.now) v.items) }
{
    keyed.sort_by(|left, right| order_from(keys.as_slice(), &left.found, &right.found))?;
    Ok(keyed)
}

fn rows_alone(alloc: Global, keyed: Vec<Keyed>) -> Result<Vec<Row>, OutOfMemory>
    ensures { IfOk result (λ v. v.items ≡ map row_of_keyed keyed.items) }
{
    let mut rows = Vec::new(alloc);
    for one in keyed {
        rows.push(one.row)?;
    }
    Ok(rows)
}

/// The order of two rows of key values from a place on.
fn order_from(keys: &[SortKey], left: &Row, right: &Row) -> Ordering
    ensures { result ≡ found_order keys.now 0 left.now right.now }
{
    for (place, key) in keys.iter().enumerate() {
        match order_at(key, left.0.get(place), right.0.get(place)) {
            Ordering::Less => return Ordering::Less,
            Ordering::Equal => {}
            Ordering::Greater => return Ordering::Greater,
        }
    }
    Ordering::Equal
}

fn order_at(key: &SortKey, left: Option<&Value>, right: Option<&Value>) -> Ordering
    ensures { result ≡ value_order key.now (unwrap_or (option_copied left.entry) Null) (unwrap_or (option_copied right.entry) Null) }
{
    let null = Value::Null;
    order_by(key, left.unwrap_or(&null), right.unwrap_or(&null))
}

/// The order of two values by a key: nulls stand where the key says, whether it descends or not.
fn order_by(key: &SortKey, left: &Value, right: &Value) -> Ordering
    ensures { result ≡ value_order key.now left.now right.now }
{
    let nulls = if key.nulls_last {
        is_value(right).cmp(&is_value(left))
    } else {
        is_value(left).cmp(&is_value(right))
    };
    let values = if key.descending {
        order(right, left)
    } else {
        order(left, right)
    };
    nulls.then(values)
}

/// Whether the value is not null.
pub(crate) fn is_value(value: &Value) -> bool
    ensures { result ≡ is_present value.now }
{
    match value {
        Value::Null => false,
        _ => true,
    }
}
