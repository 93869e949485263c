ghost use Rattle.std.specs.Prelude.{◌≡◌, ◌==◌, ◌&&◌, ◌<◌, ◌+◌, ◌^◌, ◌⊎◌, true, Some, IfOk, IfSome, OnOk, All, length, map};
ghost use Rattle.std.specs.List.{list_all};
ghost use Rattle.std.specs.Option.{option_copied};
ghost use Rattle.cn_types.specs.declared.row.Row.{Row};
ghost use Rattle.cn_types.specs.declared.value.DataType.{DataType};
ghost use Rattle.cn_types.specs.Fit.{value_at};
ghost use Rattle.plan_model.specs.declared.function.Function.TheVariants.{EqualTo};
ghost use Rattle.plan_model.specs.Functions.{call};
ghost use Rattle.plan_model.specs.Truth.{is_true};
ghost use Rattle.plan_model.specs.Val.{val};
ghost use Rattle.relation_eval.specs.Equalities.{is_of_kind, are_of_kind, IsMet, CandidatesShare};
ghost use Rattle.relation_eval.specs.Matches.{AreKeys};

use crate::matches::Keys;
use cn_base::{List, OutOfMemory};
use cn_types::{DataType, Row, Value};
use plan_model::{Function, TypedExpr};
use std::alloc::Global;

/// A column of the left rows and one of the right ones that a condition asks to be equal, and the type of one of them.
#[derive(Clone, Copy, Debug)]
pub(crate) struct Equality {
    pub(crate) left: u32,
    pub(crate) right: u32,
    pub(crate) kind: DataType,
}

/// Columns in which rows that match have the same values, and no null: those of equalities that the condition joins by `and`, where all
/// values are of one type. There are none where a left row has another width.
pub(crate) fn key_columns(
    alloc: Global,
    left: &[Row],
    right: &[Row],
    condition: Option<&TypedExpr>,
    left_width: usize,
) -> Result<Keys, OutOfMemory>
    ensures { IfOk result (λ keys. AreKeys (option_copied condition.entry) keys.left.items keys.right.items left.now right.now) }
{
    match condition {
        None => Ok(Keys {
            left: Vec::new(alloc),
            right: Vec::new(alloc),
        }),
        Some(condition) => keys_of(alloc, left, right, condition, left_width),
    }
}

fn keys_of(
    alloc: Global,
    left: &[Row],
    right: &[Row],
    condition: &TypedExpr,
    left_width: usize,
) -> Result<Keys, OutOfMemory>
    ensures { IfOk result (λ keys. AreKeys (Some condition.now) keys.left.items keys.right.items left.now right.now) }
{
    if !have_width(left, left_width) {
        return Ok(Keys {
            left: Vec::new(alloc),
            right: Vec::new(alloc),
        });
    }
    let mut equalities = Vec::new(alloc);
    add_equalities(condition, left_width, &mut equalities)?;
    keys_among(alloc, equalities.as_slice(), left, right)
}

fn have_width(rows: &[Row], width: usize) -> bool
    ensures { result ≡ list_all (λ row. length row.0 == width) rows.now }
{
    rows.iter().all(|row| row.0.len() == width)
}

/// The columns of those equalities whose values are all of one type.
fn keys_among(
    alloc: Global,
    equalities: &[Equality],
    left: &[Row],
    right: &[Row],
) -> Result<Keys, OutOfMemory>
    ensures { IfOk result (λ keys. CandidatesShare equalities.now keys.left.items keys.right.items left.now right.now) }
{
    let mut lefts = Vec::new(alloc);
    let mut rights = Vec::new(alloc);
    for equality in equalities {
        if !is_typed(equality, left, right) {
            continue;
        }
        lefts.push(equality.left)?;
        rights.push(equality.right)?;
    }
    Ok(Keys {
        left: lefts,
        right: rights,
    })
}

/// Whether all values of both columns are null or of the equality's type.
fn is_typed(equality: &Equality, left: &[Row], right: &[Row]) -> bool
    ensures { result ≡ (are_of_kind equality.now.kind equality.now.left left.now && are_of_kind equality.now.kind equality.now.right right.now) }
{
    have_kind(left, equality.left, equality.kind) && have_kind(right, equality.right, equality.kind)
}

/// Whether all values of a column are null or of the type.
fn have_kind(rows: &[Row], column: u32, kind: DataType) -> bool
    ensures { result ≡ are_of_kind kind column rows.now }
{
    rows.iter().all(|row| is_of_kind_at(row, column, kind))
}

fn is_of_kind_at(row: &Row, column: u32, kind: DataType) -> bool
    ensures { result ≡ is_of_kind kind (value_at column row.now) }
{
    match row.0.get(column as usize) {
        None => true,
        Some(value) => is_kind(value, kind),
    }
}

fn is_kind(value: &Value, kind: DataType) -> bool
    ensures { result ≡ is_of_kind kind value.now }
{
    match (kind, value) {
        (_, Value::Null) => true,
        (DataType::Boolean, Value::Boolean(_)) => true,
        (DataType::Integer, Value::Integer(_)) => true,
        (DataType::Long, Value::Long(_)) => true,
        (DataType::Text, Value::Text(_)) => true,
        (DataType::Date, Value::Date(_)) => true,
        _ => false,
    }
}

/// Adds the equalities of columns of both sides that a condition joins by `and`. They hold of each row of which the condition is true.
#[cycle(equalities)]
fn add_equalities(
    condition: &TypedExpr,
    left_width: usize,
    found: &mut Vec<Equality>,
) -> Result<(), OutOfMemory>
    ensures { OnOk result ((row : Row) → is_true (val condition.now row) ≡ true → All (IsMet left_width row) found.old.items → All (IsMet left_width row) found.new.items) }
{
    match condition {
        TypedExpr::Call {
            function,
            arguments,
            ..
        } => add_of_call(arguments, *function, left_width, found),
        TypedExpr::Column { .. } => Ok(()),
        TypedExpr::Literal { .. } => Ok(()),
        TypedExpr::Cast { .. } => Ok(()),
    }
}

#[cycle(equalities)]
fn add_of_call(
    arguments: &List<TypedExpr>,
    function: Function,
    left_width: usize,
    found: &mut Vec<Equality>,
) -> Result<(), OutOfMemory>
    ensures { OnOk result ((kind : DataType) (row : Row) → is_true (call function kind (map (λ argument. val argument row) arguments.now)) ≡ true → All (IsMet left_width row) found.old.items → All (IsMet left_width row) found.new.items) }
{
    match function {
        Function::And => add_of_all(arguments, left_width, found),
        Function::EqualTo => add_equality(arguments.as_slice(), left_width, found),
        _ => Ok(()),
    }
}

#[cycle(equalities)]
fn add_of_all(
    arguments: &List<TypedExpr>,
    left_width: usize,
    found: &mut Vec<Equality>,
) -> Result<(), OutOfMemory>
    ensures { OnOk result ((row : Row) → All (λ argument. is_true (val argument row) ≡ true) arguments.now → All (IsMet left_width row) found.old.items → All (IsMet left_width row) found.new.items) }
{
    for argument in arguments.as_slice() {
        add_equalities(argument, left_width, found)?;
    }
    Ok(())
}

fn add_equality(
    arguments: &[TypedExpr],
    left_width: usize,
    found: &mut Vec<Equality>,
) -> Result<(), OutOfMemory>
    ensures { OnOk result ((kind : DataType) (row : Row) → is_true (call EqualTo kind (map (λ argument. val argument row) arguments.now)) ≡ true → All (IsMet left_width row) found.old.items → All (IsMet left_width row) found.new.items) }
{
    if let Some(equality) = equality_of(arguments, left_width) {
        found.push(equality)?;
    }
    Ok(())
}

/// The equality of a column of the left rows and one of the right ones, which stand behind them.
fn equality_of(arguments: &[TypedExpr], left_width: usize) -> Option<Equality>
    ensures { IfSome result (λ equality. (kind : DataType) (row : Row) → is_true (call EqualTo kind (map (λ argument. val argument row) arguments.now)) ≡ true → IsMet left_width row equality) }
{
    if arguments.len() != 2 {
        return None;
    }
    let (first, kind) = column_of(&arguments[0])?;
    let (second, _) = column_of(&arguments[1])?;
    across(first as usize, second as usize, kind, left_width)
}

/// Two places of a row, where one of them is a left and the other a right column.
fn across(first: usize, second: usize, kind: DataType, left_width: usize) -> Option<Equality>
    requires first { first < 2 ^ 32 }
    requires second { second < 2 ^ 32 }
    ensures { IfSome result (λ equality. ((equality.left ≡ first) × (second ≡ left_width + equality.right) × (first < left_width)) ⊎ ((equality.left ≡ second) × (first ≡ left_width + equality.right) × (second < left_width))) }
{
    if first < left_width && second >= left_width {
        return Some(Equality {
            left: first as u32,
            right: (second - left_width) as u32,
            kind,
        });
    }
    if second < left_width && first >= left_width {
        return Some(Equality {
            left: second as u32,
            right: (first - left_width) as u32,
            kind,
        });
    }
    None
}

/// The place and the type of a bare column.
fn column_of(expr: &TypedExpr) -> Option<(u32, DataType)>
    ensures { IfSome result (λ column. (row : Row) → val expr.now row ≡ value_at column.0 row) }
{
    match expr {
        TypedExpr::Column { place, kind } => Some((*place, *kind)),
        TypedExpr::Literal { .. } => None,
        TypedExpr::Call { .. } => None,
        TypedExpr::Cast { .. } => None,
    }
}
