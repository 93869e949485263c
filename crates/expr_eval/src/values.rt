ghost use Rattle.std.specs.Prelude.{◌≡◌, IfOk, All, map};
ghost use Rattle.cn_types.specs.Fit.{HasDateInRange, value_at};
ghost use Rattle.plan_model.specs.Casts.{cast_to};
ghost use Rattle.plan_model.specs.Conditionals.{coalesce, when, widened};
ghost use Rattle.plan_model.specs.Comparisons.{member_of};
ghost use Rattle.plan_model.specs.Functions.{call, of_one, of_two, of_first};
ghost use Rattle.plan_model.specs.Texts.{concat};
ghost use Rattle.plan_model.specs.Truth.{is_true};
ghost use Rattle.plan_model.specs.Val.{val};
ghost use Rattle.expr_eval.specs.Dated.{HasLiteralsInRange, HasDatesInRange};
ghost use Rattle.expr_eval.specs.Operands.{operand_value, vals};
ghost use Rattle.expr_eval.specs.Operations.{unary_of, binary_of};

use crate::casts::cast;
use crate::conditionals::widened_operand;
use crate::forms::{Binary, Form, Unary, form_of, of_value, of_values};
use crate::lists::{joined_texts, member};
use crate::operand::Operand;
use crate::truth::{is_some_value, is_true_value};
use cn_base::{List, OutOfMemory};
use cn_types::{DataType, Row, Value};
use plan_model::{Function, TypedExpr};
use std::alloc::Global;

/// The value of an expression over a row. The dates of its literals and of the row are from 0001-01-01 to 9999-12-31, as those of a
/// well-formed expression and of a row that fits are.
pub fn value(alloc: Global, expr: &TypedExpr, row: &Row) -> Result<Value, OutOfMemory>
    requires literals { HasLiteralsInRange expr.now }
    requires dates { HasDatesInRange row.now }
    ensures value { IfOk result (λ v. v ≡ val expr.now row.now) }
    ensures dated { IfOk result HasDateInRange }
{
    let found = operand_of(alloc, expr, row)?;
    found.into_value(alloc)
}

/// The value of an expression over a row, lent by one of them where it stands there.
#[cycle(operand)]
pub fn operand_of<'a>(
    alloc: Global,
    expr: &'a TypedExpr,
    row: &'a Row,
) -> Result<Operand<'a>, OutOfMemory>
    requires literals { HasLiteralsInRange expr.now }
    requires dates { HasDatesInRange row.now }
    ensures value { IfOk result (λ found. operand_value found ≡ val expr.now row.now) }
    ensures dated { IfOk result (λ found. HasDateInRange (operand_value found)) }
{
    match expr {
        TypedExpr::Column { place, .. } => Ok(column(row, *place)),
        TypedExpr::Literal { value, .. } => Ok(Operand::Lent(value)),
        TypedExpr::Call {
            function,
            arguments,
            kind,
        } => called(alloc, arguments, *function, *kind, row),
        TypedExpr::Cast { child, kind } => converted(alloc, child.get(), *kind, row),
    }
}

/// Whether a condition holds of a row: its value is true, and neither false nor null. The row's values are lent and not copied.
#[cycle(operand)]
pub fn holds(alloc: Global, condition: &TypedExpr, row: &Row) -> Result<bool, OutOfMemory>
    requires literals { HasLiteralsInRange condition.now }
    requires dates { HasDatesInRange row.now }
    ensures { IfOk result (λ b. b ≡ is_true (val condition.now row.now)) }
{
    let found = operand_of(alloc, condition, row)?;
    Ok(is_true_value(found.value()))
}

/// The row's value at a place; null past its end.
fn column(row: &Row, place: u32) -> Operand<'_>
    requires { HasDatesInRange row.now }
    ensures value { operand_value result ≡ value_at place row.now }
    ensures dated { HasDateInRange (operand_value result) }
{
    match row.0.get(place as usize) {
        Some(value) => Operand::Lent(value),
        None => Operand::Made(Value::Null),
    }
}

#[cycle(operand)]
fn converted<'a>(
    alloc: Global,
    child: &'a TypedExpr,
    kind: DataType,
    row: &'a Row,
) -> Result<Operand<'a>, OutOfMemory>
    requires literals { HasLiteralsInRange child.now }
    requires dates { HasDatesInRange row.now }
    ensures value { IfOk result (λ found. operand_value found ≡ cast_to kind (val child.now row.now)) }
    ensures dated { IfOk result (λ found. HasDateInRange (operand_value found)) }
{
    let found = operand_of(alloc, child, row)?;
    let made = cast(alloc, kind, found.value())?;
    Ok(Operand::Made(made))
}

#[cycle(operand)]
fn called<'a>(
    alloc: Global,
    arguments: &'a List<TypedExpr>,
    function: Function,
    kind: DataType,
    row: &'a Row,
) -> Result<Operand<'a>, OutOfMemory>
    requires literals { All HasLiteralsInRange arguments.now }
    requires dates { HasDatesInRange row.now }
    ensures value { IfOk result (λ found. operand_value found ≡ call function kind (vals arguments.now row.now)) }
    ensures dated { IfOk result (λ found. HasDateInRange (operand_value found)) }
{
    match form_of(function) {
        Form::One(function) => of_argument(alloc, arguments, function, row),
        Form::Two(function) => of_arguments(alloc, arguments, function, row),
        Form::Coalesce => first_present(alloc, arguments, kind, row),
        Form::When => first_true(alloc, arguments, kind, row),
        Form::In => among(alloc, arguments, row),
        Form::Concat => concatenated(alloc, arguments, row),
        Form::Aggregate => Ok(Operand::Made(Value::Null)),
    }
}

#[cycle(operand)]
fn of_argument<'a>(
    alloc: Global,
    arguments: &'a List<TypedExpr>,
    function: Unary,
    row: &'a Row,
) -> Result<Operand<'a>, OutOfMemory>
    requires literals { All HasLiteralsInRange arguments.now }
    requires dates { HasDatesInRange row.now }
    ensures value { IfOk result (λ found. operand_value found ≡ of_one (unary_of function) (vals arguments.now row.now)) }
    ensures dated { IfOk result (λ found. HasDateInRange (operand_value found)) }
{
    if arguments.len() != 1 {
        return Ok(Operand::Made(Value::Null));
    }
    let found = operand_of(alloc, &arguments.as_slice()[0], row)?;
    Ok(Operand::Made(of_value(function, found.value())))
}

#[cycle(operand)]
fn of_arguments<'a>(
    alloc: Global,
    arguments: &'a List<TypedExpr>,
    function: Binary,
    row: &'a Row,
) -> Result<Operand<'a>, OutOfMemory>
    requires literals { All HasLiteralsInRange arguments.now }
    requires dates { HasDatesInRange row.now }
    ensures value { IfOk result (λ found. operand_value found ≡ of_two (binary_of function) (vals arguments.now row.now)) }
    ensures dated { IfOk result (λ found. HasDateInRange (operand_value found)) }
{
    if arguments.len() != 2 {
        return Ok(Operand::Made(Value::Null));
    }
    let left = operand_of(alloc, &arguments.as_slice()[0], row)?;
    let right = operand_of(alloc, &arguments.as_slice()[1], row)?;
    Ok(Operand::Made(of_values(function, left.value(), right.value())))
}

/// `coalesce`: arguments behind the first that is not null are not evaluated.
#[cycle(operand)]
fn first_present<'a>(
    alloc: Global,
    arguments: &'a List<TypedExpr>,
    kind: DataType,
    row: &'a Row,
) -> Result<Operand<'a>, OutOfMemory>
    requires literals { All HasLiteralsInRange arguments.now }
    requires dates { HasDatesInRange row.now }
    ensures value { IfOk result (λ found. operand_value found ≡ widened kind (coalesce (vals arguments.now row.now))) }
    ensures dated { IfOk result (λ found. HasDateInRange (operand_value found)) }
{
    for argument in arguments.as_slice() {
        let found = operand_of(alloc, argument, row)?;
        if is_some_value(found.value()) {
            return Ok(widened_operand(found, kind));
        }
    }
    Ok(Operand::Made(Value::Null))
}

/// `when`: conditions in turn up to the first that is true, and the value behind it.
#[cycle(operand)]
fn first_true<'a>(
    alloc: Global,
    arguments: &'a List<TypedExpr>,
    kind: DataType,
    row: &'a Row,
) -> Result<Operand<'a>, OutOfMemory>
    requires literals { All HasLiteralsInRange arguments.now }
    requires dates { HasDatesInRange row.now }
    ensures value { IfOk result (λ found. operand_value found ≡ widened kind (when (vals arguments.now row.now))) }
    ensures dated { IfOk result (λ found. HasDateInRange (operand_value found)) }
{
    let count = arguments.len();
    let mut place = 0;
    while count - place > 1 {
        if holds(alloc, &arguments.as_slice()[place], row)? {
            let found = operand_of(alloc, &arguments.as_slice()[place + 1], row)?;
            return Ok(widened_operand(found, kind));
        }
        place += 2;
    }
    if place < count {
        let found = operand_of(alloc, &arguments.as_slice()[place], row)?;
        return Ok(widened_operand(found, kind));
    }
    Ok(Operand::Made(Value::Null))
}

#[cycle(operand)]
fn among<'a>(
    alloc: Global,
    arguments: &'a List<TypedExpr>,
    row: &'a Row,
) -> Result<Operand<'a>, OutOfMemory>
    requires literals { All HasLiteralsInRange arguments.now }
    requires dates { HasDatesInRange row.now }
    ensures value { IfOk result (λ found. operand_value found ≡ of_first member_of (vals arguments.now row.now)) }
    ensures dated { IfOk result (λ found. HasDateInRange (operand_value found)) }
{
    let operands = operands_of(alloc, arguments, row)?;
    Ok(Operand::Made(member(operands.as_slice())))
}

#[cycle(operand)]
fn concatenated<'a>(
    alloc: Global,
    arguments: &'a List<TypedExpr>,
    row: &'a Row,
) -> Result<Operand<'a>, OutOfMemory>
    requires literals { All HasLiteralsInRange arguments.now }
    requires dates { HasDatesInRange row.now }
    ensures value { IfOk result (λ found. operand_value found ≡ concat (vals arguments.now row.now)) }
    ensures dated { IfOk result (λ found. HasDateInRange (operand_value found)) }
{
    let operands = operands_of(alloc, arguments, row)?;
    let made = joined_texts(alloc, operands.as_slice())?;
    Ok(Operand::Made(made))
}

#[cycle(operand)]
fn operands_of<'a>(
    alloc: Global,
    arguments: &'a List<TypedExpr>,
    row: &'a Row,
) -> Result<List<Operand<'a>>, OutOfMemory>
    requires literals { All HasLiteralsInRange arguments.now }
    requires dates { HasDatesInRange row.now }
    ensures { IfOk result (λ found. map operand_value found ≡ vals arguments.now row.now) }
{
    let mut operands = List::new(alloc);
    for argument in arguments.as_slice() {
        operands.push(operand_of(alloc, argument, row)?)?;
    }
    Ok(operands)
}
