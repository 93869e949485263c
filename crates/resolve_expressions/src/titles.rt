ghost use Rattle.std.specs.Prelude.{◌≡◌, ◌++◌, IfOk, OnOk, codes, option_map, true};
ghost use Rattle.std.specs.Option.{option_copied};
ghost use Rattle.cn_types.specs.Fit.{HasDateInRange};
ghost use Rattle.cn_types.specs.Printed as prints;
ghost use Rattle.plan_model.specs.DateFunctions.{is_day as in_range};
ghost use Rattle.resolve_expressions.specs.Items as items;
ghost use Rattle.resolve_expressions.specs.Named as named;
ghost use Rattle.resolve_expressions.specs.Titles as titles;

use crate::Names;
use cn_base::{Copied, List, OutOfMemory, Text};
use cn_types::{Row, Value, row_text};
use expression_messages::{Expr, Literal, UnresolvedAttribute, UnresolvedFunction};
use plan_model::Function;
use resolve_functions::function_named;
use resolve_names::{ResolveStop, Scope, ScopeColumn, attribute_place};
use std::alloc::Global;

/// 0001-01-01 and 9999-12-31 (ISO 8601), in days from 1970-01-01.
const FIRST_DAY: i32 = -719162;

const LAST_DAY: i32 = 2932896;

/// The name of the column that an expression without an alias makes: an attribute's is its column's, a literal's its printed value, that of
/// an operator `(l op r)` and that of another call `f(a, b)`. Where an attribute names no column it has none.
pub fn title_of(alloc: Global, names: &Names<'_>, expr: &Expr) -> Result<Text, OutOfMemory>
    ensures { IfOk result (λ t. t ≡ named.title_in names.now expr.now) }
{
    let mut out = Text::new(alloc);
    push_title(alloc, &Reading::Names(*names), &mut out, expr)?;
    Ok(out)
}

/// The name of the column that an expression without an alias makes, where it is not known whether case counts. An attribute, whose plan
/// id is not looked at, names the one column that matches in either case, or where there is not one, the one that matches exactly.
pub fn name_of(alloc: Global, expr: &Expr, scope: &Scope) -> Result<Text, OutOfMemory>
    ensures { IfOk result (λ t. t ≡ items.name_of expr.now scope.now) }
{
    let mut out = Text::new(alloc);
    push_title(
        alloc,
        &Reading::EitherCase(scope.0.as_slice()),
        &mut out,
        expr,
    )?;
    Ok(out)
}

/// How attributes are read where an expression is named.
#[derive(Clone, Copy, Debug)]
pub(crate) enum Reading<'a> {
    /// As where it has a type.
    Names(Names<'a>),
    /// In either case, or else exactly.
    EitherCase(&'a [ScopeColumn]),
}

#[cycle(titles)]
#[tactic(auto, using(crate::proofs::TitleSteps::title_forms))]
fn push_title(
    alloc: Global,
    reading: &Reading<'_>,
    out: &mut Text,
    expr: &Expr,
) -> Result<(), OutOfMemory>
    ensures { OnOk result (out.new ≡ out.old ++ named.title_by reading.now expr.now) }
{
    match expr {
        Expr::Literal(literal) => push_literal(alloc, out, literal),
        Expr::UnresolvedAttribute(attribute) => push_attribute(alloc, reading, out, attribute),
        Expr::UnresolvedFunction(call) => push_call(alloc, reading, out, call),
        Expr::UnresolvedStar(_) => out.append("1"),
        Expr::Alias(alias) => push_title(alloc, reading, out, alias.expr.get()),
        Expr::Cast(cast) => push_title(alloc, reading, out, cast.expr.get()),
        Expr::SortOrder(order) => push_title(alloc, reading, out, order.child.get()),
        Expr::Other(_) => Ok(()),
    }
}

#[cycle(titles)]
#[tactic(auto, unfolding(crate::specs::Titles::call_title), using(crate::proofs::TitleSteps::call_forms))]
fn push_call(
    alloc: Global,
    reading: &Reading<'_>,
    out: &mut Text,
    call: &UnresolvedFunction,
) -> Result<(), OutOfMemory>
    ensures { OnOk result (out.new ≡ out.old ++ titles.call_title (named.call_titled reading.now call.now)) }
{
    if is_negated(call) {
        return push_sides(alloc, reading, out, "(NOT ", "", call);
    }
    match operator_between(call) {
        Some(operator) => push_sides(alloc, reading, out, "(", operator, call),
        None => push_plain(alloc, reading, out, call),
    }
}

/// The sides of an operator, with a text before, one between, and `)` behind.
#[cycle(titles)]
fn push_sides(
    alloc: Global,
    reading: &Reading<'_>,
    out: &mut Text,
    before: &str,
    between: &str,
    call: &UnresolvedFunction,
) -> Result<(), OutOfMemory>
    ensures { OnOk result (out.new ≡ out.old ++ (before.now ++ titles.joined between.now (named.titles_by reading.now call.now.arguments) ++ codes ")")) }
{
    out.append(before)?;
    push_joined(alloc, reading, out, between, call)?;
    out.append(")")
}

#[cycle(titles)]
fn push_plain(
    alloc: Global,
    reading: &Reading<'_>,
    out: &mut Text,
    call: &UnresolvedFunction,
) -> Result<(), OutOfMemory>
    ensures { OnOk result (out.new ≡ out.old ++ titles.plain_title call.now.function_name call.now.is_distinct (named.titles_by reading.now call.now.arguments)) }
{
    let name = call.function_name.as_str().to_ascii_lowercase(alloc)?;
    out.append(name.as_str())?;
    out.append(opening(call.is_distinct))?;
    push_joined(alloc, reading, out, ", ", call)?;
    out.append(")")
}

/// What stands before the arguments of a call.
fn opening(distinct: bool) -> &'static str
    ensures { result.now ≡ titles.opening distinct }
{
    if distinct { "(DISTINCT " } else { "(" }
}

/// The names of a call's arguments with a text between each two.
#[cycle(titles)]
#[tactic(auto, using(crate::proofs::TitleSteps::joined_next))]
fn push_joined(
    alloc: Global,
    reading: &Reading<'_>,
    out: &mut Text,
    between: &str,
    call: &UnresolvedFunction,
) -> Result<(), OutOfMemory>
    ensures { OnOk result (out.new ≡ out.old ++ titles.joined between.now (named.titles_by reading.now call.now.arguments)) }
{
    for (place, argument) in call.arguments.as_slice().iter().enumerate() {
        push_gap(out, place, between)?;
        push_title(alloc, reading, out, argument)?;
    }
    Ok(())
}

/// What stands before the text at a place: nothing before the first.
fn push_gap(out: &mut Text, place: usize, between: &str) -> Result<(), OutOfMemory>
    ensures { OnOk result (out.new ≡ out.old ++ titles.gap place between.now) }
{
    if place > 0 {
        out.append(between)?;
    }
    Ok(())
}

/// Whether a call is `not` of one side.
fn is_negated(call: &UnresolvedFunction) -> bool
    ensures { result ≡ titles.is_negated call.now }
{
    if call.arguments.len() != 1 {
        return false;
    }
    is_negation(call.function_name.as_str())
}

fn is_negation(name: &str) -> bool
    ensures { result ≡ titles.is_negation name.now }
{
    match function_named(name) {
        Some(function) => is_not(function),
        None => false,
    }
}

/// The operator of a call of two sides, with spaces about it.
fn operator_between(call: &UnresolvedFunction) -> Option<&'static str>
    ensures { option_copied result ≡ titles.operator_between call.now }
{
    if call.arguments.len() != 2 {
        return None;
    }
    operator_of(call.function_name.as_str())
}

fn operator_of(name: &str) -> Option<&'static str>
    ensures { option_copied result ≡ option_map titles.spaced (titles.operator_of name.now) }
{
    match function_named(name) {
        Some(function) => operator_text(function),
        None => None,
    }
}

/// The name of the column that an attribute names, where it names one.
fn push_attribute(
    alloc: Global,
    reading: &Reading<'_>,
    out: &mut Text,
    attribute: &UnresolvedAttribute,
) -> Result<(), OutOfMemory>
    ensures { OnOk result (out.new ≡ out.old ++ named.column_title reading.now attribute.now) }
{
    match reading {
        Reading::Names(names) => push_named(alloc, names, out, attribute),
        Reading::EitherCase(columns) => push_either(alloc, columns, out, attribute),
    }
}

#[tactic(auto, unfolding(crate::specs::Items::attribute_title))]
fn push_named(
    alloc: Global,
    names: &Names<'_>,
    out: &mut Text,
    attribute: &UnresolvedAttribute,
) -> Result<(), OutOfMemory>
    ensures { OnOk result (out.new ≡ out.old ++ named.attribute_title_in names.now attribute.now) }
{
    match attribute_place(
        alloc,
        names.case_sensitive,
        names.columns,
        names.relations,
        attribute.unparsed_identifier.as_str(),
        attribute.plan_id,
    ) {
        Ok(place) => push_name_at(out, names.columns, place),
        Err(ResolveStop::Analysis(_)) => Ok(()),
        Err(ResolveStop::OutOfMemory) => Err(OutOfMemory),
    }
}

#[tactic(auto, unfolding(crate::specs::Items::either_title))]
fn push_either(
    alloc: Global,
    columns: &[ScopeColumn],
    out: &mut Text,
    attribute: &UnresolvedAttribute,
) -> Result<(), OutOfMemory>
    ensures { OnOk result (out.new ≡ out.old ++ items.either_title columns.now attribute.now) }
{
    let identifier = attribute.unparsed_identifier.as_str();
    match attribute_place(alloc, false, columns, &[], identifier, None) {
        Ok(place) => push_name_at(out, columns, place),
        Err(ResolveStop::Analysis(_)) => push_exact(alloc, columns, out, identifier),
        Err(ResolveStop::OutOfMemory) => Err(OutOfMemory),
    }
}

fn push_exact(
    alloc: Global,
    columns: &[ScopeColumn],
    out: &mut Text,
    identifier: &str,
) -> Result<(), OutOfMemory>
    ensures { OnOk result (out.new ≡ out.old ++ items.name_at columns.now (items.alone_at true columns.now identifier.now)) }
{
    match attribute_place(alloc, true, columns, &[], identifier, None) {
        Ok(place) => push_name_at(out, columns, place),
        Err(ResolveStop::Analysis(_)) => Ok(()),
        Err(ResolveStop::OutOfMemory) => Err(OutOfMemory),
    }
}

fn push_name_at(out: &mut Text, columns: &[ScopeColumn], place: usize) -> Result<(), OutOfMemory>
    ensures { OnOk result (out.new ≡ out.old ++ items.name_in columns.now place) }
{
    match columns.get(place) {
        Some(column) => out.append(column.name.as_str()),
        None => Ok(()),
    }
}

/// A literal's printed value, `NULL` for a null.
fn push_literal(alloc: Global, out: &mut Text, literal: &Literal) -> Result<(), OutOfMemory>
    ensures { OnOk result (out.new ≡ out.old ++ titles.literal_title literal.now) }
{
    match literal {
        Literal::Null(_) => out.append("NULL"),
        Literal::Boolean(value) => push_printed(alloc, out, Value::Boolean(*value)),
        Literal::Integer(value) => push_printed(alloc, out, Value::Integer(*value)),
        Literal::Long(value) => push_printed(alloc, out, Value::Long(*value)),
        Literal::String(text) => push_text(alloc, out, text),
        Literal::Date(days) => push_date(alloc, out, *days),
        Literal::Absent => Ok(()),
    }
}

fn push_text(alloc: Global, out: &mut Text, text: &Text) -> Result<(), OutOfMemory>
    ensures { OnOk result (out.new ≡ out.old ++ prints.escaped text.now) }
{
    let text = text.copy(alloc)?;
    push_printed(alloc, out, Value::Text(text))
}

/// A date as it is printed; nothing for one outside 0001-01-01 to 9999-12-31.
fn push_date(alloc: Global, out: &mut Text, days: i32) -> Result<(), OutOfMemory>
    ensures { OnOk result (out.new ≡ out.old ++ titles.date_title days) }
{
    if !is_day(days) {
        return Ok(());
    }
    push_printed(alloc, out, Value::Date(days))
}

fn is_day(days: i32) -> bool
    ensures { result ≡ in_range days }
{
    if days < FIRST_DAY {
        return false;
    }
    days <= LAST_DAY
}

/// A value as it is printed: the line of a row of this value alone, without its LF.
#[tactic(auto, using(crate::proofs::TitleSteps::line_of_one))]
fn push_printed(alloc: Global, out: &mut Text, value: Value) -> Result<(), OutOfMemory>
    requires { HasDateInRange value }
    ensures { OnOk result (out.new ≡ out.old ++ prints.printed value) }
{
    let mut cells = List::new(alloc);
    cells.push(value)?;
    let line = row_text(alloc, &Row(cells))?;
    match line.as_str().strip_suffix('\n') {
        Some(text) => out.append(text),
        None => Ok(()),
    }
}

fn is_not(function: Function) -> bool
    ensures { result ≡ titles.is_not function }
{
    match function {
        Function::Not => true,
        Function::Add
        | Function::Subtract
        | Function::Multiply
        | Function::Remainder
        | Function::IntegralDivide
        | Function::Negative
        | Function::Abs
        | Function::EqualTo
        | Function::NotEqualTo
        | Function::LessThan
        | Function::LessThanOrEqual
        | Function::GreaterThan
        | Function::GreaterThanOrEqual
        | Function::EqualNullSafe
        | Function::And
        | Function::Or
        | Function::IsNull
        | Function::IsNotNull
        | Function::Coalesce
        | Function::When
        | Function::In
        | Function::Concat
        | Function::Length
        | Function::StartsWith
        | Function::EndsWith
        | Function::Contains
        | Function::Year
        | Function::Month
        | Function::DayOfMonth
        | Function::DateAdd
        | Function::DateSub
        | Function::DateDiff
        | Function::Count
        | Function::Sum
        | Function::Min
        | Function::Max => false,
    }
}

fn operator_text(function: Function) -> Option<&'static str>
    ensures { option_copied result ≡ option_map titles.spaced (titles.operator_text function) }
{
    match function {
        Function::Add => Some(" + "),
        Function::Subtract => Some(" - "),
        Function::Multiply => Some(" * "),
        Function::Remainder => Some(" % "),
        Function::IntegralDivide => Some(" div "),
        Function::EqualTo => Some(" = "),
        Function::NotEqualTo => Some(" != "),
        Function::LessThan => Some(" < "),
        Function::LessThanOrEqual => Some(" <= "),
        Function::GreaterThan => Some(" > "),
        Function::GreaterThanOrEqual => Some(" >= "),
        Function::EqualNullSafe => Some(" <=> "),
        Function::And => Some(" and "),
        Function::Or => Some(" or "),
        Function::Negative
        | Function::Abs
        | Function::Not
        | Function::IsNull
        | Function::IsNotNull
        | Function::Coalesce
        | Function::When
        | Function::In
        | Function::Concat
        | Function::Length
        | Function::StartsWith
        | Function::EndsWith
        | Function::Contains
        | Function::Year
        | Function::Month
        | Function::DayOfMonth
        | Function::DateAdd
        | Function::DateSub
        | Function::DateDiff
        | Function::Count
        | Function::Sum
        | Function::Min
        | Function::Max => None,
    }
}
