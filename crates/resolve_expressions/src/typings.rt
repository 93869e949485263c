ghost use Rattle.std.specs.Prelude.{◌≡◌, ◌≢◌, ◌+◌, ◌++◌, [], ◌∷◌, ◌&&◌, IfOk, IfErr, OnOk, Ok, Err, Some, length, codes};
ghost use Rattle.std.specs.Fmt.{decimal};
ghost use Rattle.std.specs.List.{list_any};
ghost use Rattle.std.specs.Str.{str_to_ascii_lowercase};
ghost use Rattle.resolve_names.specs.declared.error.ResolveStop.TheVariants.{Analysis, OutOfMemory as no_memory};
ghost use Rattle.resolve_types.specs.Calls.{is_count as is_count_of};
ghost use Rattle.resolve_expressions.specs.Named as named;
ghost use Rattle.resolve_expressions.specs.Typings as typings;

use crate::Names;
use cn_base::{List, OutOfMemory, Text};
use cn_types::DataType;
use expression_messages::{Cast, Expr, UnresolvedAttribute, UnresolvedFunction};
use plan_model::{AggregateCall, Function, TypedExpr};
use resolve_functions::{is_aggregate, typed_call};
use resolve_names::{ErrorName, ResolveStop, analysis_stop};
use resolve_types::{CallForm, aggregate_of, called, typed_attribute, typed_cast, typed_literal};
use std::alloc::Global;

/// An expression with its type, none for a null without one. The aggregate calls in it are pushed behind `calls`, where they are allowed;
/// their values stand behind the columns in that order. Parts are typed from left to right, and the first error decides. After an error
/// nothing is promised of `calls`. A place from 2^32 on is answered as want of memory.
#[cycle(typings)]
#[tactic(auto, using(crate::proofs::Standings::typed_forms))]
pub fn typed_over(
    alloc: Global,
    names: &Names<'_>,
    expr: &Expr,
    allowed: bool,
    calls: &mut List<AggregateCall>,
) -> Result<Option<TypedExpr>, ResolveStop>
    ensures ok { IfOk result (λ typed. named.typed_in names.now expr.now allowed calls.old ≡ Ok (typings.typing typed calls.new)) }
    ensures refused { IfErr result (λ e. e ≢ no_memory → named.typed_in names.now expr.now allowed calls.old ≡ Err e) }
{
    match expr {
        Expr::Literal(literal) => typed_literal(alloc, literal),
        Expr::UnresolvedAttribute(attribute) => attribute_over(alloc, names, attribute),
        Expr::UnresolvedFunction(function) => function_over(alloc, names, function, allowed, calls),
        Expr::Cast(cast) => cast_over(alloc, names, cast, allowed, calls),
        Expr::UnresolvedStar(_) => Err(meaningless(alloc, 5)),
        Expr::Alias(_) => Err(meaningless(alloc, 6)),
        Expr::SortOrder(_) => Err(meaningless(alloc, 9)),
        Expr::Other(number) => Err(meaningless(alloc, *number)),
    }
}

fn attribute_over(
    alloc: Global,
    names: &Names<'_>,
    attribute: &UnresolvedAttribute,
) -> Result<Option<TypedExpr>, ResolveStop>
    ensures ok { IfOk result (λ typed. named.attribute_in names.now attribute.now ≡ Ok typed) }
    ensures refused { IfErr result (λ e. e ≢ no_memory → named.attribute_in names.now attribute.now ≡ Err e) }
{
    let expr = typed_attribute(
        alloc,
        names.case_sensitive,
        names.columns,
        names.relations,
        attribute,
    )?;
    Ok(Some(expr))
}

#[cycle(typings)]
#[tactic(auto, unfolding(crate::specs::Typings::cast_typed), using(crate::proofs::Standings::standing_typed))]
fn cast_over(
    alloc: Global,
    names: &Names<'_>,
    cast: &Cast,
    allowed: bool,
    calls: &mut List<AggregateCall>,
) -> Result<Option<TypedExpr>, ResolveStop>
    ensures ok { IfOk result (λ typed. named.cast_in names.now cast.now allowed calls.old ≡ Ok (typings.typing typed calls.new)) }
    ensures refused { IfErr result (λ e. e ≢ no_memory → named.cast_in names.now cast.now allowed calls.old ≡ Err e) }
{
    let child = typed_over(alloc, names, cast.expr.get(), allowed, calls)?;
    let expr = typed_cast(alloc, child, &cast.target)?;
    Ok(Some(expr))
}

#[cycle(typings)]
#[tactic(auto, unfolding(crate::specs::Typings::function_typed), using(crate::proofs::Standings::standings))]
fn function_over(
    alloc: Global,
    names: &Names<'_>,
    call: &UnresolvedFunction,
    allowed: bool,
    calls: &mut List<AggregateCall>,
) -> Result<Option<TypedExpr>, ResolveStop>
    ensures ok { IfOk result (λ typed. named.function_in names.now call.now allowed calls.old ≡ Ok (typings.typing typed calls.new)) }
    ensures refused { IfErr result (λ e. e ≢ no_memory → named.function_in names.now call.now allowed calls.old ≡ Err e) }
{
    let name = lower(alloc, call.function_name.as_str())?;
    let form = CallForm {
        aggregates: allowed,
        distinct: call.is_distinct,
        starred: has_star(call.arguments.as_slice()),
        count: call.arguments.len(),
    };
    let function = called(alloc, name.as_str(), &form)?;
    call_over(alloc, names, name.as_str(), function, call, allowed, calls)
}

/// A text in ASCII lower case.
fn lower(alloc: Global, text: &str) -> Result<Text, OutOfMemory>
    ensures { IfOk result (λ t. t ≡ str_to_ascii_lowercase text.now) }
{
    Ok(Text::from_string(text.to_ascii_lowercase(alloc)?))
}

#[cycle(typings)]
#[tactic(auto, using(crate::proofs::Standings::standings))]
fn call_over(
    alloc: Global,
    names: &Names<'_>,
    name: &str,
    function: Function,
    call: &UnresolvedFunction,
    allowed: bool,
    calls: &mut List<AggregateCall>,
) -> Result<Option<TypedExpr>, ResolveStop>
    ensures ok { IfOk result (λ typed. typings.call_typed (named.width names.now) name.now function call.now.is_distinct (named.standings_in names.now call.now.arguments) allowed calls.old ≡ Ok (typings.typing typed calls.new)) }
    ensures refused { IfErr result (λ e. e ≢ no_memory → typings.call_typed (named.width names.now) name.now function call.now.is_distinct (named.standings_in names.now call.now.arguments) allowed calls.old ≡ Err e) }
{
    if counts_rows(function, call.arguments.as_slice()) {
        return rows_counted(names, calls);
    }
    if is_aggregate(function) {
        return aggregate_over(alloc, names, name, function, call, calls);
    }
    plain_over(alloc, names, name, function, call, allowed, calls)
}

/// Whether a star stands among the arguments. It takes no memory.
fn has_star(arguments: &[Expr]) -> bool
    ensures { result ≡ list_any typings.is_star arguments.now }
{
    arguments.iter().any(|argument| is_star(argument))
}

#[tactic(auto, unfolding(crate::specs::Typings::is_star))]
fn is_star(expr: &Expr) -> bool
    ensures { result ≡ typings.is_star expr.now }
{
    match expr {
        Expr::UnresolvedStar(_) => true,
        Expr::Literal(_)
        | Expr::UnresolvedAttribute(_)
        | Expr::UnresolvedFunction(_)
        | Expr::Alias(_)
        | Expr::Cast(_)
        | Expr::SortOrder(_)
        | Expr::Other(_) => false,
    }
}

/// Whether a call is of the rows: a count of a star.
fn counts_rows(function: Function, arguments: &[Expr]) -> bool
    ensures { result ≡ (is_count_of function && list_any typings.is_star arguments.now) }
{
    is_count(function) && has_star(arguments)
}

pub(crate) fn is_count(function: Function) -> bool
    ensures { result ≡ is_count_of function }
{
    match function {
        Function::Count => true,
        Function::Add
        | Function::Subtract
        | Function::Multiply
        | Function::Remainder
        | Function::IntegralDivide
        | Function::Negative
        | Function::Abs
        | Function::EqualTo
        | Function::NotEqualTo
        | Function::LessThan
        | Function::LessThanOrEqual
        | Function::GreaterThan
        | Function::GreaterThanOrEqual
        | Function::EqualNullSafe
        | Function::And
        | Function::Or
        | Function::Not
        | Function::IsNull
        | Function::IsNotNull
        | Function::Coalesce
        | Function::When
        | Function::In
        | Function::Concat
        | Function::Length
        | Function::StartsWith
        | Function::EndsWith
        | Function::Contains
        | Function::Year
        | Function::Month
        | Function::DayOfMonth
        | Function::DateAdd
        | Function::DateSub
        | Function::DateDiff
        | Function::Sum
        | Function::Min
        | Function::Max => false,
    }
}

fn rows_counted(
    names: &Names<'_>,
    calls: &mut List<AggregateCall>,
) -> Result<Option<TypedExpr>, ResolveStop>
    ensures ok { IfOk result (λ typed. typings.rows_counted (named.width names.now) calls.old ≡ typings.typing typed calls.new) }
    ensures refused { IfErr result (λ e. e ≡ no_memory) }
{
    let call = AggregateCall {
        function: Function::Count,
        argument: None,
        distinct: false,
    };
    push_call(names, calls, call, DataType::Long)
}

/// Pushes an aggregate call of this type, and gives the place of its value.
fn push_call(
    names: &Names<'_>,
    calls: &mut List<AggregateCall>,
    call: AggregateCall,
    kind: DataType,
) -> Result<Option<TypedExpr>, ResolveStop>
    ensures ok { IfOk result (λ typed. typings.with_call (named.width names.now) calls.old call kind ≡ typings.typing typed calls.new) }
    ensures refused { IfErr result (λ e. e ≡ no_memory) }
{
    let place = place_behind(names, calls)?;
    calls.push(call)?;
    Ok(Some(TypedExpr::Column { place, kind }))
}

/// The place behind the columns and the calls.
fn place_behind(names: &Names<'_>, calls: &List<AggregateCall>) -> Result<u32, ResolveStop>
    ensures ok { IfOk result (λ place. place ≡ named.width names.now + length calls.now) }
    ensures refused { IfErr result (λ e. e ≡ no_memory) }
{
    let Some(place) = names.columns.len().checked_add(calls.len()) else {
        return Err(ResolveStop::OutOfMemory);
    };
    match u32::try_from(place) {
        Ok(place) => Ok(place),
        Err(_) => Err(ResolveStop::OutOfMemory),
    }
}

#[cycle(typings)]
#[tactic(auto, unfolding(crate::specs::Typings::aggregate_typed))]
fn aggregate_over(
    alloc: Global,
    names: &Names<'_>,
    name: &str,
    function: Function,
    call: &UnresolvedFunction,
    calls: &mut List<AggregateCall>,
) -> Result<Option<TypedExpr>, ResolveStop>
    ensures ok { IfOk result (λ typed. typings.aggregate_typed (named.width names.now) name.now function call.now.is_distinct (named.standings_in names.now call.now.arguments) calls.old ≡ Ok (typings.typing typed calls.new)) }
    ensures refused { IfErr result (λ e. e ≢ no_memory → typings.aggregate_typed (named.width names.now) name.now function call.now.is_distinct (named.standings_in names.now call.now.arguments) calls.old ≡ Err e) }
{
    let mut inner = List::new(alloc);
    let exprs = arguments_over(alloc, names, call, false, &mut inner)?;
    let argument = first_of(exprs);
    let kind = aggregate_of(alloc, name, function, call.is_distinct, &argument)?;
    let made = AggregateCall {
        function,
        argument,
        distinct: call.is_distinct,
    };
    push_call(names, calls, made, kind)
}

fn first_of(exprs: Vec<Option<TypedExpr>>) -> Option<TypedExpr>
    ensures { result ≡ typings.first_of exprs.items }
{
    match exprs.into_iter().next() {
        Some(expr) => expr,
        None => None,
    }
}

#[cycle(typings)]
#[tactic(auto, unfolding(crate::specs::Typings::plain_typed))]
fn plain_over(
    alloc: Global,
    names: &Names<'_>,
    name: &str,
    function: Function,
    call: &UnresolvedFunction,
    allowed: bool,
    calls: &mut List<AggregateCall>,
) -> Result<Option<TypedExpr>, ResolveStop>
    ensures ok { IfOk result (λ typed. typings.plain_typed name.now function (named.standings_in names.now call.now.arguments) allowed calls.old ≡ Ok (typings.typing typed calls.new)) }
    ensures refused { IfErr result (λ e. e ≢ no_memory → typings.plain_typed name.now function (named.standings_in names.now call.now.arguments) allowed calls.old ≡ Err e) }
{
    let exprs = arguments_over(alloc, names, call, allowed, calls)?;
    let expr = typed_call(alloc, name, function, exprs)?;
    Ok(Some(expr))
}

/// Arguments with their types, from left to right.
#[cycle(typings)]
#[tactic(auto, using(crate::proofs::Arguments::argument_steps))]
fn arguments_over(
    alloc: Global,
    names: &Names<'_>,
    call: &UnresolvedFunction,
    allowed: bool,
    calls: &mut List<AggregateCall>,
) -> Result<Vec<Option<TypedExpr>>, ResolveStop>
    ensures ok { IfOk result (λ exprs. named.arguments_in names.now allowed call.now.arguments calls.old ≡ Ok (typings.arguments exprs.items calls.new)) }
    ensures refused { IfErr result (λ e. e ≢ no_memory → named.arguments_in names.now allowed call.now.arguments calls.old ≡ Err e) }
{
    let mut exprs = Vec::new(alloc);
    for argument in call.arguments.as_slice() {
        match typed_over(alloc, names, argument, allowed, calls) {
            Ok(expr) => push_typing(&mut exprs, expr)?,
            Err(stop) => return Err(stop),
        }
    }
    Ok(exprs)
}

fn push_typing(
    exprs: &mut Vec<Option<TypedExpr>>,
    expr: Option<TypedExpr>,
) -> Result<(), OutOfMemory>
    ensures { OnOk result (exprs.new.items ≡ exprs.old.items ++ expr ∷ []) }
{
    exprs.push(expr)?;
    Ok(())
}

/// The error of an expression that has no meaning where it stands, by its field number.
pub(crate) fn meaningless(alloc: Global, number: u32) -> ResolveStop
    ensures { result ≢ no_memory → result ≡ Analysis (typings.meaningless number) }
{
    match expression_text(alloc, number) {
        Ok(detail) => analysis_stop(alloc, ErrorName::Unsupported, detail.as_str()),
        Err(_) => ResolveStop::OutOfMemory,
    }
}

fn expression_text(alloc: Global, number: u32) -> Result<Text, OutOfMemory>
    ensures { IfOk result (λ t. t ≡ codes "expression " ++ decimal number) }
{
    let text = format!(in alloc; "expression {number}")?;
    Ok(Text::from_string(text))
}
