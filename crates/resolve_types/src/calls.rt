ghost use Rattle.std.specs.Prelude.{◌≡◌, ◌≢◌, IfOk, IfErr, Ok, Err, ◌&&◌, not};
ghost use Rattle.resolve_names.specs.declared.error.ResolveStop.TheVariants.{OutOfMemory as no_memory};
ghost use Rattle.resolve_functions.specs.Arguments.{is_aggregate as is_aggregate_of};
ghost use Rattle.resolve_types.specs.Calls as calls;

use cn_types::DataType;
use plan_model::{Function, TypedExpr};
use resolve_functions::{aggregate_kind, function_named, is_aggregate, kind_of, takes};
use resolve_names::{ErrorName, ResolveStop, analysis_stop};
use std::alloc::Global;

/// How a function is called, before its arguments are looked at.
#[derive(Clone, Copy, Debug)]
pub struct CallForm {
    /// Whether aggregate functions may be called there.
    pub aggregates: bool,
    /// Whether each different value is to be taken once.
    pub distinct: bool,
    /// Whether a star stands among the arguments.
    pub starred: bool,
    /// How many arguments there are.
    pub count: usize,
}

/// The function of a call by its name in lower case. The first of these errors decides: UnresolvedRoutine where no function has the name;
/// InvalidAggregate for an aggregate where none is allowed; Unsupported `option 0` where each value is to be taken once and the call is not
/// `count` of values; WrongNumArgs.
#[tactic(auto, unfolding(crate::specs::Calls::called))]
pub fn called(alloc: Global, name: &str, form: &CallForm) -> Result<Function, ResolveStop>
    ensures ok { IfOk result (λ function. calls.called name.now form.now.aggregates form.now.distinct form.now.starred form.now.count ≡ Ok function) }
    ensures refused { IfErr result (λ e. e ≢ no_memory → calls.called name.now form.now.aggregates form.now.distinct form.now.starred form.now.count ≡ Err e) }
{
    let Some(function) = function_named(name) else {
        return Err(analysis_stop(alloc, ErrorName::UnresolvedRoutine, name));
    };
    if is_misplaced(function, form.aggregates) {
        return Err(analysis_stop(alloc, ErrorName::InvalidAggregate, name));
    }
    if is_wrongly_distinct(function, form.distinct, form.starred) {
        return Err(analysis_stop(alloc, ErrorName::Unsupported, "option 0"));
    }
    if !takes(function, form.count) {
        return Err(analysis_stop(alloc, ErrorName::WrongNumArgs, name));
    }
    Ok(function)
}

fn is_misplaced(function: Function, allowed: bool) -> bool
    ensures { result ≡ (is_aggregate_of function && not allowed) }
{
    is_aggregate(function) && !allowed
}

fn is_wrongly_distinct(function: Function, distinct: bool, starred: bool) -> bool
    ensures { result ≡ (distinct && not (calls.may_be_distinct function starred)) }
{
    distinct && !may_be_distinct(function, starred)
}

fn may_be_distinct(function: Function, starred: bool) -> bool
    ensures { result ≡ calls.may_be_distinct function starred }
{
    match function {
        Function::Count => !starred,
        Function::Add
        | Function::Subtract
        | Function::Multiply
        | Function::Remainder
        | Function::IntegralDivide
        | Function::Negative
        | Function::Abs
        | Function::EqualTo
        | Function::NotEqualTo
        | Function::LessThan
        | Function::LessThanOrEqual
        | Function::GreaterThan
        | Function::GreaterThanOrEqual
        | Function::EqualNullSafe
        | Function::And
        | Function::Or
        | Function::Not
        | Function::IsNull
        | Function::IsNotNull
        | Function::Coalesce
        | Function::When
        | Function::In
        | Function::Concat
        | Function::Length
        | Function::StartsWith
        | Function::EndsWith
        | Function::Contains
        | Function::Year
        | Function::Month
        | Function::DayOfMonth
        | Function::DateAdd
        | Function::DateSub
        | Function::DateDiff
        | Function::Sum
        | Function::Min
        | Function::Max => false,
    }
}

/// The type of an aggregate of an argument, which is none where it is a null without a type. DatatypeMismatch tells `null` there, and else
/// the function's name.
#[tactic(auto, unfolding(crate::specs::Calls::aggregate_of))]
pub fn aggregate_of(
    alloc: Global,
    name: &str,
    function: Function,
    distinct: bool,
    argument: &Option<TypedExpr>,
) -> Result<DataType, ResolveStop>
    ensures ok { IfOk result (λ kind. calls.aggregate_of name.now function distinct argument.now ≡ Ok kind) }
    ensures refused { IfErr result (λ e. e ≢ no_memory → calls.aggregate_of name.now function distinct argument.now ≡ Err e) }
{
    let Some(expr) = argument else {
        return Err(analysis_stop(alloc, ErrorName::DatatypeMismatch, "null"));
    };
    match aggregate_kind(function, distinct, Some(kind_of(expr))) {
        Some(kind) => Ok(kind),
        None => Err(analysis_stop(alloc, ErrorName::DatatypeMismatch, name)),
    }
}
