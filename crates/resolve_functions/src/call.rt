ghost use Rattle.std.specs.Prelude.{◌≡◌, ◌&&◌, if◌then◌else◌, [], ◌∷◌, Some, None, IfOk};
ghost use Rattle.std.specs.List.{list_all};
ghost use Rattle.plan_model.specs.FunctionTypes as types;

use crate::kinds::{common, common_of, same_kind, wider};
use crate::slices::{pair, single};
use cn_base::{List, OutOfMemory};
use cn_types::DataType;
use plan_model::Function;
use std::alloc::Global;

/// The type of a call of a function over arguments of these types; none where it does not take them, or is an aggregate.
#[tactic(auto, unfolding(plan_model::specs::FunctionTypes::call_type))]
pub fn call_kind(
    alloc: Global,
    function: Function,
    kinds: &[DataType],
) -> Result<Option<DataType>, OutOfMemory>
    ensures { IfOk result (λ kind. kind ≡ types.call_type function kinds.now) }
{
    match function {
        Function::Add => Ok(widest(kinds)),
        Function::Subtract => Ok(widest(kinds)),
        Function::Multiply => Ok(widest(kinds)),
        Function::Remainder => Ok(widest(kinds)),
        Function::IntegralDivide => Ok(quotient(kinds)),
        Function::Negative => Ok(number(kinds)),
        Function::Abs => Ok(number(kinds)),
        Function::EqualTo => Ok(comparison(kinds)),
        Function::NotEqualTo => Ok(comparison(kinds)),
        Function::LessThan => Ok(comparison(kinds)),
        Function::LessThanOrEqual => Ok(comparison(kinds)),
        Function::GreaterThan => Ok(comparison(kinds)),
        Function::GreaterThanOrEqual => Ok(comparison(kinds)),
        Function::EqualNullSafe => Ok(comparison(kinds)),
        Function::And => Ok(exactly_two(
            DataType::Boolean,
            DataType::Boolean,
            DataType::Boolean,
            kinds,
        )),
        Function::Or => Ok(exactly_two(
            DataType::Boolean,
            DataType::Boolean,
            DataType::Boolean,
            kinds,
        )),
        Function::Not => Ok(exactly_one(DataType::Boolean, DataType::Boolean, kinds)),
        Function::IsNull => Ok(null_test(kinds)),
        Function::IsNotNull => Ok(null_test(kinds)),
        Function::Coalesce => Ok(common_of(kinds)),
        Function::When => conditional(alloc, kinds),
        Function::In => Ok(membership(kinds)),
        Function::Concat => Ok(concatenation(kinds)),
        Function::Length => Ok(exactly_one(DataType::Text, DataType::Integer, kinds)),
        Function::StartsWith => Ok(exactly_two(
            DataType::Text,
            DataType::Text,
            DataType::Boolean,
            kinds,
        )),
        Function::EndsWith => Ok(exactly_two(
            DataType::Text,
            DataType::Text,
            DataType::Boolean,
            kinds,
        )),
        Function::Contains => Ok(exactly_two(
            DataType::Text,
            DataType::Text,
            DataType::Boolean,
            kinds,
        )),
        Function::Year => Ok(exactly_one(DataType::Date, DataType::Integer, kinds)),
        Function::Month => Ok(exactly_one(DataType::Date, DataType::Integer, kinds)),
        Function::DayOfMonth => Ok(exactly_one(DataType::Date, DataType::Integer, kinds)),
        Function::DateAdd => Ok(exactly_two(
            DataType::Date,
            DataType::Integer,
            DataType::Date,
            kinds,
        )),
        Function::DateSub => Ok(exactly_two(
            DataType::Date,
            DataType::Integer,
            DataType::Date,
            kinds,
        )),
        Function::DateDiff => Ok(exactly_two(
            DataType::Date,
            DataType::Date,
            DataType::Integer,
            kinds,
        )),
        Function::Count => Ok(None),
        Function::Sum => Ok(None),
        Function::Min => Ok(None),
        Function::Max => Ok(None),
    }
}

/// The type of an aggregate call over values of a type, or over rows; none where it does not take them. It takes no memory.
pub fn aggregate_kind(
    function: Function,
    distinct: bool,
    argument: Option<DataType>,
) -> Option<DataType>
    ensures { result ≡ types.aggregate_type function distinct argument }
{
    match function {
        Function::Count => count_kind(distinct, argument),
        Function::Sum => sum_kind(distinct, argument),
        Function::Min => min_kind(distinct, argument),
        Function::Max => max_kind(distinct, argument),
        Function::Add
        | Function::Subtract
        | Function::Multiply
        | Function::Remainder
        | Function::IntegralDivide
        | Function::Negative
        | Function::Abs
        | Function::EqualTo
        | Function::NotEqualTo
        | Function::LessThan
        | Function::LessThanOrEqual
        | Function::GreaterThan
        | Function::GreaterThanOrEqual
        | Function::EqualNullSafe
        | Function::And
        | Function::Or
        | Function::Not
        | Function::IsNull
        | Function::IsNotNull
        | Function::Coalesce
        | Function::When
        | Function::In
        | Function::Concat
        | Function::Length
        | Function::StartsWith
        | Function::EndsWith
        | Function::Contains
        | Function::Year
        | Function::Month
        | Function::DayOfMonth
        | Function::DateAdd
        | Function::DateSub
        | Function::DateDiff => None,
    }
}

fn count_kind(distinct: bool, argument: Option<DataType>) -> Option<DataType>
    ensures { result ≡ types.aggregate_type Function.Count distinct argument }
{
    match argument {
        Some(_) => Some(DataType::Long),
        None if distinct => None,
        None => Some(DataType::Long),
    }
}

fn sum_kind(distinct: bool, argument: Option<DataType>) -> Option<DataType>
    ensures { result ≡ types.aggregate_type Function.Sum distinct argument }
{
    match argument {
        None => None,
        Some(_) if distinct => None,
        Some(kind) => always_long(wider(kind, kind)),
    }
}

fn min_kind(distinct: bool, argument: Option<DataType>) -> Option<DataType>
    ensures { result ≡ types.aggregate_type Function.Min distinct argument }
{
    match argument {
        None => None,
        Some(_) if distinct => None,
        Some(kind) => Some(kind),
    }
}

fn max_kind(distinct: bool, argument: Option<DataType>) -> Option<DataType>
    ensures { result ≡ types.aggregate_type Function.Max distinct argument }
{
    match argument {
        None => None,
        Some(_) if distinct => None,
        Some(kind) => Some(kind),
    }
}

fn always_long(other: Option<DataType>) -> Option<DataType>
    ensures { result ≡ types.always DataType.Long other }
{
    match other {
        Some(_) => Some(DataType::Long),
        None => None,
    }
}

fn always_boolean(other: Option<DataType>) -> Option<DataType>
    ensures { result ≡ types.always DataType.Boolean other }
{
    match other {
        Some(_) => Some(DataType::Boolean),
        None => None,
    }
}

#[tactic(auto, using(crate::proofs::ListCases::by_two_pair))]
fn widest(kinds: &[DataType]) -> Option<DataType>
    ensures { result ≡ types.by_two types.wider kinds.now }
{
    match pair(kinds) {
        Some((a, b)) => wider(a, b),
        None => None,
    }
}

#[tactic(auto, using(crate::proofs::ListCases::by_two_pair))]
fn quotient(kinds: &[DataType]) -> Option<DataType>
    ensures { result ≡ types.by_two (λ a b. types.always DataType.Long (types.wider a b)) kinds.now }
{
    match pair(kinds) {
        Some((a, b)) => always_long(wider(a, b)),
        None => None,
    }
}

#[tactic(auto, using(crate::proofs::ListCases::by_one_single))]
fn number(kinds: &[DataType]) -> Option<DataType>
    ensures { result ≡ types.by_one (λ a. types.wider a a) kinds.now }
{
    match single(kinds) {
        Some(a) => wider(a, a),
        None => None,
    }
}

#[tactic(auto, using(crate::proofs::ListCases::by_two_pair))]
fn comparison(kinds: &[DataType]) -> Option<DataType>
    ensures { result ≡ types.by_two (λ a b. types.always DataType.Boolean (types.common a b)) kinds.now }
{
    match pair(kinds) {
        Some((a, b)) => always_boolean(common(a, b)),
        None => None,
    }
}

#[tactic(auto, using(crate::proofs::ListCases::by_one_single))]
fn null_test(kinds: &[DataType]) -> Option<DataType>
    ensures { result ≡ types.by_one (λ a. Some DataType.Boolean) kinds.now }
{
    match single(kinds) {
        Some(_) => Some(DataType::Boolean),
        None => None,
    }
}

#[tactic(auto, using(crate::proofs::ListCases::exactly_single))]
fn exactly_one(taken: DataType, result_kind: DataType, kinds: &[DataType]) -> Option<DataType>
    ensures { result ≡ types.exactly (taken ∷ []) result_kind kinds.now }
{
    match single(kinds) {
        Some(a) if same_kind(taken, a) => Some(result_kind),
        Some(_) => None,
        None => None,
    }
}

#[tactic(auto, using(crate::proofs::ListCases::exactly_pair))]
fn exactly_two(
    first: DataType,
    second: DataType,
    result_kind: DataType,
    kinds: &[DataType],
) -> Option<DataType>
    ensures { result ≡ types.exactly (first ∷ second ∷ []) result_kind kinds.now }
{
    match pair(kinds) {
        Some((a, b)) => both_same(first, a, second, b, result_kind),
        None => None,
    }
}

fn both_same(
    first: DataType,
    a: DataType,
    second: DataType,
    b: DataType,
    result_kind: DataType,
) -> Option<DataType>
    ensures { result ≡ (if types.same_kind first a && types.same_kind second b then Some result_kind else None) }
{
    if !same_kind(first, a) {
        return None;
    }
    if same_kind(second, b) {
        Some(result_kind)
    } else {
        None
    }
}

/// `in`: a value and at least one other.
#[tactic(auto, using(crate::proofs::ListCases::in_short, crate::proofs::ListCases::in_long))]
fn membership(kinds: &[DataType]) -> Option<DataType>
    ensures { result ≡ types.in_type kinds.now }
{
    if kinds.len() < 2 {
        return None;
    }
    always_boolean(common_of(kinds))
}

/// `concat`: at least one text.
#[tactic(auto, using(crate::proofs::ListCases::concat_none, crate::proofs::ListCases::concat_some))]
fn concatenation(kinds: &[DataType]) -> Option<DataType>
    ensures { result ≡ types.concat_type kinds.now }
{
    if kinds.is_empty() {
        return None;
    }
    if all_texts(kinds) {
        Some(DataType::Text)
    } else {
        None
    }
}

fn all_texts(kinds: &[DataType]) -> bool
    ensures { result ≡ list_all (types.same_kind DataType.Text) kinds.now }
{
    kinds.iter().all(|kind| same_kind(DataType::Text, *kind))
}

/// `when`: conditions and values in turn, and perhaps one more value.
#[tactic(auto, using(crate::proofs::Whens::when_short, crate::proofs::Whens::when_long))]
fn conditional(alloc: Global, kinds: &[DataType]) -> Result<Option<DataType>, OutOfMemory>
    ensures { IfOk result (λ kind. kind ≡ types.when_type kinds.now) }
{
    if kinds.len() < 2 {
        return Ok(None);
    }
    match when_values(alloc, kinds)? {
        Some(values) => Ok(common_of(values.as_slice())),
        None => Ok(None),
    }
}

/// The types of the values of a `when`; none where a condition is not boolean.
fn when_values(alloc: Global, kinds: &[DataType]) -> Result<Option<List<DataType>>, OutOfMemory>
    ensures { IfOk result (λ values. values ≡ types.when_values kinds.now) }
{
    let mut values = List::new(alloc);
    let mut at = 0;
    while kinds.len() - at > 1 {
        if !is_boolean(kinds[at]) {
            return Ok(None);
        }
        values.push(kinds[at + 1])?;
        at += 2;
    }
    if at < kinds.len() {
        values.push(kinds[at])?;
    }
    Ok(Some(values))
}

fn is_boolean(kind: DataType) -> bool
    ensures { result ≡ types.same_kind kind DataType.Boolean }
{
    same_kind(kind, DataType::Boolean)
}
