ghost use Rattle.std.specs.Prelude.{◌≡◌, ◌≢◌, map, slice_get, codes, IfOk, IfErr, Ok, Err};
ghost use Rattle.std.specs.Option.{option_copied};
ghost use Rattle.plan_model.specs.FunctionTypes as types;
ghost use Rattle.resolve_names.specs.declared.error.ResolveStop.TheVariants.{OutOfMemory as no_memory};
ghost use Rattle.resolve_names.specs.Checks.{or_refused};
ghost use Rattle.resolve_functions.specs.Arguments.{mismatch};
ghost use Rattle.resolve_expressions.specs.Grouping.{all_checked};
ghost use Rattle.resolve_joins.specs.Keys as rules;

use cn_base::{List, OutOfMemory, Text};
use cn_types::DataType;
use plan_model::Function;
use resolve_functions::call_kind;
use resolve_names::{ErrorName, ResolveStop, ScopeColumn, analysis_stop};
use resolve_relations::{plain_place, short_place};
use std::alloc::Global;

/// A key of a join: the places of its two columns among those of their relations, their types, and the type that both have together.
#[derive(Clone, Copy, Debug)]
pub struct KeyPair {
    pub left: u32,
    pub left_kind: DataType,
    pub right: u32,
    pub right_kind: DataType,
    pub kind: DataType,
}

/// The keys of these names. The first of these errors decides, name by name: UnresolvedColumn or AmbiguousReference on the left, and then on
/// the right; DatatypeMismatch `join`.
#[tactic(auto, using(resolve_expressions::proofs::Gathering::gather_steps))]
pub(crate) fn key_pairs(
    alloc: Global,
    case_sensitive: bool,
    left: &[ScopeColumn],
    right: &[ScopeColumn],
    names: &[Text],
) -> Result<List<KeyPair>, ResolveStop>
    ensures ok { IfOk result (λ keys. all_checked (map (rules.key_pair case_sensitive left.now right.now) names.now) ≡ Ok keys) }
    ensures refused { IfErr result (λ e. e ≢ no_memory → all_checked (map (rules.key_pair case_sensitive left.now right.now) names.now) ≡ Err e) }
{
    let mut keys = List::new(alloc);
    for name in names {
        match key_pair(alloc, case_sensitive, left, right, name) {
            Ok(key) => keys.push(key)?,
            Err(stop) => return Err(stop),
        }
    }
    Ok(keys)
}

#[tactic(auto, unfolding(crate::specs::Keys::key_pair))]
fn key_pair(
    alloc: Global,
    case_sensitive: bool,
    left: &[ScopeColumn],
    right: &[ScopeColumn],
    name: &Text,
) -> Result<KeyPair, ResolveStop>
    ensures ok { IfOk result (λ key. rules.key_pair case_sensitive left.now right.now name.now ≡ Ok key) }
    ensures refused { IfErr result (λ e. e ≢ no_memory → rules.key_pair case_sensitive left.now right.now name.now ≡ Err e) }
{
    let on_left = short_place(plain_place(alloc, case_sensitive, left, name)?)?;
    let on_right = short_place(plain_place(alloc, case_sensitive, right, name)?)?;
    let left_column = column_at(left, on_left);
    let right_column = column_at(right, on_right);
    same_typed(alloc, on_left, on_right, left_column, right_column)
}

fn column_at(columns: &[ScopeColumn], place: u32) -> Option<&ScopeColumn>
    ensures { option_copied result ≡ slice_get columns.now place }
{
    columns.get(place as usize)
}

/// Two columns as a key, else DatatypeMismatch `join`.
fn same_typed(
    alloc: Global,
    left: u32,
    right: u32,
    left_column: Option<&ScopeColumn>,
    right_column: Option<&ScopeColumn>,
) -> Result<KeyPair, ResolveStop>
    ensures ok { IfOk result (λ key. or_refused (mismatch (codes "join")) (rules.paired left right (option_copied left_column.entry) (option_copied right_column.entry)) ≡ Ok key) }
    ensures refused { IfErr result (λ e. e ≢ no_memory → or_refused (mismatch (codes "join")) (rules.paired left right (option_copied left_column.entry) (option_copied right_column.entry)) ≡ Err e) }
{
    match paired(alloc, left, right, left_column, right_column)? {
        Some(key) => Ok(key),
        None => Err(analysis_stop(alloc, ErrorName::DatatypeMismatch, "join")),
    }
}

/// Two columns as a key, where they have a type together.
fn paired(
    alloc: Global,
    left: u32,
    right: u32,
    left_column: Option<&ScopeColumn>,
    right_column: Option<&ScopeColumn>,
) -> Result<Option<KeyPair>, OutOfMemory>
    ensures { IfOk result (λ key. key ≡ rules.paired left right (option_copied left_column.entry) (option_copied right_column.entry)) }
{
    let Some(left_column) = left_column else {
        return Ok(None);
    };
    let Some(right_column) = right_column else {
        return Ok(None);
    };
    match common_kind(alloc, left_column.kind, right_column.kind)? {
        Some(kind) => Ok(Some(KeyPair {
            left,
            left_kind: left_column.kind,
            right,
            right_kind: right_column.kind,
            kind,
        })),
        None => Ok(None),
    }
}

/// The type that two types have together, which is that of the first of both that is not null.
#[tactic(auto, unfolding(plan_model::specs::FunctionTypes::call_type))]
fn common_kind(
    alloc: Global,
    left: DataType,
    right: DataType,
) -> Result<Option<DataType>, OutOfMemory>
    ensures { IfOk result (λ kind. kind ≡ types.common left right) }
{
    call_kind(alloc, Function::Coalesce, &[left, right])
}
