ghost use Rattle.std.specs.Prelude.{◌≡◌, ◌≢◌, suc, IfOk, IfErr, Ok, Err, option_map};
ghost use Rattle.std.specs.Fmt.{decimal};
ghost use Rattle.std.specs.Option.{option_copied};
ghost use Rattle.plan_model.specs.FunctionTypes as types;
ghost use Rattle.resolve_names.specs.declared.error.ErrorName.TheVariants.{IncompatibleColumnType};
ghost use Rattle.resolve_names.specs.declared.error.ResolveStop.TheVariants.{Analysis, OutOfMemory as no_memory};
ghost use Rattle.resolve_names.specs.Refusals.{refusal};
ghost use Rattle.resolve_sets.specs.Aligning as aligning;

use crate::aligned::{Aligned, Places};
use cn_base::List;
use cn_types::DataType;
use resolve_names::{ErrorName, ResolveStop, ScopeColumn};
use resolve_relations::number_stop;
use std::alloc::Global;

/// What becomes one column, with its type. IncompatibleColumnType tells the first, from 1, whose two types don't go together.
#[tactic(auto, unfolding(crate::specs::Aligning::aligned), using(crate::proofs::NumberedChecks::number_gather_steps))]
pub(crate) fn with_types(
    alloc: Global,
    left: &[ScopeColumn],
    right: &[ScopeColumn],
    places: &[Places],
) -> Result<List<Aligned>, ResolveStop>
    ensures ok { IfOk result (λ columns. aligning.aligned left.now right.now places.now ≡ Ok columns) }
    ensures refused { IfErr result (λ e. e ≢ no_memory → aligning.aligned left.now right.now places.now ≡ Err e) }
{
    let mut columns = List::new(alloc);
    for (number, both) in places.iter().enumerate() {
        match aligned_at(alloc, left, right, number, both) {
            Ok(column) => columns.push(column)?,
            Err(stop) => return Err(stop),
        }
    }
    Ok(columns)
}

fn aligned_at(
    alloc: Global,
    left: &[ScopeColumn],
    right: &[ScopeColumn],
    number: usize,
    places: &Places,
) -> Result<Aligned, ResolveStop>
    ensures ok { IfOk result (λ column. aligning.aligned_at left.now right.now number places.now ≡ Ok column) }
    ensures refused { IfErr result (λ e. e ≢ no_memory → aligning.aligned_at left.now right.now number places.now ≡ Err e) }
{
    match kind_together(column_at(left, places.left), column_at(right, places.right)) {
        Some(kind) => Ok(Aligned {
            left: places.left,
            right: places.right,
            kind,
        }),
        None => Err(types_differ(alloc, number)),
    }
}

/// The types of the columns with this number, from 0, don't go together.
fn types_differ(alloc: Global, number: usize) -> ResolveStop
    ensures { result ≢ no_memory → result ≡ Analysis (refusal IncompatibleColumnType (decimal (suc number))) }
{
    match number.checked_add(1) {
        Some(place) => number_stop(alloc, ErrorName::IncompatibleColumnType, place),
        None => ResolveStop::OutOfMemory,
    }
}

/// The column at a place, where there is one.
pub(crate) fn column_at(columns: &[ScopeColumn], place: Option<u32>) -> Option<&ScopeColumn>
    ensures { option_copied result ≡ aligning.column_at columns.now place }
{
    match place {
        Some(place) => columns.get(place as usize),
        None => None,
    }
}

/// The type of both columns, or of the one that is there.
fn kind_together(left: Option<&ScopeColumn>, right: Option<&ScopeColumn>) -> Option<DataType>
    ensures { result ≡ aligning.kind_together (option_copied left.entry) (option_copied right.entry) }
{
    match (left, right) {
        (Some(left), Some(right)) => common(left.kind, right.kind),
        (Some(left), None) => Some(left.kind),
        (None, Some(right)) => Some(right.kind),
        (None, None) => None,
    }
}

fn common(left: DataType, right: DataType) -> Option<DataType>
    ensures { result ≡ types.common left right }
{
    match left {
        DataType::Boolean => match right {
            DataType::Boolean => Some(DataType::Boolean),
            DataType::Integer | DataType::Long | DataType::Text | DataType::Date => None,
        },
        DataType::Text => match right {
            DataType::Text => Some(DataType::Text),
            DataType::Boolean | DataType::Integer | DataType::Long | DataType::Date => None,
        },
        DataType::Date => match right {
            DataType::Date => Some(DataType::Date),
            DataType::Boolean | DataType::Integer | DataType::Long | DataType::Text => None,
        },
        DataType::Integer => common_with_integer(right),
        DataType::Long => common_with_long(right),
    }
}

fn common_with_integer(other: DataType) -> Option<DataType>
    ensures { result ≡ types.common DataType.Integer other }
{
    match other {
        DataType::Integer => Some(DataType::Integer),
        DataType::Long => Some(DataType::Long),
        DataType::Boolean | DataType::Text | DataType::Date => None,
    }
}

fn common_with_long(other: DataType) -> Option<DataType>
    ensures { result ≡ types.common DataType.Long other }
{
    match other {
        DataType::Integer | DataType::Long => Some(DataType::Long),
        DataType::Boolean | DataType::Text | DataType::Date => None,
    }
}
