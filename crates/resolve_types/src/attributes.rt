ghost use Rattle.std.specs.Prelude.{◌≡◌, ◌≢◌, IfOk, IfErr, Ok, Err, nat_eq, slice_get};
ghost use Rattle.std.specs.Option.{option_copied};
ghost use Rattle.resolve_names.specs.declared.error.ResolveStop.TheVariants.{OutOfMemory as no_memory};
ghost use Rattle.resolve_types.specs.Leaves as leaves;

use expression_messages::UnresolvedAttribute;
use plan_model::TypedExpr;
use resolve_names::{ErrorName, ResolveStop, ScopeColumn, Tagged, analysis_stop, attribute_place};
use std::alloc::Global;

/// The column that an attribute names, with its type. Its errors are those of `attribute_place`. A place from 2^32 on is answered as want
/// of memory.
#[tactic(auto, unfolding(crate::specs::Leaves::typed_attribute))]
pub fn typed_attribute(
    alloc: Global,
    case_sensitive: bool,
    columns: &[ScopeColumn],
    relations: &[Tagged<u64>],
    attribute: &UnresolvedAttribute,
) -> Result<TypedExpr, ResolveStop>
    ensures ok { IfOk result (λ expr. leaves.typed_attribute nat_eq case_sensitive columns.now relations.now attribute.now ≡ Ok expr) }
    ensures refused { IfErr result (λ e. e ≢ no_memory → leaves.typed_attribute nat_eq case_sensitive columns.now relations.now attribute.now ≡ Err e) }
{
    let identifier = attribute.unparsed_identifier.as_str();
    let place = attribute_place(
        alloc,
        case_sensitive,
        columns,
        relations,
        identifier,
        attribute.plan_id,
    )?;
    column_at(alloc, identifier, columns, place)
}

fn column_at(
    alloc: Global,
    identifier: &str,
    columns: &[ScopeColumn],
    place: usize,
) -> Result<TypedExpr, ResolveStop>
    ensures ok { IfOk result (λ expr. leaves.column_at identifier.now columns.now place ≡ Ok expr) }
    ensures refused { IfErr result (λ e. e ≢ no_memory → leaves.column_at identifier.now columns.now place ≡ Err e) }
{
    match column(columns, place) {
        Some(column) => numbered(place, column),
        None => Err(analysis_stop(alloc, ErrorName::UnresolvedColumn, identifier)),
    }
}

fn column(columns: &[ScopeColumn], place: usize) -> Option<&ScopeColumn>
    ensures { option_copied result ≡ slice_get columns.now place }
{
    columns.get(place)
}

fn numbered(place: usize, column: &ScopeColumn) -> Result<TypedExpr, ResolveStop>
    ensures ok { IfOk result (λ expr. expr ≡ TypedExpr.Column place column.now.kind) }
    ensures refused { IfErr result (λ e. e ≡ no_memory) }
{
    match u32::try_from(place) {
        Ok(place) => Ok(TypedExpr::Column {
            place,
            kind: column.kind,
        }),
        Err(_) => Err(ResolveStop::OutOfMemory),
    }
}
