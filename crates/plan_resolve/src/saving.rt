ghost use Rattle.std.specs.Prelude.{◌≡◌, ◌≢◌, [], IfOk, IfErr, OnOk, Ok, Err, not, option_map};
ghost use Rattle.std.specs.List.{list_any};
ghost use Rattle.std.specs.Option.{option_copied};
ghost use Rattle.resolve_names.specs.declared.error.ResolveStop.TheVariants.{OutOfMemory as no_memory};
ghost use Rattle.resolve_types.specs.Calls.{unless};
ghost use Rattle.resolve_relations.specs.Making.{bad_option as bad_number, later_twin as its_twin, no_twin as without_twin};
ghost use Rattle.plan_resolve.specs.Saving as rules;

use cn_base::{Copied, Text};
use command_messages::SaveTable;
use plan_model::Save;
use resolve_names::{ErrorName, ResolveStop, ScopeColumn, analysis_stop, names_match};
use resolve_relations::{bad_option, table_name};
use std::alloc::Global;

/// Where a write command puts rows of these columns: the table is told as it was given. The first of these errors decides: Unsupported for the
/// method and then for the mode, BadIdentifier for the table, and DuplicateColumn for the first column whose name an earlier one has in either
/// case.
#[tactic(auto, unfolding(crate::specs::Saving::saved))]
pub fn save(
    alloc: Global,
    columns: &[ScopeColumn],
    table: &Option<SaveTable>,
    mode: i32,
) -> Result<Save, ResolveStop>
    ensures ok { IfOk result (λ save. rules.save_rule columns.now table.now mode ≡ Ok save) }
    ensures refused { IfErr result (λ e. e ≢ no_memory → rules.save_rule columns.now table.now mode ≡ Err e) }
{
    match table {
        Some(table) => saved(alloc, columns, table, mode),
        None => Err(bad_option(alloc, 0)),
    }
}

#[tactic(auto, unfolding(crate::specs::Saving::saved))]
fn saved(
    alloc: Global,
    columns: &[ScopeColumn],
    table: &SaveTable,
    mode: i32,
) -> Result<Save, ResolveStop>
    ensures ok { IfOk result (λ save. rules.saved columns.now table.now mode ≡ Ok save) }
    ensures refused { IfErr result (λ e. e ≢ no_memory → rules.saved columns.now table.now mode ≡ Err e) }
{
    method_known(alloc, table.save_method)?;
    mode_known(alloc, mode)?;
    table_name(alloc, &table.table_name)?;
    names_differ(alloc, columns)?;
    Ok(Save {
        name: table.table_name.copy(alloc)?,
        method: table.save_method,
        mode,
    })
}

fn method_known(alloc: Global, method: i32) -> Result<(), ResolveStop>
    ensures ok { OnOk result (unless (not (rules.is_method method)) (bad_number method) ≡ Ok tt) }
    ensures refused { IfErr result (λ e. e ≢ no_memory → unless (not (rules.is_method method)) (bad_number method) ≡ Err e) }
{
    if method == 1 || method == 2 {
        return Ok(());
    }
    Err(bad_option(alloc, method))
}

fn mode_known(alloc: Global, mode: i32) -> Result<(), ResolveStop>
    ensures ok { OnOk result (unless (not (rules.is_mode mode)) (bad_number mode) ≡ Ok tt) }
    ensures refused { IfErr result (λ e. e ≢ no_memory → unless (not (rules.is_mode mode)) (bad_number mode) ≡ Err e) }
{
    if mode < 0 || mode > 4 {
        return Err(bad_option(alloc, mode));
    }
    Ok(())
}

fn names_differ(alloc: Global, columns: &[ScopeColumn]) -> Result<(), ResolveStop>
    ensures ok { OnOk result (without_twin (option_map rules.column_name (its_twin rules.folds_alike [] columns.now)) ≡ Ok tt) }
    ensures refused { IfErr result (λ e. e ≢ no_memory → without_twin (option_map rules.column_name (its_twin rules.folds_alike [] columns.now)) ≡ Err e) }
{
    match later_twin(columns) {
        Some(column) => Err(analysis_stop(alloc, ErrorName::DuplicateColumn, column.name.as_str())),
        None => Ok(()),
    }
}

#[tactic(auto, using(resolve_relations::proofs::TwinFacts::twin_steps))]
fn later_twin(columns: &[ScopeColumn]) -> Option<&ScopeColumn>
    ensures { option_copied result ≡ its_twin rules.folds_alike [] columns.now }
{
    for (place, column) in columns.iter().enumerate() {
        if is_named_alike(&columns[..place], column) {
            return Some(column);
        }
    }
    None
}

#[tactic(auto, unfolding(crate::specs::Saving::folds_alike))]
fn is_named_alike(columns: &[ScopeColumn], column: &ScopeColumn) -> bool
    ensures { result ≡ list_any (rules.folds_alike column.now) columns.now }
{
    columns.iter().any(|other| names_match(false, column.name.as_str(), other.name.as_str()))
}
