ghost use Rattle.std.specs.Prelude.{◌≡◌, ◌≢◌, IfErr, OnOk, Ok, Err, find};
ghost use Rattle.std.specs.Fmt.{decimal, signed_decimal};
ghost use Rattle.std.specs.Option.{option_copied};
ghost use Rattle.resolve_names.specs.declared.error.ResolveStop.TheVariants.{Analysis, OutOfMemory as no_memory};
ghost use Rattle.resolve_names.specs.Refusals.{refusal};
ghost use Rattle.resolve_relations.specs.Columns as rules;

use resolve_names::{ErrorName, ResolveStop, ScopeColumn, analysis_stop};
use std::alloc::Global;

/// How many columns a relation may have.
const COLUMN_LIMIT: usize = 1_000;

/// How many bytes a column's name may have.
const NAME_LIMIT: usize = 1_024;

/// That a relation has as many columns as it may have, else TooManyColumns with their number; and then that no name is too long, else
/// NameTooLong with the number of bytes of the first such name.
#[tactic(auto, unfolding(crate::specs::Columns::within_limits))]
pub fn within_limits(alloc: Global, columns: &[ScopeColumn]) -> Result<(), ResolveStop>
    ensures ok { OnOk result (rules.within_limits columns.now ≡ Ok tt) }
    ensures refused { IfErr result (λ e. e ≢ no_memory → rules.within_limits columns.now ≡ Err e) }
{
    column_limit(alloc, columns.len())?;
    match long_named(columns) {
        Some(column) => Err(number_stop(alloc, ErrorName::NameTooLong, column.name.as_str().len())),
        None => Ok(()),
    }
}

/// That there are as many columns as a relation may have.
pub fn column_limit(alloc: Global, count: usize) -> Result<(), ResolveStop>
    ensures ok { OnOk result (rules.column_limit count ≡ Ok tt) }
    ensures refused { IfErr result (λ e. e ≢ no_memory → rules.column_limit count ≡ Err e) }
{
    if count > COLUMN_LIMIT {
        return Err(number_stop(alloc, ErrorName::TooManyColumns, count));
    }
    Ok(())
}

fn long_named(columns: &[ScopeColumn]) -> Option<&ScopeColumn>
    ensures { option_copied result ≡ find rules.is_too_long columns.now }
{
    columns
        .iter()
        .find(|column| column.name.as_str().len() > NAME_LIMIT)
}

/// The error of this name whose detail is a number.
pub fn number_stop(alloc: Global, name: ErrorName, number: usize) -> ResolveStop
    ensures { result ≢ no_memory → result ≡ Analysis (refusal name (decimal number)) }
{
    match number.to_string(alloc) {
        Ok(text) => analysis_stop(alloc, name, text.as_str()),
        Err(_) => ResolveStop::OutOfMemory,
    }
}

/// The error of this name whose detail is a number with its sign.
pub fn signed_stop(alloc: Global, name: ErrorName, number: i64) -> ResolveStop
    ensures { result ≢ no_memory → result ≡ Analysis (refusal name (signed_decimal number)) }
{
    match number.to_string(alloc) {
        Ok(text) => analysis_stop(alloc, name, text.as_str()),
        Err(_) => ResolveStop::OutOfMemory,
    }
}
