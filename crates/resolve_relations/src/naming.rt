ghost use Rattle.std.specs.Prelude.{◌≡◌, ◌≢◌, ◌++◌, codes, IfOk, IfErr, Ok, Err, find};
ghost use Rattle.std.specs.Fmt.{decimal};
ghost use Rattle.std.specs.String.{string_bytes};
ghost use Rattle.std.specs.Option.{option_copied};
ghost use Rattle.resolve_names.specs.declared.error.ResolveStop.TheVariants.{Analysis, OutOfMemory as no_memory};
ghost use Rattle.resolve_names.specs.Matching.{name_matches};
ghost use Rattle.resolve_relations.specs.Columns as columns_of;
ghost use Rattle.resolve_relations.specs.Making as rules;

use crate::found::Found;
use crate::made::{fresh_column, id_at};
use cn_base::{Copied, List, OutOfMemory, Text};
use plain_relations::RenameEntry;
use resolve_names::{ColumnList, ErrorName, ResolveStop, ScopeColumn, analysis_stop, names_match};
use std::alloc::Global;

/// All columns under new names, with ids from `base` on. NumColumnsMismatch tells the number of the columns and of the names where they differ.
#[tactic(auto, unfolding(crate::specs::Making::to_df_rule))]
pub fn to_df(alloc: Global, base: u64, input: Found, names: &[Text]) -> Result<Found, ResolveStop>
    ensures ok { IfOk result (λ found. rules.to_df_rule (columns_of.ids_from base) input names.now ≡ Ok found) }
    ensures refused { IfErr result (λ e. e ≢ no_memory → rules.to_df_rule (columns_of.ids_from base) input names.now ≡ Err e) }
{
    let count = input.columns.as_slice().len();
    if count != names.len() {
        return Err(columns_differ(alloc, count, names.len()));
    }
    let columns = named_anew(alloc, base, input.columns.as_slice(), names)?;
    over_columns(alloc, input, columns)
}

fn over_columns(
    alloc: Global,
    input: Found,
    columns: List<ScopeColumn>,
) -> Result<Found, ResolveStop>
    ensures ok { IfOk result (λ found. found ≡ columns_of.remade input input.node columns) }
    ensures refused { IfErr result (λ e. e ≡ no_memory) }
{
    let Found {
        node,
        relations,
        ..
    } = input;
    Ok(Found {
        node,
        columns: ColumnList::of(alloc, columns)?,
        relations,
    })
}

/// Two numbers of columns that should be one.
pub(crate) fn columns_differ(alloc: Global, left: usize, right: usize) -> ResolveStop
    ensures { result ≢ no_memory → result ≡ Analysis (rules.columns_differ left right) }
{
    match two_numbers(alloc, left, right) {
        Ok(text) => analysis_stop(alloc, ErrorName::NumColumnsMismatch, text.as_str()),
        Err(_) => ResolveStop::OutOfMemory,
    }
}

fn two_numbers(alloc: Global, left: usize, right: usize) -> Result<String, OutOfMemory>
    ensures { IfOk result (λ text. string_bytes text ≡ decimal left ++ codes " " ++ decimal right) }
{
    let text = format!(in alloc; "{left} {right}")?;
    Ok(text)
}

#[tactic(auto, using(crate::proofs::Numbered::number_steps))]
fn named_anew(
    alloc: Global,
    base: u64,
    columns: &[ScopeColumn],
    names: &[Text],
) -> Result<List<ScopeColumn>, OutOfMemory>
    ensures { IfOk result (λ made. made ≡ columns_of.numbered (rules.new_column (columns_of.ids_from base) names.now) columns.now) }
{
    let mut made = List::new(alloc);
    for (number, column) in columns.iter().enumerate() {
        made.push(new_column(alloc, base, names, number, column)?)?;
    }
    Ok(made)
}

fn new_column(
    alloc: Global,
    base: u64,
    names: &[Text],
    number: usize,
    column: &ScopeColumn,
) -> Result<ScopeColumn, OutOfMemory>
    ensures { IfOk result (λ c. c ≡ rules.new_column (columns_of.ids_from base) names.now number column.now) }
{
    let id = id_at(base, number)?;
    let name = name_at(alloc, names, number)?;
    Ok(fresh_column(alloc, id, name, column.kind, column.nullable))
}

fn name_at(alloc: Global, names: &[Text], number: usize) -> Result<Text, OutOfMemory>
    ensures { IfOk result (λ name. name ≡ rules.name_at names.now number) }
{
    match names.get(number) {
        Some(name) => name.copy(alloc),
        None => Ok(Text::new(alloc)),
    }
}

/// The columns of which an entry has the name under its new name, with a fresh id; the others as they are.
#[tactic(auto, unfolding(crate::specs::Making::renamed_rule))]
pub fn renamed(
    alloc: Global,
    case_sensitive: bool,
    base: u64,
    input: Found,
    entries: &[RenameEntry],
) -> Result<Found, ResolveStop>
    ensures ok { IfOk result (λ found. found ≡ rules.renamed_rule case_sensitive (columns_of.ids_from base) input entries.now) }
    ensures refused { IfErr result (λ e. e ≡ no_memory) }
{
    let columns = renamed_columns(
        alloc,
        case_sensitive,
        base,
        input.columns.as_slice(),
        entries,
    )?;
    over_columns(alloc, input, columns)
}

#[tactic(auto, using(crate::proofs::Numbered::number_steps))]
fn renamed_columns(
    alloc: Global,
    case_sensitive: bool,
    base: u64,
    columns: &[ScopeColumn],
    entries: &[RenameEntry],
) -> Result<List<ScopeColumn>, OutOfMemory>
    ensures { IfOk result (λ made. made ≡ columns_of.numbered (rules.rename_column case_sensitive (columns_of.ids_from base) entries.now) columns.now) }
{
    let mut made = List::new(alloc);
    for (number, column) in columns.iter().enumerate() {
        let id = id_at(base, number)?;
        made.push(renamed_column(alloc, case_sensitive, id, column, entries)?)?;
    }
    Ok(made)
}

fn renamed_column(
    alloc: Global,
    case_sensitive: bool,
    id: u64,
    column: &ScopeColumn,
    entries: &[RenameEntry],
) -> Result<ScopeColumn, OutOfMemory>
    ensures { IfOk result (λ c. c ≡ rules.renamed_to id column.now (rules.new_name case_sensitive entries.now column.now.name)) }
{
    match entry_of(case_sensitive, entries, &column.name) {
        Some(entry) => {
            let name = entry.value.copy(alloc)?;
            Ok(fresh_column(alloc, id, name, column.kind, column.nullable))
        }
        None => column.copy(alloc),
    }
}

fn entry_of<'a>(
    case_sensitive: bool,
    entries: &'a [RenameEntry],
    name: &Text,
) -> Option<&'a RenameEntry>
    ensures { option_copied result ≡ find (λ entry. name_matches case_sensitive entry.key name.now) entries.now }
{
    entries.iter().find(|entry| names_match(case_sensitive, entry.key.as_str(), name.as_str()))
}
