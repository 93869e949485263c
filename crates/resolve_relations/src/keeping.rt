ghost use Rattle.std.specs.Prelude.{◌≡◌, ◌≢◌, IfOk, IfErr, Ok, Err, map};
ghost use Rattle.resolve_expressions.specs.Grouping.{all_checked};
ghost use Rattle.resolve_names.specs.declared.error.ResolveStop.TheVariants.{OutOfMemory as no_memory};
ghost use Rattle.plan_model.specs.declared.node.Node.TheVariants as node;
ghost use Rattle.resolve_relations.specs.Columns as columns_of;
ghost use Rattle.resolve_relations.specs.Keeping as rules;

use crate::found::Found;
use crate::limits::signed_stop;
use cn_base::{Boxed, Copied, List, OutOfMemory, Text};
use plan_model::Node;
use resolve_names::{ColumnList, ErrorName, ResolveStop, ScopeColumn, named_place};
use std::alloc::Global;

/// The first rows, so many. BadNumber tells a number below 0.
#[tactic(auto, unfolding(crate::specs::Keeping::limit_rule))]
pub fn limit(alloc: Global, input: Found, number: i32) -> Result<Found, ResolveStop>
    ensures ok { IfOk result (λ found. rules.limit_rule input number ≡ Ok found) }
    ensures refused { IfErr result (λ e. e ≢ no_memory → rules.limit_rule input number ≡ Err e) }
{
    let rows = row_number(alloc, number)?;
    sliced(alloc, input, 0, Some(rows))
}

/// The rows behind the first, so many. BadNumber tells a number below 0.
#[tactic(auto, unfolding(crate::specs::Keeping::offset_rule))]
pub fn offset(alloc: Global, input: Found, number: i32) -> Result<Found, ResolveStop>
    ensures ok { IfOk result (λ found. rules.offset_rule input number ≡ Ok found) }
    ensures refused { IfErr result (λ e. e ≢ no_memory → rules.offset_rule input number ≡ Err e) }
{
    let rows = row_number(alloc, number)?;
    sliced(alloc, input, rows, None)
}

fn row_number(alloc: Global, number: i32) -> Result<u32, ResolveStop>
    ensures ok { IfOk result (λ rows. rules.row_number number ≡ Ok rows) }
    ensures refused { IfErr result (λ e. e ≢ no_memory → rules.row_number number ≡ Err e) }
{
    if number < 0 {
        return Err(signed_stop(alloc, ErrorName::BadNumber, i64::from(number)));
    }
    Ok(number.unsigned_abs())
}

fn sliced(alloc: Global, input: Found, skip: u32, take: Option<u32>) -> Result<Found, ResolveStop>
    ensures ok { IfOk result (λ found. found ≡ columns_of.over input (node.Slice input.node skip take)) }
    ensures refused { IfErr result (λ e. e ≡ no_memory) }
{
    let Found {
        node,
        columns,
        relations,
    } = input;
    Ok(Found {
        node: Node::Slice {
            input: Boxed::new(alloc, node)?,
            skip,
            take,
        },
        columns,
        relations,
    })
}

/// The same columns with an alias as their qualifier.
pub fn subquery_alias(alloc: Global, input: Found, alias: &Text) -> Result<Found, ResolveStop>
    ensures ok { IfOk result (λ found. found ≡ rules.alias_rule input alias.now) }
    ensures refused { IfErr result (λ e. e ≡ no_memory) }
{
    let Found {
        node,
        columns,
        relations,
    } = input;
    let qualified = qualified_columns(alloc, alias, columns.as_slice())?;
    Ok(Found {
        node,
        columns: ColumnList::of(alloc, qualified)?,
        relations,
    })
}

#[tactic(auto, using(crate::proofs::Numbered::map_steps))]
fn qualified_columns(
    alloc: Global,
    alias: &Text,
    columns: &[ScopeColumn],
) -> Result<List<ScopeColumn>, OutOfMemory>
    ensures { IfOk result (λ qualified. qualified ≡ map (rules.qualified alias.now) columns.now) }
{
    let mut qualified = List::new(alloc);
    for column in columns {
        qualified.push(under(alloc, alias, column)?)?;
    }
    Ok(qualified)
}

fn under(alloc: Global, alias: &Text, column: &ScopeColumn) -> Result<ScopeColumn, OutOfMemory>
    ensures { IfOk result (λ c. c ≡ rules.qualified alias.now column.now) }
{
    let mut qualifier = List::new(alloc);
    qualifier.push(alias.copy(alloc)?)?;
    Ok(ScopeColumn {
        qualifier,
        name: column.name.copy(alloc)?,
        id: column.id,
        kind: column.kind,
        nullable: column.nullable,
    })
}

/// One row for each value of the columns of these names, or of all columns. UnresolvedColumn and AmbiguousReference tell a name that no
/// column, or several, have.
#[tactic(auto, unfolding(crate::specs::Keeping::deduplicate_rule))]
pub fn deduplicate(
    alloc: Global,
    case_sensitive: bool,
    input: Found,
    all: bool,
    names: &[Text],
) -> Result<Found, ResolveStop>
    ensures ok { IfOk result (λ found. rules.deduplicate_rule case_sensitive input all names.now ≡ Ok found) }
    ensures refused { IfErr result (λ e. e ≢ no_memory → rules.deduplicate_rule case_sensitive input all names.now ≡ Err e) }
{
    let places = key_places(alloc, case_sensitive, input.columns.as_slice(), all, names)?;
    distinct_on(alloc, input, places)
}

fn distinct_on(alloc: Global, input: Found, columns_named: List<u32>) -> Result<Found, ResolveStop>
    ensures ok { IfOk result (λ found. found ≡ columns_of.over input (node.DistinctOn input.node columns_named)) }
    ensures refused { IfErr result (λ e. e ≡ no_memory) }
{
    let Found {
        node,
        columns,
        relations,
    } = input;
    Ok(Found {
        node: Node::DistinctOn {
            input: Boxed::new(alloc, node)?,
            columns: columns_named,
        },
        columns,
        relations,
    })
}

fn key_places(
    alloc: Global,
    case_sensitive: bool,
    columns: &[ScopeColumn],
    all: bool,
    names: &[Text],
) -> Result<List<u32>, ResolveStop>
    ensures ok { IfOk result (λ places. rules.key_places case_sensitive columns.now all names.now ≡ Ok places) }
    ensures refused { IfErr result (λ e. e ≢ no_memory → rules.key_places case_sensitive columns.now all names.now ≡ Err e) }
{
    if all || names.is_empty() {
        Ok(all_places(alloc, columns)?)
    } else {
        named_places(alloc, case_sensitive, columns, names)
    }
}

#[tactic(auto, using(crate::proofs::Numbered::number_steps))]
fn all_places(alloc: Global, columns: &[ScopeColumn]) -> Result<List<u32>, OutOfMemory>
    ensures { IfOk result (λ places. places ≡ columns_of.numbered rules.its_place columns.now) }
{
    let mut places = List::new(alloc);
    for (place, _) in columns.iter().enumerate() {
        places.push(short_place(place)?)?;
    }
    Ok(places)
}

#[tactic(auto, using(resolve_expressions::proofs::Gathering::gather_steps))]
fn named_places(
    alloc: Global,
    case_sensitive: bool,
    columns: &[ScopeColumn],
    names: &[Text],
) -> Result<List<u32>, ResolveStop>
    ensures ok { IfOk result (λ places. all_checked (map (rules.plain_place case_sensitive columns.now) names.now) ≡ Ok places) }
    ensures refused { IfErr result (λ e. e ≢ no_memory → all_checked (map (rules.plain_place case_sensitive columns.now) names.now) ≡ Err e) }
{
    let mut places = List::new(alloc);
    for name in names {
        match plain_place(alloc, case_sensitive, columns, name) {
            Ok(place) => places.push(short_place(place)?)?,
            Err(stop) => return Err(stop),
        }
    }
    Ok(places)
}

/// The place of the one column of a plain name, which is no identifier.
pub fn plain_place(
    alloc: Global,
    case_sensitive: bool,
    columns: &[ScopeColumn],
    name: &Text,
) -> Result<usize, ResolveStop>
    ensures ok { IfOk result (λ place. rules.plain_place case_sensitive columns.now name.now ≡ Ok place) }
    ensures refused { IfErr result (λ e. e ≢ no_memory → rules.plain_place case_sensitive columns.now name.now ≡ Err e) }
{
    let mut parts = List::new(alloc);
    parts.push(name.copy(alloc)?)?;
    named_place(
        alloc,
        case_sensitive,
        name.as_str(),
        parts.as_slice(),
        columns,
    )
}

/// A place as it stands in nodes; one from 2^32 on is answered as want of memory.
pub fn short_place(place: usize) -> Result<u32, OutOfMemory>
    ensures { IfOk result (λ p. p ≡ place) }
{
    u32::try_from(place).map_err(|_| OutOfMemory)
}
