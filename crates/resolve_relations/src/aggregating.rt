ghost use Rattle.std.specs.Prelude.{◌≡◌, ◌≢◌, ◌++◌, IfOk, IfErr, OnOk, Ok, Err, nat_eq};
ghost use Rattle.std.specs.List.{list_any};
ghost use Rattle.plan_model.specs.NodeTypes.{kind_of as its_kind};
ghost use Rattle.resolve_names.specs.declared.error.ResolveStop.TheVariants.{OutOfMemory as no_memory};
ghost use Rattle.resolve_expressions.specs.Grouping.{has_aggregate as calls_aggregate};
ghost use Rattle.resolve_relations.specs.Columns as columns_of;
ghost use Rattle.resolve_relations.specs.Making as rules;

use crate::found::Found;
use crate::keeping::short_place;
use crate::made::{exprs_of, made_columns};
use crate::options::bad_option;
use crate::projecting::plain_projection;
use cn_base::{Boxed, Copied, List, OutOfMemory};
use expression_messages::Expr;
use plan_model::{AggregateCall, Node, TypedExpr};
use resolve_expressions::{Item, Names, grouped, has_aggregate, key_items};
use resolve_functions::kind_of;
use resolve_names::{ColumnList, ResolveStop};
use std::alloc::Global;

/// The values of expressions, a star as the columns that it means. With an aggregate call in any of them it is an aggregate without keys. Its
/// errors are those of the expressions in order, of an aggregate MissingAggregation behind the others of its item.
#[tactic(auto, unfolding(crate::specs::Making::project_rule))]
pub fn project(
    alloc: Global,
    case_sensitive: bool,
    base: u64,
    input: Found,
    exprs: &[Expr],
) -> Result<Found, ResolveStop>
    ensures ok { IfOk result (λ found. rules.project_rule nat_eq case_sensitive (columns_of.ids_from base) input exprs.now ≡ Ok found) }
    ensures refused { IfErr result (λ e. e ≢ no_memory → rules.project_rule nat_eq case_sensitive (columns_of.ids_from base) input exprs.now ≡ Err e) }
{
    if has_any_aggregate(exprs) {
        aggregated(
            alloc,
            case_sensitive,
            base,
            input,
            true,
            List::new(alloc),
            exprs,
        )
    } else {
        plain_projection(alloc, case_sensitive, base, input, exprs)
    }
}

fn has_any_aggregate(exprs: &[Expr]) -> bool
    ensures { result ≡ list_any calls_aggregate exprs.now }
{
    exprs.iter().any(|expr| has_aggregate(expr))
}

/// The values of the grouping expressions and then of the others, for each different value of the grouping expressions. Unsupported tells
/// another group type than 1; then the errors are those of the expressions in order, MissingAggregation behind the others of its item.
#[tactic(auto, unfolding(crate::specs::Making::aggregate_rule))]
pub fn aggregate(
    alloc: Global,
    case_sensitive: bool,
    base: u64,
    input: Found,
    group_type: i32,
    groupings: &[Expr],
    exprs: &[Expr],
) -> Result<Found, ResolveStop>
    ensures ok { IfOk result (λ found. rules.aggregate_rule nat_eq case_sensitive (columns_of.ids_from base) input group_type groupings.now exprs.now ≡ Ok found) }
    ensures refused { IfErr result (λ e. e ≢ no_memory → rules.aggregate_rule nat_eq case_sensitive (columns_of.ids_from base) input group_type groupings.now exprs.now ≡ Err e) }
{
    grouping_only(alloc, group_type)?;
    let names = Names {
        case_sensitive,
        columns: input.columns.as_slice(),
        relations: input.relations.as_slice(),
    };
    let keys = key_items(alloc, &names, groupings)?;
    aggregated(alloc, case_sensitive, base, input, false, keys, exprs)
}

fn grouping_only(alloc: Global, group_type: i32) -> Result<(), ResolveStop>
    ensures ok { OnOk result (rules.grouping_only group_type ≡ Ok tt) }
    ensures refused { IfErr result (λ e. e ≢ no_memory → rules.grouping_only group_type ≡ Err e) }
{
    if group_type != 1 {
        return Err(bad_option(alloc, group_type));
    }
    Ok(())
}

#[tactic(auto, unfolding(crate::specs::Making::aggregated))]
fn aggregated(
    alloc: Global,
    case_sensitive: bool,
    base: u64,
    input: Found,
    stars: bool,
    keys: List<Item>,
    exprs: &[Expr],
) -> Result<Found, ResolveStop>
    ensures ok { IfOk result (λ found. rules.aggregated nat_eq case_sensitive (columns_of.ids_from base) input stars keys exprs.now ≡ Ok found) }
    ensures refused { IfErr result (λ e. e ≢ no_memory → rules.aggregated nat_eq case_sensitive (columns_of.ids_from base) input stars keys exprs.now ≡ Err e) }
{
    let names = Names {
        case_sensitive,
        columns: input.columns.as_slice(),
        relations: input.relations.as_slice(),
    };
    let mut calls = List::new(alloc);
    let mut items = key_values(alloc, keys.as_slice())?;
    let keys = exprs_of(alloc, keys.as_slice())?;
    let more = grouped(alloc, &names, stars, keys.as_slice(), exprs, &mut calls)?;
    items.append(more)?;
    aggregation(alloc, base, input, keys, calls, items)
}

/// The keys' values, each as the column at its number.
#[tactic(auto, using(crate::proofs::Numbered::number_steps))]
fn key_values(alloc: Global, keys: &[Item]) -> Result<List<Item>, OutOfMemory>
    ensures { IfOk result (λ values. values ≡ columns_of.numbered rules.key_value keys.now) }
{
    let mut values = List::new(alloc);
    for (number, key) in keys.iter().enumerate() {
        let place = short_place(number)?;
        values.push(key_value(alloc, place, key)?)?;
    }
    Ok(values)
}

fn key_value(alloc: Global, place: u32, key: &Item) -> Result<Item, OutOfMemory>
    ensures { IfOk result (λ value. value ≡ rules.key_value place key.now) }
{
    Ok(Item {
        name: key.name.copy(alloc)?,
        expr: TypedExpr::Column {
            place,
            kind: kind_of(&key.expr),
        },
        source: key.source,
        nullable: key.nullable,
    })
}

/// The items over the groups of the keys, as columns.
fn aggregation(
    alloc: Global,
    base: u64,
    input: Found,
    keys: List<TypedExpr>,
    calls: List<AggregateCall>,
    items: List<Item>,
) -> Result<Found, ResolveStop>
    ensures ok { IfOk result (λ found. found ≡ rules.aggregation (columns_of.ids_from base) input keys calls items) }
    ensures refused { IfErr result (λ e. e ≡ no_memory) }
{
    let Found {
        node,
        columns,
        relations,
    } = input;
    let made = made_columns(alloc, base, columns.as_slice(), items.as_slice())?;
    let items = exprs_of(alloc, items.as_slice())?;
    Ok(Found {
        node: Node::Aggregate {
            input: Boxed::new(alloc, node)?,
            keys,
            calls,
            items,
        },
        columns: ColumnList::of(alloc, made)?,
        relations,
    })
}
