ghost use Rattle.std.specs.Prelude.{◌≡◌, ◌≢◌, ◌++◌, [], map, IfOk, IfErr, Ok, Err, nat_eq};
ghost use Rattle.std.specs.List.{list_any};
ghost use Rattle.plan_model.specs.declared.node.Node.TheVariants as node;
ghost use Rattle.resolve_names.specs.declared.error.ResolveStop.TheVariants.{OutOfMemory as no_memory};
ghost use Rattle.resolve_expressions.specs.Grouping.{has_aggregate as calls_aggregate};
ghost use Rattle.resolve_expressions.specs.Outputs as outputs;
ghost use Rattle.resolve_relations.specs.Columns as columns_of;
ghost use Rattle.resolve_relations.specs.Making as rules;

use crate::found::Found;
use crate::made::{exprs_of, made_columns};
use cn_base::{Boxed, List};
use expression_messages::Expr;
use plan_model::Node;
use resolve_expressions::{Item, Names, projected};
use resolve_names::{ColumnList, ResolveStop};
use std::alloc::Global;

#[tactic(auto, unfolding(crate::specs::Making::plain_projection))]
pub(crate) fn plain_projection(
    alloc: Global,
    case_sensitive: bool,
    base: u64,
    input: Found,
    exprs: &[Expr],
) -> Result<Found, ResolveStop>
    ensures ok { IfOk result (λ found. rules.plain_projection nat_eq case_sensitive (columns_of.ids_from base) input exprs.now ≡ Ok found) }
    ensures refused { IfErr result (λ e. e ≢ no_memory → rules.plain_projection nat_eq case_sensitive (columns_of.ids_from base) input exprs.now ≡ Err e) }
{
    let names = Names {
        case_sensitive,
        columns: input.columns.as_slice(),
        relations: input.relations.as_slice(),
    };
    let items = projected(alloc, &names, exprs)?;
    projection(alloc, base, input, items)
}

/// The items over the input, as columns.
pub fn projection(
    alloc: Global,
    base: u64,
    input: Found,
    items: List<Item>,
) -> Result<Found, ResolveStop>
    ensures ok { IfOk result (λ found. found ≡ columns_of.projection (columns_of.ids_from base) input items) }
    ensures refused { IfErr result (λ e. e ≡ no_memory) }
{
    let Found {
        node,
        columns,
        relations,
    } = input;
    let made = made_columns(alloc, base, columns.as_slice(), items.as_slice())?;
    let exprs = exprs_of(alloc, items.as_slice())?;
    Ok(Found {
        node: Node::Project {
            input: Boxed::new(alloc, node)?,
            items: exprs,
        },
        columns: ColumnList::of(alloc, made)?,
        relations,
    })
}
