ghost use Rattle.std.specs.Prelude.{◌≡◌, ◌≢◌, IfOk, IfErr, Ok, Err, nat_eq};
ghost use Rattle.plan_model.specs.declared.node.Node.TheVariants as node;
ghost use Rattle.resolve_names.specs.declared.error.ResolveStop.TheVariants.{OutOfMemory as no_memory};
ghost use Rattle.resolve_relations.specs.Columns as columns_of;
ghost use Rattle.resolve_relations.specs.Keeping as rules;

use crate::found::Found;
use cn_base::{Boxed, List};
use expression_messages::{Expr, SortOrder};
use plan_model::{Node, SortKey, TypedExpr};
use resolve_expressions::{Names, condition_of, sort_keys_of};
use resolve_names::ResolveStop;
use std::alloc::Global;

/// The rows of which a condition is true. Its errors are those of the condition, and DatatypeMismatch `filter` where it isn't boolean.
#[tactic(auto, unfolding(crate::specs::Keeping::filter_rule))]
pub fn filter(
    alloc: Global,
    case_sensitive: bool,
    input: Found,
    condition: &Expr,
) -> Result<Found, ResolveStop>
    ensures ok { IfOk result (λ found. rules.filter_rule nat_eq case_sensitive input condition.now ≡ Ok found) }
    ensures refused { IfErr result (λ e. e ≢ no_memory → rules.filter_rule nat_eq case_sensitive input condition.now ≡ Err e) }
{
    let names = Names {
        case_sensitive,
        columns: input.columns.as_slice(),
        relations: input.relations.as_slice(),
    };
    let test = condition_of(alloc, &names, "filter", condition)?;
    filtered(alloc, input, test)
}

fn filtered(alloc: Global, input: Found, test: TypedExpr) -> Result<Found, ResolveStop>
    ensures ok { IfOk result (λ found. found ≡ columns_of.over input (node.Filter input.node test)) }
    ensures refused { IfErr result (λ e. e ≡ no_memory) }
{
    let Found {
        node,
        columns,
        relations,
    } = input;
    Ok(Found {
        node: Node::Filter {
            input: Boxed::new(alloc, node)?,
            condition: test,
        },
        columns,
        relations,
    })
}

/// The rows in the order of the keys. Its errors are those of the keys, the first one first.
#[tactic(auto, unfolding(crate::specs::Keeping::sort_rule))]
pub fn sort(
    alloc: Global,
    case_sensitive: bool,
    input: Found,
    orders: &[SortOrder],
) -> Result<Found, ResolveStop>
    ensures ok { IfOk result (λ found. rules.sort_rule nat_eq case_sensitive input orders.now ≡ Ok found) }
    ensures refused { IfErr result (λ e. e ≢ no_memory → rules.sort_rule nat_eq case_sensitive input orders.now ≡ Err e) }
{
    let names = Names {
        case_sensitive,
        columns: input.columns.as_slice(),
        relations: input.relations.as_slice(),
    };
    let keys = sort_keys_of(alloc, &names, orders)?;
    sorted(alloc, input, keys)
}

fn sorted(alloc: Global, input: Found, keys: List<SortKey>) -> Result<Found, ResolveStop>
    ensures ok { IfOk result (λ found. found ≡ columns_of.over input (node.Sort input.node keys)) }
    ensures refused { IfErr result (λ e. e ≡ no_memory) }
{
    let Found {
        node,
        columns,
        relations,
    } = input;
    Ok(Found {
        node: Node::Sort {
            input: Boxed::new(alloc, node)?,
            keys,
        },
        columns,
        relations,
    })
}
