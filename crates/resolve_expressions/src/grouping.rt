ghost use Rattle.std.specs.Prelude.{◌≡◌, ◌≢◌, IfOk, IfErr, Ok, Err, map, position, slice_get, length};
ghost use Rattle.std.specs.List.{list_any};
ghost use Rattle.std.specs.Option.{option_copied};
ghost use Rattle.resolve_functions.specs.FunctionNames.{function_named as function_named_of};
ghost use Rattle.resolve_names.specs.declared.error.ResolveStop.TheVariants.{OutOfMemory as no_memory};
ghost use Rattle.resolve_expressions.specs.Grouping as grouping;
ghost use Rattle.resolve_expressions.specs.Same as same;

use crate::Item;
use crate::same::same_expr;
use cn_base::{Boxed, Copied, List};
use cn_types::DataType;
use expression_messages::{Expr, UnresolvedFunction};
use plan_model::TypedExpr;
use resolve_functions::{function_named, is_aggregate, kind_of};
use resolve_names::{ErrorName, ResolveStop, ScopeColumn, analysis_stop};
use std::alloc::Global;

/// Whether an aggregate function is called anywhere in the expression. It takes no memory.
#[cycle(aggregates)]
#[tactic(auto, using(crate::proofs::GroupForms::aggregate_forms))]
pub fn has_aggregate(expr: &Expr) -> bool
    ensures { result ≡ grouping.has_aggregate expr.now }
{
    match expr {
        Expr::UnresolvedFunction(call) => calls_aggregate(call),
        Expr::Alias(alias) => has_aggregate(alias.expr.get()),
        Expr::Cast(cast) => has_aggregate(cast.expr.get()),
        Expr::SortOrder(order) => has_aggregate(order.child.get()),
        Expr::Literal(_)
        | Expr::UnresolvedAttribute(_)
        | Expr::UnresolvedStar(_)
        | Expr::Other(_) => false,
    }
}

#[cycle(aggregates)]
fn calls_aggregate(call: &UnresolvedFunction) -> bool
    ensures { result ≡ grouping.call_has_aggregate grouping.has_aggregate call.now }
{
    if is_aggregate_name(call.function_name.as_str()) {
        return true;
    }
    any_aggregate(call)
}

fn is_aggregate_name(name: &str) -> bool
    ensures { result ≡ grouping.is_aggregate_name (function_named_of name.now) }
{
    match function_named(name) {
        Some(function) => is_aggregate(function),
        None => false,
    }
}

/// Whether an aggregate function is called in one of the arguments.
#[cycle(aggregates)]
#[tactic(auto, using(crate::proofs::Gathering::any_steps))]
fn any_aggregate(call: &UnresolvedFunction) -> bool
    ensures { result ≡ list_any grouping.has_aggregate call.now.arguments }
{
    for argument in call.arguments.as_slice() {
        if has_aggregate(argument) {
            return true;
        }
    }
    false
}

/// An expression over the keys' values and the calls' values behind them: what is the same as a key is the key's value. MissingAggregation
/// tells the first column of the input that is left. A place from 2^32 on is answered as want of memory.
#[cycle(regrouped)]
#[tactic(auto, using(crate::proofs::GroupForms::regrouped_forms))]
pub fn regrouped(
    alloc: Global,
    expr: &TypedExpr,
    columns: &[ScopeColumn],
    keys: &[TypedExpr],
) -> Result<TypedExpr, ResolveStop>
    ensures ok { IfOk result (λ regrouped. grouping.regrouped same.same_expr columns.now keys.now expr.now ≡ Ok regrouped) }
    ensures refused { IfErr result (λ e. e ≢ no_memory → grouping.regrouped same.same_expr columns.now keys.now expr.now ≡ Err e) }
{
    if let Some(place) = place_of(keys, expr) {
        return column(place, kind_of(expr));
    }
    match expr {
        TypedExpr::Column { place, kind } => {
            ungrouped(alloc, columns, keys.len(), *place as usize, *kind)
        }
        TypedExpr::Literal { value, kind } => Ok(TypedExpr::Literal {
            value: value.copy(alloc)?,
            kind: *kind,
        }),
        TypedExpr::Call {
            function,
            arguments,
            kind,
        } => {
            let arguments = all_regrouped(alloc, arguments, columns, keys)?;
            Ok(TypedExpr::Call {
                function: *function,
                arguments,
                kind: *kind,
            })
        }
        TypedExpr::Cast { child, kind } => {
            let child = regrouped(alloc, child.get(), columns, keys)?;
            Ok(TypedExpr::Cast {
                child: Boxed::new(alloc, child)?,
                kind: *kind,
            })
        }
    }
}

#[cycle(regrouped)]
#[tactic(auto, using(crate::proofs::Gathering::gather_steps))]
fn all_regrouped(
    alloc: Global,
    exprs: &List<TypedExpr>,
    columns: &[ScopeColumn],
    keys: &[TypedExpr],
) -> Result<List<TypedExpr>, ResolveStop>
    ensures ok { IfOk result (λ regrouped. grouping.all_checked (map (grouping.regrouped same.same_expr columns.now keys.now) exprs.now) ≡ Ok regrouped) }
    ensures refused { IfErr result (λ e. e ≢ no_memory → grouping.all_checked (map (grouping.regrouped same.same_expr columns.now keys.now) exprs.now) ≡ Err e) }
{
    let mut made = List::new(alloc);
    for expr in exprs.as_slice() {
        match regrouped(alloc, expr, columns, keys) {
            Ok(expr) => made.push(expr)?,
            Err(stop) => return Err(stop),
        }
    }
    Ok(made)
}

/// The place of the first key that is the same.
fn place_of(keys: &[TypedExpr], expr: &TypedExpr) -> Option<usize>
    ensures { result ≡ position (same.same_expr expr.now) keys.now }
{
    keys.iter().position(|key| same_expr(expr, key))
}

/// A column at a place.
fn column(place: usize, kind: DataType) -> Result<TypedExpr, ResolveStop>
    ensures ok { IfOk result (λ expr. expr ≡ TypedExpr.Column place kind) }
    ensures refused { IfErr result (λ e. e ≡ no_memory) }
{
    match u32::try_from(place) {
        Ok(place) => Ok(TypedExpr::Column { place, kind }),
        Err(_) => Err(ResolveStop::OutOfMemory),
    }
}

/// A column of the input is missing; a call's value stands behind the keys'.
fn ungrouped(
    alloc: Global,
    columns: &[ScopeColumn],
    keys: usize,
    place: usize,
    kind: DataType,
) -> Result<TypedExpr, ResolveStop>
    ensures ok { IfOk result (λ expr. grouping.ungrouped (slice_get columns.now place) (length columns.now) keys place kind ≡ Ok expr) }
    ensures refused { IfErr result (λ e. e ≢ no_memory → grouping.ungrouped (slice_get columns.now place) (length columns.now) keys place kind ≡ Err e) }
{
    if let Some(own) = columns.get(place) {
        return Err(analysis_stop(alloc, ErrorName::MissingAggregation, own.name.as_str()));
    }
    match keys.checked_add(place.saturating_sub(columns.len())) {
        Some(behind) => column(behind, kind),
        None => Err(ResolveStop::OutOfMemory),
    }
}

/// The item over these values. It keeps its name, its column and whether it may be null.
pub fn regrouped_item(
    alloc: Global,
    columns: &[ScopeColumn],
    keys: &[TypedExpr],
    item: Item,
) -> Result<Item, ResolveStop>
    ensures ok { IfOk result (λ made. grouping.regrouped_item same.same_expr columns.now keys.now item ≡ Ok made) }
    ensures refused { IfErr result (λ e. e ≢ no_memory → grouping.regrouped_item same.same_expr columns.now keys.now item ≡ Err e) }
{
    let expr = regrouped(alloc, &item.expr, columns, keys)?;
    Ok(Item {
        name: item.name,
        expr,
        source: item.source,
        nullable: item.nullable,
    })
}
