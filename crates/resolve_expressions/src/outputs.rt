ghost use Rattle.std.specs.Prelude.{◌≡◌, ◌≢◌, List as Seq, IfOk, IfErr, Ok, Err, None};
ghost use Rattle.std.specs.Option.{option_copied};
ghost use Rattle.plan_model.specs.FunctionTypes as types;
ghost use Rattle.resolve_names.specs.declared.error.ResolveStop.TheVariants.{OutOfMemory as no_memory};
ghost use Rattle.resolve_expressions.specs.Named as named;
ghost use Rattle.resolve_expressions.specs.Outputs as outputs;

use crate::grouping::regrouped_item;
use crate::items::{alias_item, item_of};
use crate::stars::star_items;
use crate::typings::typed_over;
use crate::{Item, Names};
use cn_base::{Copied, List};
use cn_types::DataType;
use expression_messages::{Alias, Expr, SortOrder, UnresolvedStar};
use plan_model::{AggregateCall, SortKey, TypedExpr};
use resolve_functions::kind_of;
use resolve_names::{ErrorName, ResolveStop, ScopeColumn, analysis_stop};
use std::alloc::Global;

/// An expression that has a type and no aggregate call. DatatypeMismatch `null` tells a null without a type.
#[tactic(auto, unfolding(crate::specs::Outputs::value_of))]
pub fn value_of(alloc: Global, names: &Names<'_>, expr: &Expr) -> Result<TypedExpr, ResolveStop>
    ensures ok { IfOk result (λ typed. named.value_in names.now expr.now ≡ Ok typed) }
    ensures refused { IfErr result (λ e. e ≢ no_memory → named.value_in names.now expr.now ≡ Err e) }
{
    let mut calls = List::new(alloc);
    match typed_over(alloc, names, expr, false, &mut calls)? {
        Some(typed) => Ok(typed),
        None => Err(analysis_stop(alloc, ErrorName::DatatypeMismatch, "null")),
    }
}

/// A condition: a value that is boolean. DatatypeMismatch tells `what` where it has another type.
#[tactic(auto, unfolding(crate::specs::Outputs::condition_of))]
pub fn condition_of(
    alloc: Global,
    names: &Names<'_>,
    what: &str,
    expr: &Expr,
) -> Result<TypedExpr, ResolveStop>
    ensures ok { IfOk result (λ typed. named.condition_in names.now what.now expr.now ≡ Ok typed) }
    ensures refused { IfErr result (λ e. e ≢ no_memory → named.condition_in names.now what.now expr.now ≡ Err e) }
{
    let typed = value_of(alloc, names, expr)?;
    if !is_boolean(kind_of(&typed)) {
        return Err(analysis_stop(alloc, ErrorName::DatatypeMismatch, what));
    }
    Ok(typed)
}

fn is_boolean(kind: DataType) -> bool
    ensures { result ≡ types.same_kind DataType.Boolean kind }
{
    matches!(kind, DataType::Boolean)
}

/// The keys of a sort.
#[tactic(auto, unfolding(crate::specs::Outputs::sort_keys_of), using(crate::proofs::Gathering::gather_steps))]
pub fn sort_keys_of(
    alloc: Global,
    names: &Names<'_>,
    orders: &[SortOrder],
) -> Result<List<SortKey>, ResolveStop>
    ensures ok { IfOk result (λ keys. named.sort_keys_in names.now orders.now ≡ Ok keys) }
    ensures refused { IfErr result (λ e. e ≢ no_memory → named.sort_keys_in names.now orders.now ≡ Err e) }
{
    let mut keys = List::new(alloc);
    for order in orders {
        match sort_key_of(alloc, names, order) {
            Ok(key) => keys.push(key)?,
            Err(stop) => return Err(stop),
        }
    }
    Ok(keys)
}

#[tactic(auto, unfolding(crate::specs::Outputs::sort_key_of))]
fn sort_key_of(alloc: Global, names: &Names<'_>, order: &SortOrder) -> Result<SortKey, ResolveStop>
    ensures ok { IfOk result (λ key. named.sort_key_in names.now order.now ≡ Ok key) }
    ensures refused { IfErr result (λ e. e ≢ no_memory → named.sort_key_in names.now order.now ≡ Err e) }
{
    let expr = value_of(alloc, names, order.child.get())?;
    Ok(SortKey {
        expr,
        descending: is_descending(order.direction),
        nulls_last: has_nulls_last(order.direction, order.null_ordering),
    })
}

fn is_descending(direction: i32) -> bool
    ensures { result ≡ outputs.is_descending direction }
{
    direction == 2
}

/// Ascending keys have nulls first and descending ones last, unless it is said.
fn has_nulls_last(direction: i32, ordering: i32) -> bool
    ensures { result ≡ outputs.has_nulls_last direction ordering }
{
    if ordering == 1 {
        return false;
    }
    if ordering == 2 {
        return true;
    }
    is_descending(direction)
}

/// The columns of a projection without aggregate calls: a star is the columns that it means.
#[tactic(auto, using(crate::proofs::Gathering::project_steps))]
pub fn projected(
    alloc: Global,
    names: &Names<'_>,
    exprs: &[Expr],
) -> Result<List<Item>, ResolveStop>
    ensures ok { IfOk result (λ items. named.projected_in names.now exprs.now ≡ Ok items) }
    ensures refused { IfErr result (λ e. e ≢ no_memory → named.projected_in names.now exprs.now ≡ Err e) }
{
    let mut items = List::new(alloc);
    for expr in exprs {
        match projected_one(alloc, names, expr) {
            Ok(more) => items.append(more)?,
            Err(stop) => return Err(stop),
        }
    }
    Ok(items)
}

fn projected_one(alloc: Global, names: &Names<'_>, expr: &Expr) -> Result<List<Item>, ResolveStop>
    ensures ok { IfOk result (λ items. named.projected_by_in names.now (outputs.star_of expr.now) expr.now ≡ Ok items) }
    ensures refused { IfErr result (λ e. e ≢ no_memory → named.projected_by_in names.now (outputs.star_of expr.now) expr.now ≡ Err e) }
{
    match star_of(expr) {
        Some(star) => star_items(alloc, names, star),
        None => one_item(alloc, names, expr),
    }
}

fn one_item(alloc: Global, names: &Names<'_>, expr: &Expr) -> Result<List<Item>, ResolveStop>
    ensures ok { IfOk result (λ items. named.projected_by_in names.now None expr.now ≡ Ok items) }
    ensures refused { IfErr result (λ e. e ≢ no_memory → named.projected_by_in names.now None expr.now ≡ Err e) }
{
    let item = plain_item(alloc, names, expr)?;
    let mut items = List::new(alloc);
    items.push(item)?;
    Ok(items)
}

/// The star that an expression is.
#[tactic(auto, unfolding(crate::specs::Outputs::star_of), using(crate::proofs::ExprForms::forms))]
pub(crate) fn star_of(expr: &Expr) -> Option<&UnresolvedStar>
    ensures { option_copied result ≡ outputs.star_of expr.now }
{
    match expr {
        Expr::UnresolvedStar(star) => Some(star),
        Expr::Literal(_)
        | Expr::UnresolvedAttribute(_)
        | Expr::UnresolvedFunction(_)
        | Expr::Alias(_)
        | Expr::Cast(_)
        | Expr::SortOrder(_)
        | Expr::Other(_) => None,
    }
}

/// The column of an expression without aggregate calls.
#[tactic(auto, unfolding(crate::specs::Outputs::plain_item))]
fn plain_item(alloc: Global, names: &Names<'_>, expr: &Expr) -> Result<Item, ResolveStop>
    ensures ok { IfOk result (λ item. named.plain_item_in names.now expr.now ≡ Ok item) }
    ensures refused { IfErr result (λ e. e ≢ no_memory → named.plain_item_in names.now expr.now ≡ Err e) }
{
    let mut calls = List::new(alloc);
    item_of(alloc, names, expr, false, &mut calls)
}

/// The expressions that an aggregate groups by.
#[tactic(auto, unfolding(crate::specs::Outputs::key_items), using(crate::proofs::Gathering::gather_steps))]
pub fn key_items(
    alloc: Global,
    names: &Names<'_>,
    exprs: &[Expr],
) -> Result<List<Item>, ResolveStop>
    ensures ok { IfOk result (λ items. named.key_items_in names.now exprs.now ≡ Ok items) }
    ensures refused { IfErr result (λ e. e ≢ no_memory → named.key_items_in names.now exprs.now ≡ Err e) }
{
    let mut items = List::new(alloc);
    for expr in exprs {
        match plain_item(alloc, names, expr) {
            Ok(item) => items.push(item)?,
            Err(stop) => return Err(stop),
        }
    }
    Ok(items)
}

/// The aliases among the columns that are added.
#[tactic(auto, unfolding(crate::specs::Outputs::added_items), using(crate::proofs::Gathering::gather_steps))]
pub fn added_items(
    alloc: Global,
    names: &Names<'_>,
    aliases: &[Alias],
) -> Result<List<Item>, ResolveStop>
    ensures ok { IfOk result (λ items. named.added_items_in names.now aliases.now ≡ Ok items) }
    ensures refused { IfErr result (λ e. e ≢ no_memory → named.added_items_in names.now aliases.now ≡ Err e) }
{
    let mut items = List::new(alloc);
    for alias in aliases {
        match added_item(alloc, names, alias) {
            Ok(item) => items.push(item)?,
            Err(stop) => return Err(stop),
        }
    }
    Ok(items)
}

#[tactic(auto, unfolding(crate::specs::Outputs::added_item))]
fn added_item(alloc: Global, names: &Names<'_>, alias: &Alias) -> Result<Item, ResolveStop>
    ensures ok { IfOk result (λ item. named.added_item_in names.now alias.now ≡ Ok item) }
    ensures refused { IfErr result (λ e. e ≢ no_memory → named.added_item_in names.now alias.now ≡ Err e) }
{
    let mut calls = List::new(alloc);
    alias_item(alloc, names, alias, false, &mut calls)
}

/// The items of an aggregate with these keys, over the keys' values and behind them the calls' values. The aggregate calls are pushed behind
/// `calls`. A star is the columns that it means where `stars` says so. After an error nothing is promised of `calls`.
#[tactic(auto, using(crate::proofs::Groups::group_steps))]
pub fn grouped(
    alloc: Global,
    names: &Names<'_>,
    stars: bool,
    keys: &[TypedExpr],
    exprs: &[Expr],
    calls: &mut List<AggregateCall>,
) -> Result<List<Item>, ResolveStop>
    ensures ok { IfOk result (λ items. named.grouped_in names.now stars keys.now exprs.now calls.old ≡ Ok (outputs.group items calls.new)) }
    ensures refused { IfErr result (λ e. e ≢ no_memory → named.grouped_in names.now stars keys.now exprs.now calls.old ≡ Err e) }
{
    let mut items = List::new(alloc);
    for expr in exprs {
        match grouped_one(alloc, names, stars, keys, expr, calls) {
            Ok(more) => items.append(more)?,
            Err(stop) => return Err(stop),
        }
    }
    Ok(items)
}

fn grouped_one(
    alloc: Global,
    names: &Names<'_>,
    stars: bool,
    keys: &[TypedExpr],
    expr: &Expr,
    calls: &mut List<AggregateCall>,
) -> Result<List<Item>, ResolveStop>
    ensures ok { IfOk result (λ items. named.grouped_by_in names.now (outputs.star_meant stars expr.now) keys.now expr.now calls.old ≡ Ok (outputs.group items calls.new)) }
    ensures refused { IfErr result (λ e. e ≢ no_memory → named.grouped_by_in names.now (outputs.star_meant stars expr.now) keys.now expr.now calls.old ≡ Err e) }
{
    match star_meant(stars, expr) {
        Some(star) => grouped_star(alloc, names, keys, star),
        None => grouped_item(alloc, names, keys, expr, calls),
    }
}

fn star_meant(stars: bool, expr: &Expr) -> Option<&UnresolvedStar>
    ensures { option_copied result ≡ outputs.star_meant stars expr.now }
{
    if !stars {
        return None;
    }
    star_of(expr)
}

#[tactic(auto, unfolding(crate::specs::Outputs::grouped_star))]
fn grouped_star(
    alloc: Global,
    names: &Names<'_>,
    keys: &[TypedExpr],
    star: &UnresolvedStar,
) -> Result<List<Item>, ResolveStop>
    ensures ok { IfOk result (λ items. (calls : Seq AggregateCall) → named.grouped_star_in names.now keys.now star.now calls ≡ Ok (outputs.group items calls)) }
    ensures refused { IfErr result (λ e. e ≢ no_memory → (calls : Seq AggregateCall) → named.grouped_star_in names.now keys.now star.now calls ≡ Err e) }
{
    let items = star_items(alloc, names, star)?;
    regrouped_items(alloc, names.columns, keys, items.as_slice())
}

#[tactic(auto, unfolding(crate::specs::Outputs::grouped_item))]
fn grouped_item(
    alloc: Global,
    names: &Names<'_>,
    keys: &[TypedExpr],
    expr: &Expr,
    calls: &mut List<AggregateCall>,
) -> Result<List<Item>, ResolveStop>
    ensures ok { IfOk result (λ items. named.grouped_item_in names.now keys.now expr.now calls.old ≡ Ok (outputs.group items calls.new)) }
    ensures refused { IfErr result (λ e. e ≢ no_memory → named.grouped_item_in names.now keys.now expr.now calls.old ≡ Err e) }
{
    let item = item_of(alloc, names, expr, true, calls)?;
    let item = regrouped_item(alloc, names.columns, keys, item)?;
    let mut items = List::new(alloc);
    items.push(item)?;
    Ok(items)
}

#[tactic(auto, using(crate::proofs::Gathering::gather_steps))]
fn regrouped_items(
    alloc: Global,
    columns: &[ScopeColumn],
    keys: &[TypedExpr],
    items: &[Item],
) -> Result<List<Item>, ResolveStop>
    ensures ok { IfOk result (λ made. outputs.regrouped_items columns.now keys.now items.now ≡ Ok made) }
    ensures refused { IfErr result (λ e. e ≢ no_memory → outputs.regrouped_items columns.now keys.now items.now ≡ Err e) }
{
    let mut made = List::new(alloc);
    for item in items {
        match regrouped_item(alloc, columns, keys, item.copy(alloc)?) {
            Ok(item) => made.push(item)?,
            Err(stop) => return Err(stop),
        }
    }
    Ok(made)
}
