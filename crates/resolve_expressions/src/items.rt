ghost use Rattle.std.specs.Prelude.{◌≡◌, ◌≢◌, IfOk, IfErr, Ok, Err, nat_eq, slice_get};
ghost use Rattle.std.specs.Option.{option_copied};
ghost use Rattle.plan_model.specs.Truth as truth;
ghost use Rattle.resolve_names.specs.declared.error.ResolveStop.TheVariants.{OutOfMemory as no_memory};
ghost use Rattle.resolve_expressions.specs.Items as items;
ghost use Rattle.resolve_expressions.specs.Named as named;

use crate::titles::title_of;
use crate::typings::{is_count, meaningless, typed_over};
use crate::{Item, Names};
use cn_base::{Copied, List, Text};
use cn_types::Value;
use expression_messages::{Alias, Expr};
use plan_model::{AggregateCall, TypedExpr};
use resolve_names::{ErrorName, ResolveStop, ScopeColumn, analysis_stop};
use std::alloc::Global;

/// The column that an expression makes. The aggregate calls in it are pushed behind `calls`, where they are allowed. An alias gives its
/// name, and its expression is a column of its own; else the name is the expression's, and a bare attribute stays its column. Errors:
/// Unsupported `expression 6` for an alias with another number of names than one, those of `typed_over`, and DatatypeMismatch `null` for a
/// null without a type. After an error nothing is promised of `calls`.
#[tactic(auto, unfolding(crate::specs::Items::item_of))]
pub fn item_of(
    alloc: Global,
    names: &Names<'_>,
    expr: &Expr,
    allowed: bool,
    calls: &mut List<AggregateCall>,
) -> Result<Item, ResolveStop>
    ensures ok { IfOk result (λ item. named.item_in names.now expr.now allowed calls.old ≡ Ok (items.itemized item calls.new)) }
    ensures refused { IfErr result (λ e. e ≢ no_memory → named.item_in names.now expr.now allowed calls.old ≡ Err e) }
{
    match alias_of(expr) {
        Some(alias) => alias_item(alloc, names, alias, allowed, calls),
        None => titled_item(alloc, names, expr, allowed, calls),
    }
}

#[tactic(auto, unfolding(crate::specs::Items::alias_of), using(crate::proofs::ExprForms::forms))]
fn alias_of(expr: &Expr) -> Option<&Alias>
    ensures { option_copied result ≡ items.alias_of expr.now }
{
    match expr {
        Expr::Alias(alias) => Some(alias),
        Expr::Literal(_)
        | Expr::UnresolvedAttribute(_)
        | Expr::UnresolvedFunction(_)
        | Expr::UnresolvedStar(_)
        | Expr::Cast(_)
        | Expr::SortOrder(_)
        | Expr::Other(_) => None,
    }
}

/// The column of an alias.
pub(crate) fn alias_item(
    alloc: Global,
    names: &Names<'_>,
    alias: &Alias,
    allowed: bool,
    calls: &mut List<AggregateCall>,
) -> Result<Item, ResolveStop>
    ensures ok { IfOk result (λ item. named.alias_in names.now alias.now allowed calls.old ≡ Ok (items.itemized item calls.new)) }
    ensures refused { IfErr result (λ e. e ≢ no_memory → named.alias_in names.now alias.now allowed calls.old ≡ Err e) }
{
    let name = one_name(alloc, &alias.name)?;
    typed_item(alloc, names, name, false, alias.expr.get(), allowed, calls)
}

fn titled_item(
    alloc: Global,
    names: &Names<'_>,
    expr: &Expr,
    allowed: bool,
    calls: &mut List<AggregateCall>,
) -> Result<Item, ResolveStop>
    ensures ok { IfOk result (λ item. named.titled_in names.now expr.now allowed calls.old ≡ Ok (items.itemized item calls.new)) }
    ensures refused { IfErr result (λ e. e ≢ no_memory → named.titled_in names.now expr.now allowed calls.old ≡ Err e) }
{
    let name = title_of(alloc, names, expr)?;
    typed_item(alloc, names, name, true, expr, allowed, calls)
}

/// The one name of an alias.
fn one_name(alloc: Global, names: &List<Text>) -> Result<Text, ResolveStop>
    ensures ok { IfOk result (λ name. items.one_name names.now ≡ Ok name) }
    ensures refused { IfErr result (λ e. e ≢ no_memory → items.one_name names.now ≡ Err e) }
{
    match names.as_slice() {
        [name] => Ok(name.copy(alloc)?),
        _ => Err(meaningless(alloc, 6)),
    }
}

/// An expression under a name; `bare` says whether it stays the column that it is.
fn typed_item(
    alloc: Global,
    names: &Names<'_>,
    name: Text,
    bare: bool,
    expr: &Expr,
    allowed: bool,
    calls: &mut List<AggregateCall>,
) -> Result<Item, ResolveStop>
    ensures ok { IfOk result (λ item. named.typed_item_in names.now name bare expr.now allowed calls.old ≡ Ok (items.itemized item calls.new)) }
    ensures refused { IfErr result (λ e. e ≢ no_memory → named.typed_item_in names.now name bare expr.now allowed calls.old ≡ Err e) }
{
    let Some(typed) = typed_over(alloc, names, expr, allowed, calls)? else {
        return Err(analysis_stop(alloc, ErrorName::DatatypeMismatch, "null"));
    };
    Ok(Item {
        name,
        source: source_of(names.columns, bare, &typed),
        nullable: is_nullable(names.columns, calls, &typed),
        expr: typed,
    })
}

fn source_of(columns: &[ScopeColumn], bare: bool, expr: &TypedExpr) -> Option<u32>
    ensures { result ≡ items.source_of bare columns.now expr.now }
{
    if !bare {
        return None;
    }
    bare_column(columns.len(), expr)
}

/// The column that an expression alone is, where it is one of so many columns.
#[tactic(auto, using(crate::proofs::ExprForms::typed_forms))]
fn bare_column(width: usize, expr: &TypedExpr) -> Option<u32>
    ensures { result ≡ items.bare_column width expr.now }
{
    match expr {
        TypedExpr::Column { place, .. } => column_within(width, *place),
        TypedExpr::Literal { .. } | TypedExpr::Call { .. } | TypedExpr::Cast { .. } => None,
    }
}

fn column_within(width: usize, place: u32) -> Option<u32>
    ensures { result ≡ items.column_within width place }
{
    if (place as usize) < width {
        Some(place)
    } else {
        None
    }
}

/// Whether a value may be null: a column where it says so, a literal where it is null, a count never, and every other expression.
#[tactic(auto, unfolding(crate::specs::Items::is_nullable), using(crate::proofs::ExprForms::typed_forms))]
fn is_nullable(columns: &[ScopeColumn], calls: &List<AggregateCall>, expr: &TypedExpr) -> bool
    ensures { result ≡ items.is_nullable columns.now calls.now expr.now }
{
    match expr {
        TypedExpr::Column { place, .. } => column_is_nullable(columns, calls, *place as usize),
        TypedExpr::Literal { value, .. } => !is_present(value),
        TypedExpr::Call { .. } | TypedExpr::Cast { .. } => true,
    }
}

fn is_present(value: &Value) -> bool
    ensures { result ≡ truth.is_present value.now }
{
    !matches!(value, Value::Null)
}

fn column_is_nullable(columns: &[ScopeColumn], calls: &List<AggregateCall>, place: usize) -> bool
    ensures { result ≡ items.column_is_nullable columns.now calls.now place (slice_get columns.now place) }
{
    match columns.get(place) {
        Some(column) => column.nullable,
        None => call_is_nullable(calls.get(place.saturating_sub(columns.len()))),
    }
}

fn call_is_nullable(call: Option<&AggregateCall>) -> bool
    ensures { result ≡ items.call_is_nullable (option_copied call.entry) }
{
    match call {
        Some(call) => !is_count(call.function),
        None => true,
    }
}
