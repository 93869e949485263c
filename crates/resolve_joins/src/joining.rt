ghost use Rattle.std.specs.Prelude.{◌≡◌, ◌≢◌, ◌++◌, ◌==◌, true, not, if◌then◌else◌, pos, nat_eq, length, codes, Some, IfOk, IfErr, OnOk, Ok, Err};
ghost use Rattle.plan_model.specs.declared.node.Node.TheVariants as node;
ghost use Rattle.resolve_names.specs.declared.error.ResolveStop.TheVariants.{OutOfMemory as no_memory};
ghost use Rattle.resolve_names.specs.Checks.{or_refused};
ghost use Rattle.resolve_types.specs.Calls.{unless};
ghost use Rattle.resolve_expressions.specs.Outputs as outputs;
ghost use Rattle.resolve_relations.specs.Columns as columns_of;
ghost use Rattle.resolve_relations.specs.Making as making;
ghost use Rattle.resolve_joins.specs.Joins as rules;
ghost use Rattle.resolve_joins.specs.Keys as keys_of;

use crate::keyed_parts::{KeyedParts, keyed_parts};
use crate::keys::{KeyPair, key_pairs};
use crate::kinds::{clash, kind_numbered, kind_without};
use crate::sides::{both_columns, both_relations, joined, joined_with};
use cn_base::Text;
use expression_messages::Expr;
use plan_model::{JoinKind, TypedExpr};
use resolve_expressions::{Names, condition_of};
use resolve_names::ResolveStop;
use resolve_relations::{Found, bad_option, projection};
use std::alloc::Global;

/// The pairs of the rows of two relations, by a condition over both or by keys, which are columns of the same names. The columns are the
/// left's and then the right's; of a semi and an anti join the left's alone. Keys come first, once, and then the other columns. The first of
/// these errors decides: Unsupported for a join type without a meaning; Unsupported `option 0` for keys beside a condition, or either in a
/// cross join; those of the condition, DatatypeMismatch `join` where it isn't boolean; of each key UnresolvedColumn and AmbiguousReference on
/// the left and then on the right, and DatatypeMismatch `join`; TooManyColumns of a join by keys.
#[tactic(auto, unfolding(crate::specs::Joins::join_rule))]
pub fn join(
    alloc: Global,
    case_sensitive: bool,
    base: u64,
    left: Found,
    right: Found,
    join_type: i32,
    condition: &Option<Expr>,
    using_columns: &[Text],
) -> Result<Found, ResolveStop>
    ensures ok { IfOk result (λ found. rules.join_rule nat_eq case_sensitive (columns_of.ids_from base) left right join_type condition.now using_columns.now ≡ Ok found) }
    ensures refused { IfErr result (λ e. e ≢ no_memory → rules.join_rule nat_eq case_sensitive (columns_of.ids_from base) left right join_type condition.now using_columns.now ≡ Err e) }
{
    let kind = join_kind(alloc, join_type)?;
    no_clash(alloc, kind, is_there(condition), is_keyed(using_columns))?;
    matched(
        alloc,
        case_sensitive,
        base,
        kind,
        left,
        right,
        condition,
        using_columns,
    )
}

fn is_there(condition: &Option<Expr>) -> bool
    ensures { result ≡ rules.is_there condition.now }
{
    condition.is_some()
}

fn is_keyed(names: &[Text]) -> bool
    ensures { result ≡ not (length names.now == 0) }
{
    !names.is_empty()
}

fn matched(
    alloc: Global,
    case_sensitive: bool,
    base: u64,
    kind: JoinKind,
    left: Found,
    right: Found,
    condition: &Option<Expr>,
    names: &[Text],
) -> Result<Found, ResolveStop>
    ensures ok { IfOk result (λ found. (if length names.now == 0 then rules.on_rule nat_eq case_sensitive kind left right condition.now else rules.using_rule nat_eq case_sensitive (columns_of.ids_from base) kind left right names.now) ≡ Ok found) }
    ensures refused { IfErr result (λ e. e ≢ no_memory → (if length names.now == 0 then rules.on_rule nat_eq case_sensitive kind left right condition.now else rules.using_rule nat_eq case_sensitive (columns_of.ids_from base) kind left right names.now) ≡ Err e) }
{
    if names.is_empty() {
        on_condition(alloc, case_sensitive, kind, left, right, condition)
    } else {
        on_keys(alloc, case_sensitive, base, kind, left, right, names)
    }
}

fn join_kind(alloc: Global, number: i32) -> Result<JoinKind, ResolveStop>
    ensures ok { IfOk result (λ kind. or_refused (making.bad_option number) (rules.kind_numbered number) ≡ Ok kind) }
    ensures refused { IfErr result (λ e. e ≢ no_memory → or_refused {A = JoinKind} (making.bad_option number) (rules.kind_numbered number) ≡ Err e) }
{
    match kind_numbered(number) {
        Some(kind) => Ok(kind),
        None => Err(bad_option(alloc, number)),
    }
}

fn no_clash(
    alloc: Global,
    kind: JoinKind,
    conditioned: bool,
    keyed: bool,
) -> Result<(), ResolveStop>
    ensures ok { OnOk result (unless (rules.clash kind conditioned keyed) (making.bad_option (pos 0)) ≡ Ok tt) }
    ensures refused { IfErr result (λ e. e ≢ no_memory → unless (rules.clash kind conditioned keyed) (making.bad_option (pos 0)) ≡ Err e) }
{
    if clash(kind, conditioned, keyed) {
        return Err(bad_option(alloc, 0));
    }
    Ok(())
}

/// A join with a condition, or without one.
#[tactic(auto, unfolding(crate::specs::Joins::on_rule))]
fn on_condition(
    alloc: Global,
    case_sensitive: bool,
    kind: JoinKind,
    left: Found,
    right: Found,
    condition: &Option<Expr>,
) -> Result<Found, ResolveStop>
    ensures ok { IfOk result (λ found. rules.on_rule nat_eq case_sensitive kind left right condition.now ≡ Ok found) }
    ensures refused { IfErr result (λ e. e ≢ no_memory → rules.on_rule nat_eq case_sensitive kind left right condition.now ≡ Err e) }
{
    match condition {
        Some(condition) => conditioned(alloc, case_sensitive, kind, left, right, condition),
        None => joined(alloc, kind_without(kind), left, right, None),
    }
}

#[tactic(auto, unfolding(crate::specs::Joins::on_rule))]
fn conditioned(
    alloc: Global,
    case_sensitive: bool,
    kind: JoinKind,
    left: Found,
    right: Found,
    condition: &Expr,
) -> Result<Found, ResolveStop>
    ensures ok { IfOk result (λ found. rules.on_rule nat_eq case_sensitive kind left right (Some condition.now) ≡ Ok found) }
    ensures refused { IfErr result (λ e. e ≢ no_memory → rules.on_rule nat_eq case_sensitive kind left right (Some condition.now) ≡ Err e) }
{
    let test = join_test(alloc, case_sensitive, &left, &right, condition)?;
    joined(alloc, kind, left, right, Some(test))
}

/// The condition over the columns of both relations.
fn join_test(
    alloc: Global,
    case_sensitive: bool,
    left: &Found,
    right: &Found,
    condition: &Expr,
) -> Result<TypedExpr, ResolveStop>
    ensures ok { IfOk result (λ test. outputs.condition_of nat_eq case_sensitive (left.now.columns ++ right.now.columns) (left.now.relations ++ right.now.relations) (codes "join") condition.now ≡ Ok test) }
    ensures refused { IfErr result (λ e. e ≢ no_memory → outputs.condition_of nat_eq case_sensitive (left.now.columns ++ right.now.columns) (left.now.relations ++ right.now.relations) (codes "join") condition.now ≡ Err e) }
{
    let columns = both_columns(alloc, left.columns.as_slice(), right.columns.as_slice())?;
    let relations = both_relations(alloc, left.relations.as_slice(), right.relations.as_slice())?;
    let names = Names {
        case_sensitive,
        columns: columns.as_slice(),
        relations: relations.as_slice(),
    };
    condition_of(alloc, &names, "join", condition)
}

/// A join by the keys of these names.
#[tactic(auto, unfolding(crate::specs::Joins::using_rule))]
fn on_keys(
    alloc: Global,
    case_sensitive: bool,
    base: u64,
    kind: JoinKind,
    left: Found,
    right: Found,
    names: &[Text],
) -> Result<Found, ResolveStop>
    ensures ok { IfOk result (λ found. rules.using_rule nat_eq case_sensitive (columns_of.ids_from base) kind left right names.now ≡ Ok found) }
    ensures refused { IfErr result (λ e. e ≢ no_memory → rules.using_rule nat_eq case_sensitive (columns_of.ids_from base) kind left right names.now ≡ Err e) }
{
    let keys = key_pairs(
        alloc,
        case_sensitive,
        left.columns.as_slice(),
        right.columns.as_slice(),
        names,
    )?;
    keyed(alloc, base, kind, left, right, keys.as_slice())
}

/// A join by these keys, in which the case of names is no matter any more.
fn keyed(
    alloc: Global,
    base: u64,
    kind: JoinKind,
    left: Found,
    right: Found,
    keys: &[KeyPair],
) -> Result<Found, ResolveStop>
    ensures ok { IfOk result (λ found. rules.keyed nat_eq true (columns_of.ids_from base) kind (length left.columns) (rules.joined kind left right (keys_of.all_equal (length left.columns) keys.now)) keys.now ≡ Ok found) }
    ensures refused { IfErr result (λ e. e ≢ no_memory → rules.keyed nat_eq true (columns_of.ids_from base) kind (length left.columns) (rules.joined kind left right (keys_of.all_equal (length left.columns) keys.now)) keys.now ≡ Err e) }
{
    let parts = keyed_parts(
        alloc,
        kind,
        left.columns.as_slice(),
        right.columns.as_slice(),
        keys,
    )?;
    keyed_pairs(alloc, base, kind, left, right, parts)
}

/// The pairs' columns and condition, and the columns over them.
fn keyed_pairs(
    alloc: Global,
    base: u64,
    kind: JoinKind,
    left: Found,
    right: Found,
    parts: KeyedParts,
) -> Result<Found, ResolveStop>
    ensures ok { IfOk result (λ found. found ≡ columns_of.projection (columns_of.ids_from base) (record { node = node.Join left.node right.node kind parts.test; columns = parts.columns; relations = left.relations ++ right.relations }) parts.items) }
    ensures refused { IfErr result (λ e. e ≡ no_memory) }
{
    let KeyedParts {
        columns,
        items,
        test,
    } = parts;
    let pairs = joined_with(alloc, kind, columns, left, right, test)?;
    projection(alloc, base, pairs, items)
}
