ghost use Rattle.std.specs.Prelude.{◌≡◌, ◌≢◌, ◌++◌, codes, map, filter, IfOk, IfErr, Ok, Err, nat_eq};
ghost use Rattle.std.specs.Fmt.{decimal};
ghost use Rattle.std.specs.List.{list_any};
ghost use Rattle.std.specs.String.{string_bytes};
ghost use Rattle.expression_messages.specs.declared.expression.Expr.TheViews.{out-Expr};
ghost use Rattle.resolve_names.specs.declared.error.ResolveStop.TheVariants.{Analysis, OutOfMemory as no_memory};
ghost use Rattle.resolve_names.specs.Matching.{name_matches};
ghost use Rattle.resolve_expressions.specs.Grouping.{all_checked};
ghost use Rattle.resolve_expressions.specs.Stars.{items_where};
ghost use Rattle.resolve_expressions.specs.Typings.{meaningless as no_meaning};
ghost use Rattle.resolve_relations.specs.Columns as columns_of;
ghost use Rattle.resolve_relations.specs.Making as rules;

use crate::found::Found;
use crate::keeping::short_place;
use cn_base::{Boxed, Copied, List, OutOfMemory, Text};
use expression_messages::{Expr, UnresolvedAttribute};
use plan_model::{Node, TypedExpr};
use resolve_names::{
    ColumnList, ErrorName, ResolveStop, ScopeColumn, Tagged, analysis_stop, is_named, names_match,
    parts_of, relation_of,
};
use std::alloc::Global;

/// The columns that an attribute means. There may be several, or none.
#[derive(Debug, Drop)]
pub enum Meant<I> {
    /// Those that these parts name.
    Parts(List<Text>),
    /// Those with these ids, which columns of the attribute's relation have.
    Ids(List<I>),
}

/// The input's columns without those that an expression or a name means, which may be none. The first of these errors decides, expression by
/// expression: Unsupported, which tells one that is no attribute; BadIdentifier; CannotResolvePlanId or AmbiguousReference for the relation of
/// a plan id. A place from 2^32 on is answered as want of memory.
#[tactic(auto, unfolding(crate::specs::Making::drop_rule))]
pub fn drop_columns(
    alloc: Global,
    case_sensitive: bool,
    input: Found,
    exprs: &[Expr],
    names: &[Text],
) -> Result<Found, ResolveStop>
    ensures ok { IfOk result (λ found. rules.drop_rule nat_eq case_sensitive input exprs.now names.now ≡ Ok found) }
    ensures refused { IfErr result (λ e. e ≢ no_memory → rules.drop_rule nat_eq case_sensitive input exprs.now names.now ≡ Err e) }
{
    let meant = all_meant(alloc, case_sensitive, input.relations.as_slice(), exprs)?;
    kept(alloc, case_sensitive, input, meant.as_slice(), names)
}

/// The columns that are not meant, of the same rows.
fn kept(
    alloc: Global,
    case_sensitive: bool,
    input: Found,
    meant: &[Meant<u64>],
    names: &[Text],
) -> Result<Found, ResolveStop>
    ensures ok { IfOk result (λ found. found ≡ rules.kept input (rules.is_kept nat_eq case_sensitive meant.now names.now)) }
    ensures refused { IfErr result (λ e. e ≡ no_memory) }
{
    let Found {
        node,
        columns,
        relations,
    } = input;
    let items = kept_exprs(alloc, case_sensitive, columns.as_slice(), meant, names)?;
    let kept = kept_columns(alloc, case_sensitive, columns.as_slice(), meant, names)?;
    Ok(Found {
        node: Node::Project {
            input: Boxed::new(alloc, node)?,
            items,
        },
        columns: ColumnList::of(alloc, kept)?,
        relations,
    })
}

#[tactic(auto, using(crate::proofs::KeptFacts::kept_steps))]
fn kept_exprs(
    alloc: Global,
    case_sensitive: bool,
    columns: &[ScopeColumn],
    meant: &[Meant<u64>],
    names: &[Text],
) -> Result<List<TypedExpr>, OutOfMemory>
    ensures { IfOk result (λ exprs. exprs ≡ columns_of.exprs_of (items_where (rules.is_kept nat_eq case_sensitive meant.now names.now) 0 columns.now)) }
{
    let mut exprs = List::new(alloc);
    for (place, column) in columns.iter().enumerate() {
        if is_kept(case_sensitive, meant, names, column) {
            exprs.push(TypedExpr::Column {
                place: short_place(place)?,
                kind: column.kind,
            })?;
        }
    }
    Ok(exprs)
}

#[tactic(auto, using(crate::proofs::Numbered::filter_steps))]
fn kept_columns(
    alloc: Global,
    case_sensitive: bool,
    columns: &[ScopeColumn],
    meant: &[Meant<u64>],
    names: &[Text],
) -> Result<List<ScopeColumn>, OutOfMemory>
    ensures { IfOk result (λ kept. kept ≡ filter (rules.is_kept nat_eq case_sensitive meant.now names.now) columns.now) }
{
    let mut kept = List::new(alloc);
    for column in columns {
        if is_kept(case_sensitive, meant, names, column) {
            kept.push(column.copy(alloc)?)?;
        }
    }
    Ok(kept)
}

/// Whether no expression and no name means a column.
fn is_kept(case_sensitive: bool, meant: &[Meant<u64>], names: &[Text], column: &ScopeColumn) -> bool
    ensures { result ≡ rules.is_kept nat_eq case_sensitive meant.now names.now column.now }
{
    if is_any_meant(case_sensitive, meant, column) {
        return false;
    }
    !has_any_name(case_sensitive, names, column)
}

fn is_any_meant(case_sensitive: bool, meant: &[Meant<u64>], column: &ScopeColumn) -> bool
    ensures { result ≡ list_any (λ one. rules.is_meant nat_eq case_sensitive one column.now) meant.now }
{
    meant
        .iter()
        .any(|one| is_meant(case_sensitive, one, column))
}

fn is_meant(case_sensitive: bool, meant: &Meant<u64>, column: &ScopeColumn) -> bool
    ensures { result ≡ rules.is_meant nat_eq case_sensitive meant.now column.now }
{
    match meant {
        Meant::Parts(parts) => is_named(case_sensitive, parts.as_slice(), column),
        Meant::Ids(ids) => has_id(ids.as_slice(), column),
    }
}

fn has_id(ids: &[u64], column: &ScopeColumn) -> bool
    ensures { result ≡ list_any (λ id. nat_eq id column.now.id) ids.now }
{
    ids.iter().any(|id| *id == column.id)
}

fn has_any_name(case_sensitive: bool, names: &[Text], column: &ScopeColumn) -> bool
    ensures { result ≡ list_any (λ name. name_matches case_sensitive name column.now.name) names.now }
{
    names.iter().any(|name| names_match(case_sensitive, name.as_str(), column.name.as_str()))
}

// ---- what expressions mean

#[tactic(auto, using(resolve_expressions::proofs::Gathering::gather_steps))]
fn all_meant(
    alloc: Global,
    case_sensitive: bool,
    relations: &[Tagged<u64>],
    exprs: &[Expr],
) -> Result<List<Meant<u64>>, ResolveStop>
    ensures ok { IfOk result (λ meant. all_checked (map (rules.meant case_sensitive relations.now) exprs.now) ≡ Ok meant) }
    ensures refused { IfErr result (λ e. e ≢ no_memory → all_checked (map (rules.meant case_sensitive relations.now) exprs.now) ≡ Err e) }
{
    let mut all = List::new(alloc);
    for expr in exprs {
        match meant_columns(alloc, case_sensitive, relations, expr) {
            Ok(one) => all.push(one)?,
            Err(stop) => return Err(stop),
        }
    }
    Ok(all)
}

fn meant_columns(
    alloc: Global,
    case_sensitive: bool,
    relations: &[Tagged<u64>],
    expr: &Expr,
) -> Result<Meant<u64>, ResolveStop>
    ensures ok { IfOk result (λ found. rules.meant case_sensitive relations.now expr.now ≡ Ok found) }
    ensures refused { IfErr result (λ e. e ≢ no_memory → rules.meant case_sensitive relations.now expr.now ≡ Err e) }
{
    let attribute = attribute_in(alloc, expr)?;
    let identifier = attribute.unparsed_identifier.as_str();
    let parts = parts_of(alloc, identifier)?;
    meant_by(
        alloc,
        case_sensitive,
        relations,
        identifier,
        parts,
        attribute.plan_id,
    )
}

/// The attribute that an expression is; Unsupported tells another one by its field number.
#[tactic(auto, using(resolve_expressions::proofs::ExprForms::forms))]
fn attribute_in(alloc: Global, expr: &Expr) -> Result<&UnresolvedAttribute, ResolveStop>
    ensures ok { IfOk result (λ attribute. rules.attribute_in (out-Expr expr.now) ≡ Ok attribute.now) }
    ensures refused { IfErr result (λ e. e ≢ no_memory → rules.attribute_in (out-Expr expr.now) ≡ Err e) }
{
    match expr {
        Expr::UnresolvedAttribute(attribute) => Ok(attribute),
        Expr::Literal(_) => Err(meaningless(alloc, 1)),
        Expr::UnresolvedFunction(_) => Err(meaningless(alloc, 3)),
        Expr::UnresolvedStar(_) => Err(meaningless(alloc, 5)),
        Expr::Alias(_) => Err(meaningless(alloc, 6)),
        Expr::Cast(_) => Err(meaningless(alloc, 7)),
        Expr::SortOrder(_) => Err(meaningless(alloc, 9)),
        Expr::Other(number) => Err(meaningless(alloc, *number)),
    }
}

fn meaningless(alloc: Global, number: u32) -> ResolveStop
    ensures { result ≢ no_memory → result ≡ Analysis (no_meaning number) }
{
    match expression_text(alloc, number) {
        Ok(text) => analysis_stop(alloc, ErrorName::Unsupported, text.as_str()),
        Err(_) => ResolveStop::OutOfMemory,
    }
}

fn expression_text(alloc: Global, number: u32) -> Result<String, OutOfMemory>
    ensures { IfOk result (λ text. string_bytes text ≡ codes "expression " ++ decimal number) }
{
    let text = format!(in alloc; "expression {number}")?;
    Ok(text)
}

fn meant_by(
    alloc: Global,
    case_sensitive: bool,
    relations: &[Tagged<u64>],
    identifier: &str,
    parts: List<Text>,
    plan_id: Option<i64>,
) -> Result<Meant<u64>, ResolveStop>
    ensures ok { IfOk result (λ found. rules.meant_by case_sensitive relations.now identifier.now parts plan_id ≡ Ok found) }
    ensures refused { IfErr result (λ e. e ≢ no_memory → rules.meant_by case_sensitive relations.now identifier.now parts plan_id ≡ Err e) }
{
    match plan_id {
        None => Ok(Meant::Parts(parts)),
        Some(plan) => meant_in(
            alloc,
            case_sensitive,
            relations,
            identifier,
            parts.as_slice(),
            plan,
        ),
    }
}

fn meant_in(
    alloc: Global,
    case_sensitive: bool,
    relations: &[Tagged<u64>],
    identifier: &str,
    parts: &[Text],
    plan: i64,
) -> Result<Meant<u64>, ResolveStop>
    ensures ok { IfOk result (λ found. rules.meant_in case_sensitive relations.now identifier.now parts.now plan ≡ Ok found) }
    ensures refused { IfErr result (λ e. e ≢ no_memory → rules.meant_in case_sensitive relations.now identifier.now parts.now plan ≡ Err e) }
{
    let relation = relation_of(alloc, identifier, plan, relations)?;
    let ids = ids_named(alloc, case_sensitive, parts, relation.columns.as_slice())?;
    Ok(Meant::Ids(ids))
}

/// The ids of the columns that these parts name.
#[tactic(auto, using(crate::proofs::KeptFacts::id_steps))]
fn ids_named(
    alloc: Global,
    case_sensitive: bool,
    parts: &[Text],
    columns: &[ScopeColumn],
) -> Result<List<u64>, OutOfMemory>
    ensures { IfOk result (λ ids. ids ≡ rules.ids_named case_sensitive parts.now columns.now) }
{
    let mut ids = List::new(alloc);
    for column in columns {
        if is_named(case_sensitive, parts, column) {
            ids.push(column.id)?;
        }
    }
    Ok(ids)
}
