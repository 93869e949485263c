ghost use Rattle.std.specs.Prelude.{◌≡◌, ◌≢◌, ◌++◌, map, IfOk, IfErr, Ok, Err};
ghost use Rattle.plan_model.specs.declared.node.Node.TheVariants as node;
ghost use Rattle.resolve_names.specs.declared.error.ResolveStop.TheVariants.{OutOfMemory as no_memory};
ghost use Rattle.resolve_relations.specs.Columns as columns_of;
ghost use Rattle.resolve_sets.specs.Sets as sets;

use crate::aligned::{Aligned, Places};
use crate::aligning::{by_name, by_place};
use crate::columns::set_columns;
use crate::options::{SetOptions, names_may_decide, set_kind};
use crate::sides::{left_values, right_values, side};
use crate::typing::with_types;
use cn_base::{Boxed, List, OutOfMemory};
use plan_model::{Node, SetKind};
use resolve_names::{ColumnList, ResolveStop, ScopeColumn, Tagged};
use resolve_relations::Found;
use std::alloc::Global;

/// The rows of two relations together, under the left's names and ids; ids that are fresh are those from `base` on. The first of these
/// errors decides: Unsupported, with `option` and the number, for a kind that is none; Unsupported `option 0` for names that are to decide
/// of anything but a union; for columns that are put together by name those of each name of the left's, as of an attribute;
/// NumColumnsMismatch with both numbers of columns; IncompatibleColumnType with the place from 1.
#[tactic(auto, unfolding(crate::specs::Sets::set_rule))]
pub fn set_operation(
    alloc: Global,
    case_sensitive: bool,
    base: u64,
    left: Found,
    right: Found,
    options: SetOptions,
) -> Result<Found, ResolveStop>
    ensures ok { IfOk result (λ found. sets.set_rule case_sensitive (columns_of.ids_from base) left right options.set_op_type options.all options.by_name options.allow_missing ≡ Ok found) }
    ensures refused { IfErr result (λ e. e ≢ no_memory → sets.set_rule case_sensitive (columns_of.ids_from base) left right options.set_op_type options.all options.by_name options.allow_missing ≡ Err e) }
{
    let kind = set_kind(alloc, options.set_op_type)?;
    names_may_decide(alloc, options.by_name, kind)?;
    of_kind(alloc, case_sensitive, base, kind, left, right, options)
}

/// The set operation of a kind: which columns become one, then their types, and then the rows.
fn of_kind(
    alloc: Global,
    case_sensitive: bool,
    base: u64,
    kind: SetKind,
    left: Found,
    right: Found,
    options: SetOptions,
) -> Result<Found, ResolveStop>
    ensures ok { IfOk result (λ found. sets.of_kind case_sensitive (columns_of.ids_from base) kind left right options.all options.by_name options.allow_missing ≡ Ok found) }
    ensures refused { IfErr result (λ e. e ≢ no_memory → sets.of_kind case_sensitive (columns_of.ids_from base) kind left right options.all options.by_name options.allow_missing ≡ Err e) }
{
    let places = places_of(
        alloc,
        case_sensitive,
        options,
        left.columns.as_slice(),
        right.columns.as_slice(),
    )?;
    let columns = with_types(
        alloc,
        left.columns.as_slice(),
        right.columns.as_slice(),
        places.as_slice(),
    )?;
    combined(
        alloc,
        base,
        left,
        right,
        kind,
        options.all,
        columns.as_slice(),
    )
}

/// Which columns become one.
fn places_of(
    alloc: Global,
    case_sensitive: bool,
    options: SetOptions,
    left: &[ScopeColumn],
    right: &[ScopeColumn],
) -> Result<List<Places>, ResolveStop>
    ensures ok { IfOk result (λ places. sets.places_of case_sensitive options.by_name options.allow_missing left.now right.now ≡ Ok places) }
    ensures refused { IfErr result (λ e. e ≢ no_memory → sets.places_of case_sensitive options.by_name options.allow_missing left.now right.now ≡ Err e) }
{
    if options.by_name {
        by_name(alloc, case_sensitive, options.allow_missing, left, right)
    } else {
        by_place(alloc, left, right)
    }
}

/// Both sides' rows, under the left's names.
#[tactic(auto, unfolding(crate::specs::Sets::combined, crate::specs::Sets::side))]
fn combined(
    alloc: Global,
    base: u64,
    left: Found,
    right: Found,
    kind: SetKind,
    all: bool,
    columns: &[Aligned],
) -> Result<Found, ResolveStop>
    ensures ok { IfOk result (λ found. found ≡ sets.combined (columns_of.ids_from base) left right kind all columns.now) }
    ensures refused { IfErr result (λ e. e ≡ no_memory) }
{
    let made = set_columns(
        alloc,
        base,
        left.columns.as_slice(),
        right.columns.as_slice(),
        columns,
    )?;
    let left = left_half(alloc, left, columns)?;
    let right = right_half(alloc, right, columns)?;
    both_halves(alloc, left, right, made, kind, all)
}

/// What is left of a side whose columns have become the result's.
#[derive(Drop)]
struct Half {
    node: Node,
    relations: List<Tagged<u64>>,
}

fn left_half(alloc: Global, input: Found, aligned: &[Aligned]) -> Result<Half, OutOfMemory>
    ensures { IfOk result (λ half. half ≡ record { node = sets.side_over input.columns input.node (map (sets.left_value input.columns) aligned.now); relations = input.relations }) }
{
    let Found {
        node,
        columns,
        relations,
    } = input;
    let values = left_values(alloc, columns.as_slice(), aligned)?;
    let node = side(alloc, node, columns.as_slice(), values)?;
    Ok(Half { node, relations })
}

fn right_half(alloc: Global, input: Found, aligned: &[Aligned]) -> Result<Half, OutOfMemory>
    ensures { IfOk result (λ half. half ≡ record { node = sets.side_over input.columns input.node (map (sets.right_value input.columns) aligned.now); relations = input.relations }) }
{
    let Found {
        node,
        columns,
        relations,
    } = input;
    let values = right_values(alloc, columns.as_slice(), aligned)?;
    let node = side(alloc, node, columns.as_slice(), values)?;
    Ok(Half { node, relations })
}

fn both_halves(
    alloc: Global,
    left: Half,
    right: Half,
    columns: List<ScopeColumn>,
    kind: SetKind,
    all: bool,
) -> Result<Found, ResolveStop>
    ensures ok { IfOk result (λ found. found ≡ record { node = node.SetOp left.node right.node kind all; columns = columns; relations = left.relations ++ right.relations }) }
    ensures refused { IfErr result (λ e. e ≡ no_memory) }
{
    let Half {
        node: left_node,
        relations: left_relations,
    } = left;
    let Half {
        node: right_node,
        relations: right_relations,
    } = right;
    let relations = both_relations(left_relations, right_relations)?;
    let columns = ColumnList::of(alloc, columns)?;
    let node = set_node(alloc, left_node, right_node, kind, all)?;
    Ok(Found {
        node,
        columns,
        relations,
    })
}

fn both_relations(
    left: List<Tagged<u64>>,
    right: List<Tagged<u64>>,
) -> Result<List<Tagged<u64>>, OutOfMemory>
    ensures { IfOk result (λ both. both ≡ left ++ right) }
{
    let mut both = left;
    both.append(right)?;
    Ok(both)
}

fn set_node(
    alloc: Global,
    left: Node,
    right: Node,
    kind: SetKind,
    all: bool,
) -> Result<Node, OutOfMemory>
    ensures { IfOk result (λ made. made ≡ node.SetOp left right kind all) }
{
    Ok(Node::SetOp {
        left: Boxed::new(alloc, left)?,
        right: Boxed::new(alloc, right)?,
        kind,
        all,
    })
}
