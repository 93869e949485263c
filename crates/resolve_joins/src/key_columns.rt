ghost use Rattle.std.specs.Prelude.{◌≡◌, ◌++◌, filter, filter_map, slice_get, option_map, option_to_list, IfOk, OnOk};
ghost use Rattle.std.specs.List.{list_any};
ghost use Rattle.resolve_expressions.specs.Stars as stars;
ghost use Rattle.resolve_joins.specs.Keys as rules;

use crate::equalities::{key_call, right_place};
use crate::keys::KeyPair;
use cn_base::{Copied, List, OutOfMemory};
use plan_model::{Function, JoinKind};
use resolve_expressions::Item;
use resolve_names::ScopeColumn;
use resolve_relations::{column_item, short_place};
use std::alloc::Global;

/// The columns of a join by keys, over the left's columns, which are so many, and then the right's: the keys, and then the other columns.
#[tactic(auto, unfolding(crate::specs::Keys::using_items))]
pub(crate) fn using_items(
    alloc: Global,
    kind: JoinKind,
    width: u32,
    keys: &[KeyPair],
    columns: &[ScopeColumn],
) -> Result<List<Item>, OutOfMemory>
    ensures { IfOk result (λ items. items ≡ rules.using_items kind width keys.now (stars.items_where stars.any_column 0 columns.now)) }
{
    let items = all_items(alloc, columns)?;
    let mut made = key_items(alloc, kind, width, keys, items.as_slice())?;
    made.append(rest_items(alloc, width, keys, items.as_slice())?)?;
    Ok(made)
}

/// The columns as they are.
#[tactic(auto, using(resolve_expressions::proofs::StarSteps::star_steps))]
fn all_items(alloc: Global, columns: &[ScopeColumn]) -> Result<List<Item>, OutOfMemory>
    ensures { IfOk result (λ items. items ≡ stars.items_where stars.any_column 0 columns.now) }
{
    let mut items = List::new(alloc);
    for (place, column) in columns.iter().enumerate() {
        items.push(column_item(alloc, short_place(place)?, column)?)?;
    }
    Ok(items)
}

#[tactic(auto, using(crate::proofs::Picking::pick_steps))]
fn key_items(
    alloc: Global,
    kind: JoinKind,
    width: u32,
    keys: &[KeyPair],
    items: &[Item],
) -> Result<List<Item>, OutOfMemory>
    ensures { IfOk result (λ made. made ≡ filter_map (rules.key_item kind width items.now) keys.now) }
{
    let mut made = List::new(alloc);
    for key in keys {
        push_key(alloc, kind, width, items, key, &mut made)?;
    }
    Ok(made)
}

fn push_key(
    alloc: Global,
    kind: JoinKind,
    width: u32,
    items: &[Item],
    key: &KeyPair,
    made: &mut List<Item>,
) -> Result<(), OutOfMemory>
    ensures { OnOk result (made.new ≡ made.old ++ option_to_list (rules.key_item kind width items.now key.now)) }
{
    match key_item(alloc, kind, width, items, key)? {
        Some(item) => made.push(item),
        None => Ok(()),
    }
}

/// A key's column: the left's, of a right join the right's, and of a full join both in one.
fn key_item(
    alloc: Global,
    kind: JoinKind,
    width: u32,
    items: &[Item],
    key: &KeyPair,
) -> Result<Option<Item>, OutOfMemory>
    ensures { IfOk result (λ item. item ≡ rules.key_item kind width items.now key.now) }
{
    match kind {
        JoinKind::Right => item_at(alloc, items, right_place(width, key)?),
        JoinKind::Full => merged_at(alloc, width, items, key),
        JoinKind::Inner | JoinKind::Left | JoinKind::Anti | JoinKind::Semi | JoinKind::Cross => {
            item_at(alloc, items, key.left)
        }
    }
}

fn item_at(alloc: Global, items: &[Item], place: u32) -> Result<Option<Item>, OutOfMemory>
    ensures { IfOk result (λ item. item ≡ slice_get items.now place) }
{
    match items.get(place as usize) {
        Some(item) => Ok(Some(item.copy(alloc)?)),
        None => Ok(None),
    }
}

fn merged_at(
    alloc: Global,
    width: u32,
    items: &[Item],
    key: &KeyPair,
) -> Result<Option<Item>, OutOfMemory>
    ensures { IfOk result (λ item. item ≡ option_map (rules.merged width key.now) (slice_get items.now key.now.left)) }
{
    match items.get(key.left as usize) {
        Some(item) => Ok(Some(merged(alloc, width, key, item)?)),
        None => Ok(None),
    }
}

/// The first value of both columns that is not null, under the left's name.
fn merged(alloc: Global, width: u32, key: &KeyPair, item: &Item) -> Result<Item, OutOfMemory>
    ensures { IfOk result (λ merged. merged ≡ rules.merged width key.now item.now) }
{
    Ok(Item {
        name: item.name.copy(alloc)?,
        expr: key_call(alloc, Function::Coalesce, width, key, key.kind)?,
        source: None,
        nullable: true,
    })
}

#[tactic(auto, using(resolve_relations::proofs::Numbered::filter_steps))]
fn rest_items(
    alloc: Global,
    width: u32,
    keys: &[KeyPair],
    items: &[Item],
) -> Result<List<Item>, OutOfMemory>
    ensures { IfOk result (λ rest. rest ≡ filter (rules.is_rest width keys.now) items.now) }
{
    let mut rest = List::new(alloc);
    for item in items {
        if is_rest(width, keys, item) {
            rest.push(item.copy(alloc)?)?;
        }
    }
    Ok(rest)
}

/// Whether a column is no key's, neither of the left nor of the right.
fn is_rest(width: u32, keys: &[KeyPair], item: &Item) -> bool
    ensures { result ≡ rules.is_rest width keys.now item.now }
{
    !is_of_keys(width, item.source, keys)
}

fn is_of_keys(width: u32, source: Option<u32>, keys: &[KeyPair]) -> bool
    ensures { result ≡ list_any (rules.is_of_key width source) keys.now }
{
    keys.iter().any(|key| is_of_key(width, source, key))
}

#[tactic(auto, unfolding(crate::specs::Keys::is_of_key))]
fn is_of_key(width: u32, source: Option<u32>, key: &KeyPair) -> bool
    ensures { result ≡ rules.is_of_key width source key.now }
{
    match source {
        Some(place) => {
            place == key.left || u64::from(place) == u64::from(width) + u64::from(key.right)
        }
        None => false,
    }
}
