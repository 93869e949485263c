ghost use Rattle.std.specs.Prelude.{◌≡◌, ◌+◌, ◌-◌, ◌<◌, ◌≤◌, [], ◌∷◌, ◌++◌, length, take, drop, IfOk, MatchOption, OnOk, OnSome};
ghost use Rattle.std.specs.VecDeque.{deque_len};
ghost use Rattle.plain_relations.specs.Firsts.{order_of_first};
ghost use Rattle.plain_relations.specs.Maps.{map_of, KeysRise};

use crate::RenameEntry;
use cn_base::{List, OutOfMemory};
use std::alloc::Global;
use std::cmp::Ordering;
use std::collections::VecDeque;

/// How the first key of one map stands to that of another. One that has none comes last.
fn order_of_firsts(early: &VecDeque<RenameEntry>, late: &VecDeque<RenameEntry>) -> Ordering
    ensures { result ≡ order_of_first early.now.items late.now.items }
{
    match (early.front(), late.front()) {
        (Some(first), Some(second)) => first.key.as_str().cmp(second.key.as_str()),
        (Some(_), None) => Ordering::Less,
        (None, _) => Ordering::Greater,
    }
}

/// Takes the entry of the least key out of two maps, that of the later one where both have the key.
fn next_entry(
    early: &mut VecDeque<RenameEntry>,
    late: &mut VecDeque<RenameEntry>,
) -> Option<RenameEntry>
    requires early { KeysRise early.old.items }
    requires late { KeysRise late.old.items }
    ensures early { KeysRise early.new.items }
    ensures late { KeysRise late.new.items }
    ensures next { MatchOption result
        (map_of (early.old.items ++ late.old.items) ≡ [])
        (λ entry. map_of (early.old.items ++ late.old.items)
        ≡ entry ∷ map_of (early.new.items ++ late.new.items)) }
    ensures fewer { OnSome result
        (deque_len early.new + deque_len late.new < deque_len early.old + deque_len late.old) }
{
    match order_of_firsts(early, late) {
        Ordering::Less => early.pop_front(),
        Ordering::Equal => {
            early.pop_front();
            late.pop_front()
        }
        Ordering::Greater => late.pop_front(),
    }
}

/// Two maps as one, in which the entries of the later one count where both have a key.
fn merged_maps(
    alloc: Global,
    early: VecDeque<RenameEntry>,
    late: VecDeque<RenameEntry>,
) -> Result<VecDeque<RenameEntry>, OutOfMemory>
    requires early { KeysRise early.items }
    requires late { KeysRise late.items }
    ensures { IfOk result (λ found. found.items ≡ map_of (early.items ++ late.items)) }
{
    let mut early = early;
    let mut late = late;
    let mut found = VecDeque::new(alloc);
    while let Some(entry) = next_entry(&mut early, &mut late) {
        found.push_back(entry)?;
    }
    Ok(found)
}

/// Takes the last entry off the list and gives the map of it, or of no entry where `count` is 0.
fn map_of_one(
    alloc: Global,
    entries: &mut List<RenameEntry>,
    count: usize,
) -> Result<VecDeque<RenameEntry>, OutOfMemory>
    requires few { count < 2 }
    requires within { count ≤ length entries.old }
    ensures left { OnOk result (entries.new ≡ take (length entries.old - count) entries.old) }
    ensures map { IfOk result (λ found. found.items ≡ map_of (drop (length entries.old - count) entries.old)) }
{
    let mut found = VecDeque::new(alloc);
    if count == 0 {
        return Ok(found);
    }
    match entries.pop() {
        Some(entry) => {
            found.push_back(entry)?;
            Ok(found)
        }
        None => Ok(found),
    }
}

/// Takes the last `count` entries off the list and gives their map: that of either half, merged, so that it takes n log n steps.
pub(crate) fn map_of_last(
    alloc: Global,
    entries: &mut List<RenameEntry>,
    count: usize,
) -> Result<VecDeque<RenameEntry>, OutOfMemory>
    requires { count ≤ length entries.old }
    ensures left { OnOk result (entries.new ≡ take (length entries.old - count) entries.old) }
    ensures map { IfOk result (λ found. found.items ≡ map_of (drop (length entries.old - count) entries.old)) }
{
    if count < 2 {
        return map_of_one(alloc, entries, count);
    }
    let half = count / 2;
    let late = map_of_last(alloc, entries, half)?;
    let early = map_of_last(alloc, entries, count - half)?;
    merged_maps(alloc, early, late)
}
