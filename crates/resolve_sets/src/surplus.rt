ghost use Rattle.std.specs.Prelude.{◌≡◌, true, false, map, slice_set, IfOk};
ghost use Rattle.resolve_relations.specs.Columns.{numbered};
ghost use Rattle.resolve_sets.specs.Aligning as aligning;
ghost use Rattle.resolve_sets.specs.Flags as flagged;

use cn_base::{List, OutOfMemory};
use resolve_names::ScopeColumn;
use resolve_relations::short_place;
use std::alloc::Global;

/// The right's columns that no column of the left has for a partner.
#[tactic(auto, using(crate::proofs::Flags::free_are_surplus))]
pub(crate) fn surplus_places(
    alloc: Global,
    right: &[ScopeColumn],
    partners: &[Option<u32>],
) -> Result<List<u32>, OutOfMemory>
    ensures { IfOk result (λ places. places ≡ aligning.surplus right.now partners.now) }
{
    let taken = taken_flags(alloc, right, partners)?;
    free_places(alloc, taken.as_slice())
}

/// For each column whether it is a partner.
#[tactic(auto, using(crate::proofs::Flags::flag_steps))]
fn taken_flags(
    alloc: Global,
    right: &[ScopeColumn],
    partners: &[Option<u32>],
) -> Result<Vec<bool>, OutOfMemory>
    ensures { IfOk result (λ flags. flags.items ≡ numbered (flagged.is_taken partners.now) right.now) }
{
    let mut flags = unset_flags(alloc, right)?;
    for partner in partners {
        set_flag(&mut flags, *partner);
    }
    Ok(flags)
}

fn unset_flags(alloc: Global, right: &[ScopeColumn]) -> Result<Vec<bool>, OutOfMemory>
    ensures { IfOk result (λ flags. flags.items ≡ map (λ column. false) right.now) }
{
    right.iter().map(|_column| false).collect(alloc)
}

/// Sets the flag of a partner.
#[tactic(auto, unfolding(crate::specs::Flags::marked))]
fn set_flag(flags: &mut Vec<bool>, partner: Option<u32>)
    ensures { flags.new.items ≡ flagged.marked flags.old.items partner }
{
    match partner {
        Some(place) => set_at(flags, place as usize),
        None => (),
    }
}

fn set_at(flags: &mut Vec<bool>, place: usize)
    ensures { flags.new.items ≡ slice_set flags.old.items place true }
{
    if place < flags.len() {
        flags[place] = true;
    }
}

/// The places of the flags that are not set.
#[tactic(auto, using(crate::proofs::Flags::free_steps))]
fn free_places(alloc: Global, flags: &[bool]) -> Result<List<u32>, OutOfMemory>
    ensures { IfOk result (λ places. places ≡ flagged.free_from 0 flags.now) }
{
    let mut places = List::new(alloc);
    for (place, taken) in flags.iter().enumerate() {
        if !*taken {
            places.push(short_place(place)?)?;
        }
    }
    Ok(places)
}
