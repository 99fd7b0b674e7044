//! The places of entries in the order in which they are sought.

ghost use Rattle.std.specs.Prelude.{◌≤◌, IfOk, OnOk, length};
ghost use Rattle.std.specs.List.Sorted.{IsPermutation};
ghost use Rattle.plan_check.specs.Limit.{MOST_ENTRIES};
ghost use Rattle.plan_check.specs.work.Ranking.{AreFirstPlaces, AreRanked};

use crate::Entry;
use pg_base::Memory;
use std::alloc::Global;

/// By what an entry at a place is sought: its set, the rows that it is given, what it costs in all.
fn sought(entries: &[Entry], place: u32) -> (u16, u16, u64) {
    match entries.get(place as usize) {
        Some(e) => (e.set.0, e.param.0, e.cost),
        None => (0, 0, 0),
    }
}

/// The places of so many entries, in their own order. The error means out of memory.
fn places(alloc: Global, count: usize) -> Result<Vec<u32>, Memory>
    requires few { count ≤ MOST_ENTRIES }
    ensures { IfOk result (λ v. AreFirstPlaces v.items count) }
{
    let mut all = Vec::new(alloc);
    for k in 0..count {
        all.push(k as u32)?;
    }
    Ok(all)
}

/// Sorts places by what the entries there are sought by; those that tie keep their order. The error means out of memory.
fn sort(entries: &[Entry], places: &mut Vec<u32>) -> Result<(), Memory>
    ensures { OnOk result (IsPermutation places.old.items places.new.items) }
{
    places.sort_by_key(|k| sought(entries, *k))?;
    Ok(())
}

/// The places of entries, those of each set and parameterisation side by side, in order of cost. The error means out of memory.
pub(crate) fn ranked(alloc: Global, entries: &[Entry]) -> Result<Vec<u32>, Memory>
    requires few { length entries.now ≤ MOST_ENTRIES }
    ensures { IfOk result (λ v. AreRanked v.items (length entries.now)) }
{
    let mut order = places(alloc, entries.len())?;
    sort(entries, &mut order)?;
    Ok(order)
}
