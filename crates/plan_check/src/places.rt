//! Where the entries of each set stand.

ghost use Rattle.std.specs.Prelude.{◌≡◌, ◌<◌, ◌≤◌, length, map, min};
ghost use Rattle.plan_check.specs.Limit.{MOST_ENTRIES};
ghost use Rattle.plan_check.specs.work.Views.{entry};
ghost use Rattle.plan_check.specs.work.Placing.{ArePlaced, HasPut, first_of, order_of, past_of, place_at, slot};
ghost use Rattle.plan_check.specs.work.Ranking.{AreRanked};

use crate::Entry;
use pg_base::RelSet;

/// Sets of relations are distinguished by as many numbers as there are sets of the relations that a query may have.
pub const MOST_SETS: usize = 1_024;

/// The places of entries by rank, and from which rank on and before which one those of each set stand, from 0. No other
/// entry stands between, in whatever order the entries themselves stand. Beside the places, which are lent, it has a fixed
/// size.
pub struct SetPlaces<'a> {
    /// By rank, the place.
    order: &'a [u32],
    /// By the set's number, the first rank.
    first: [u32; MOST_SETS],
    /// By the set's number, the rank past the last.
    past: [u32; MOST_SETS],
}

impl<'a> Drop for SetPlaces<'a> {
    fn drop(self) {
        let SetPlaces {
            order: _,
            first: _,
            past: _,
        } = self;
    }
}

/// The number by which a set is distinguished.
fn slot_of(set: RelSet) -> usize
    ensures slot { result ≡ slot set.0 }
    ensures few { result < 1024 }
{
    set.0 as usize % MOST_SETS
}

impl<'a> SetPlaces<'a> {
    /// The places of the entries of each set, by one pass over all entries in this order. It takes no memory.
    pub fn of(entries: &[Entry], order: &'a [u32]) -> SetPlaces<'a>
        requires few { length entries.now ≤ MOST_ENTRIES }
        requires ranked { AreRanked order.now (length entries.now) }
        ensures { ArePlaced (map entry entries.now) result }
    {
        let mut places = SetPlaces {
            order,
            first: [u32::MAX; MOST_SETS],
            past: [0; MOST_SETS],
        };
        for i in 0..order.len() {
            let e = &entries[order[i] as usize];
            places.put(e.set, i as u32);
        }
        places
    }

    /// One more entry, at a rank behind the others.
    fn put(&mut self, set: RelSet, i: u32)
        requires few { i < 4294967295 }
        ensures { HasPut self.old self.new set.0 i }
    {
        let n = slot_of(set);
        self.first[n] = self.first[n].min(i);
        self.past[n] = i + 1;
    }

    /// From which rank on and before which one all entries of a set stand.
    pub fn range(&self, set: RelSet) -> (usize, usize)
        ensures first { result.0 ≡ first_of self.now set.0 }
        ensures past { result.1 ≡ min (past_of self.now set.0) (length (order_of self.now)) }
    {
        let n = slot_of(set);
        (
            self.first[n] as usize,
            (self.past[n] as usize).min(self.order.len()),
        )
    }

    /// The place at a rank.
    pub fn at(&self, i: usize) -> usize
        requires { i < length (order_of self.now) }
        ensures { result ≡ place_at self.now i }
    {
        self.order[i] as usize
    }
}
