//! The least entries of a set.

ghost use Rattle.std.specs.Prelude.{◌≡◌, ◌<◌, ◌≤◌, IfNone, IfSome, length, map};
ghost use Rattle.plan_check.specs.work.Views.{certificate, entry};
ghost use Rattle.plan_check.specs.work.Placing.{ArePlaced, order_of};
ghost use Rattle.join_cover.specs.work.Leasts.{HasNoWhole, IsLeastFrom, IsLeastWhole, TakesNext};

use pg_base::RelSet;
use plan_check::{Entry, Judged, SetPlaces};

/// The lesser of two costs with their places; the first where they tie.
fn lesser_of(other: (usize, u64), this: (usize, u64)) -> (usize, u64)
    ensures kept { other.1 ≤ this.1 → result ≡ other }
    ensures new { this.1 < other.1 → result ≡ this }
{
    if this.1 < other.1 { this } else { other }
}

/// The lesser one of an entry that was found, by its place and its cost, and the one at a place, where that is of the set and
/// is given no rows; the one that was found where they tie.
fn lesser(
    entries: &[Entry],
    set: RelSet,
    found: Option<(usize, u64)>,
    n: usize,
) -> Option<(usize, u64)>
    requires there { n < length entries.now }
    ensures { TakesNext entries.now set n found result }
{
    let e = &entries[n];
    if e.set.0 != set.0 {
        return found;
    }
    if e.param.0 != 0 {
        return found;
    }
    match found {
        Some(other) => Some(lesser_of(other, (n, e.cost))),
        None => Some((n, e.cost)),
    }
}

/// The place and the cost of the least one, in all, of the entries of a set that are given no rows, among those at some ranks.
fn least_in(
    entries: &[Entry],
    places: &SetPlaces,
    within: (usize, usize),
    set: RelSet,
) -> Option<(usize, u64)>
    requires placed { ArePlaced (map entry entries.now) places.now }
    requires past { within.1 ≤ length (order_of places.now) }
    ensures { IsLeastFrom (map entry entries.now) set.0 places.now within.0 within.1 result }
{
    let mut least = None;
    for i in within.0..within.1 {
        least = lesser(entries, set, least, places.at(i));
    }
    least
}

/// The place of an entry of a set that is given no rows, of which no other such one costs less in all. None exactly where
/// there is none. The condition is that the places are those of the entries.
pub(crate) fn least_whole(j: &Judged, set: RelSet) -> Option<usize>
    requires placed { ArePlaced (certificate j.now.t.now).entries j.now.places.now }
    ensures some { IfSome result (λ k. IsLeastWhole (certificate j.now.t.now).entries set.0 k) }
    ensures none { IfNone result (HasNoWhole j.now set) }
{
    let entries = j.t.entries.items();
    let within = j.places.range(set);
    match least_in(entries, j.places, within, set) {
        Some(found) => Some(found.0),
        None => None,
    }
}
