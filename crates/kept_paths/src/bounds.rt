//! For each list of classes, the least cost of a path whose keys begin with it.

ghost use Rattle.std.specs.Prelude.{◌≡◌, ◌||◌, ◌⊎◌, ℕ, IsSome, OnOk, take};
ghost use Rattle.cost_rules.specs.declared.pair.Pair as pairs;
ghost use Rattle.kept_paths.specs.work.Bounds.{ChangesOnlyList, EarlierAt, EarlierEach, IsEarlier, IsLowered, KeepsEarly, KeepsRooms, LowersAt, LowersEach, TellTheSame, either_beats, is_first, known_at};
ghost use Rattle.kept_paths.specs.work.Bounds as bounds_of;

use cost_rules::Pair;
use pg_base::Memory;
use std::alloc::Global;
use std::collections::BTreeMap;

/// What is known of the paths whose keys begin with a list.
#[derive(Clone, Copy)]
pub(crate) struct Known {
    /// The least cost of one of them by its total, then by its startup, where there is one.
    least: Option<Pair>,
    /// The least cost of one of them by its startup, then by its total, where there is one.
    early: Option<Pair>,
    /// Where a path of just these keys was put last, if one was.
    at: Option<usize>,
}

/// What is known of each list that the keys of a path begin with, by the numbers of its classes.
pub(crate) type Bounds = BTreeMap<Vec<u16>, Known>;

/// Whether a least cost is no more than another cost, neither before the first row nor in all.
fn beats(least: Option<Pair>, cost: Pair) -> bool
    ensures { result ≡ bounds_of.beats least cost }
{
    match least {
        Some(least) => least.startup <= cost.startup && least.total <= cost.total,
        None => false,
    }
}

/// Whether a path whose keys begin with a list is known that costs no more than another cost, neither before the first row
/// nor in all: the cheapest, or the one that starts first.
pub(crate) fn is_beaten(bounds: &Bounds, list: &[u16], cost: Pair) -> bool
    ensures { result ≡ either_beats bounds.now list.now cost }
{
    match bounds.get(list) {
        Some(known) => beats(known.least, cost) || beats(known.early, cost),
        None => false,
    }
}

/// The one of two costs that comes first by its total, then by its startup.
fn first_of(a: Pair, b: Pair) -> Pair
    ensures { (n : pairs.Pair) → is_first result n ≡ (is_first a n || is_first b n) }
{
    if a.total < b.total || a.total == b.total && a.startup <= b.startup {
        a
    } else {
        b
    }
}

/// The one of two costs that comes first by its startup, then by its total.
fn earlier_of(a: Pair, b: Pair) -> Pair
    ensures { (result ≡ a) ⊎ (result ≡ b) }
{
    if a.startup < b.startup || a.startup == b.startup && a.total <= b.total {
        a
    } else {
        b
    }
}

/// Where a path of just this list was put last, if one was.
pub(crate) fn place_of(bounds: &Bounds, list: &[u16]) -> Option<usize> {
    match bounds.get(list) {
        Some(known) => known.at,
        None => None,
    }
}

/// Makes room for a list, of which nothing more is known then. The error means out of memory.
fn add_room(alloc: Global, bounds: &mut Bounds, list: &[u16]) -> Result<(), Memory>
    ensures told { TellTheSame bounds.old bounds.new }
    ensures early { KeepsEarly bounds.old bounds.new }
    ensures room { OnOk result (IsSome (known_at bounds.new list.now)) }
    ensures rooms { KeepsRooms bounds.old bounds.new }
{
    if bounds.contains_key(list) {
        return Ok(());
    }
    let nothing = Known {
        least: None,
        early: None,
        at: None,
    };
    let list = Vec::from_slice(alloc, list)?;
    bounds.insert(list, nothing)?;
    Ok(())
}

/// Makes room for each list that a list begins with. The error means out of memory.
pub(crate) fn add_rooms(alloc: Global, bounds: &mut Bounds, list: &[u16]) -> Result<(), Memory>
    ensures told { TellTheSame bounds.old bounds.new }
    ensures early { KeepsEarly bounds.old bounds.new }
    ensures rooms { OnOk result ((n : ℕ) → IsSome (known_at bounds.new (take n list.now))) }
{
    for n in 0..list.len() {
        add_room(alloc, bounds, &list[..n])?;
    }
    add_room(alloc, bounds, list)
}

/// What is known once a path of a cost is there too, which was put at a place if it has just these keys.
fn lowered(known: Known, cost: Pair, at: Option<usize>) -> Known
    ensures least { IsLowered known cost result }
    ensures early { IsEarlier known cost result }
{
    let least = match known.least {
        Some(least) => first_of(least, cost),
        None => cost,
    };
    let early = match known.early {
        Some(early) => earlier_of(early, cost),
        None => cost,
    };
    Known {
        least: Some(least),
        early: Some(early),
        at: at.or(known.at),
    }
}

/// Notes of a list that there is a path of a cost, which was put at a place if it has just these keys.
fn lower(bounds: &mut Bounds, list: &[u16], cost: Pair, at: Option<usize>)
    requires { IsSome (known_at bounds.old list.now) }
    ensures here { LowersAt bounds.old bounds.new list.now cost }
    ensures early { EarlierAt bounds.old bounds.new list.now cost }
    ensures others { ChangesOnlyList bounds.old bounds.new list.now }
    ensures room { IsSome (known_at bounds.new list.now) }
{
    if let Some(known) = bounds.get_mut(list) {
        *known = lowered(*known, cost, at);
    }
}

/// Notes of each list that a path's keys begin with what the path costs, and where it was put.
pub(crate) fn lower_each(bounds: &mut Bounds, list: &[u16], cost: Pair, at: usize)
    requires { (n : ℕ) → IsSome (known_at bounds.old (take n list.now)) }
    ensures least { LowersEach bounds.old bounds.new list.now cost }
    ensures early { EarlierEach bounds.old bounds.new list.now cost }
{
    for n in 0..list.len() {
        lower(bounds, &list[..n], cost, None);
    }
    lower(bounds, list, cost, Some(at));
}
