//! Fronts of paths by set of relations and parameterisation (PostgreSQL, src/backend/optimizer/README, Optimizer Data
//! Structures).

ghost use Rattle.std.specs.Prelude.{◌≡◌, ◌<◌, ◌↔◌, ◌⊎◌, ℕ, Bool, IfErr, IfNone, IfOk, IfSome, IsTrue, None, OnOk, [], Some, get_or, length, map};
ghost use Rattle.std.specs.Option.{option_map};
ghost use Rattle.pg_base.specs.declared.rel_set.RelSet as sets;
ghost use Rattle.plan_tree.specs.work.Views.{path};
ghost use Rattle.join_search.specs.work.Joins.{HasOnlyScans, HaveSameScans, IsSingle, KeepsScans};
ghost use Rattle.join_search.specs.work.Tables.{ChangesOnlyFront, ChangesOnlyParam, IsOfNoOther, IsPlaceOf, KeepsFront, found_at, front_at, is_at, list_at, params_of, paths_at, paths_of, places_at, set_numbered};

use pareto::Front;
use pg_base::{Memory, RelSet};
use plan_tree::Path;
use std::alloc::Global;

/// A front of a set, by the parameterisation at which it was put.
#[derive(Drop)]
pub(crate) struct Placed {
    param: RelSet,
    front: Front<Path>,
}

/// A front for each set of relations and parameterisation at which one was put. Contracts see what was last put there.
pub struct Table {
    /// The fronts of each set, by its number.
    sets: Vec<Vec<Placed>>,
    alloc: Global,
}

impl Drop for Table {
    fn drop(self) {
        let Table { sets: _, alloc: _ } = self;
    }
}

/// Whether a front stands at the parameterisation.
fn stands_at(f: &Placed, p: RelSet) -> bool
    ensures { result ≡ is_at p f.now }
{
    f.param.0 == p.0
}

/// The front at the parameterisation.
fn find<'a>(places: &'a [Placed], p: RelSet) -> Option<&'a Front<Path>>
    ensures { option_map (λ f. f.now) result ≡ found_at p places.now }
{
    for f in places {
        if stands_at(f, p) {
            return Some(&f.front);
        }
    }
    None
}

/// The number of the first front that stands there, from 0.
fn place_of(places: &[Placed], p: RelSet) -> Option<usize>
    ensures within { IfSome result (λ n. n < length places.now) }
    ensures put { IfSome result (λ n. IsPlaceOf p places.now n) }
    ensures others { IfSome result (λ n. IsOfNoOther p places.now n) }
    ensures none { IfNone result (found_at p places.now ≡ None) }
{
    for n in 0..places.len() {
        if stands_at(&places[n], p) {
            return Some(n);
        }
    }
    None
}

/// Puts a front behind the others, where none stands at its parameterisation. `Err` gives it back when memory runs out, and
/// changes nothing.
fn add(places: &mut Vec<Placed>, p: RelSet, f: Front<Path>) -> Result<(), Front<Path>>
    requires new { found_at p places.old.items ≡ None }
    ensures here { OnOk result (found_at p places.new.items ≡ Some f) }
    ensures others { ChangesOnlyParam p places.old.items places.new.items }
    ensures err { IfErr result (λ back. (back ≡ f) × (places.new.items ≡ places.old.items)) }
{
    let placed = Placed { param: p, front: f };
    match places.push(placed) {
        Ok(()) => Ok(()),
        Err(failed) => Err(failed.value.front),
    }
}

/// Puts a front among those of a set, in the place of one that stands at its parameterisation. `Err` gives it back when memory
/// runs out, and changes nothing.
fn put_in(places: &mut Vec<Placed>, p: RelSet, f: Front<Path>) -> Result<(), Front<Path>>
    ensures here { OnOk result (found_at p places.new.items ≡ Some f) }
    ensures others { ChangesOnlyParam p places.old.items places.new.items }
    ensures err { IfErr result (λ back. (back ≡ f) × (places.new.items ≡ places.old.items)) }
{
    match place_of(places, p) {
        Some(n) => {
            let place = &mut places[n];
            place.front = f;
            Ok(())
        }
        None => add(places, p, f),
    }
}

/// Makes room for the fronts of a set. The error means out of memory.
fn grow(alloc: Global, sets: &mut Vec<Vec<Placed>>, set: u16) -> Result<(), Memory>
    ensures room { OnOk result (set < length sets.new.items) }
    ensures same { (n : ℕ) → list_at sets.new.items n ≡ list_at sets.old.items n }
{
    for _n in sets.len()..set as usize + 1 {
        sets.push(Vec::new(alloc))?;
    }
    Ok(())
}

/// Whether a front has no path.
fn has_no_path(f: &Placed) -> bool
    ensures { IsTrue result → f.now.front ≡ [] }
{
    f.front.items().is_empty()
}

/// Whether no front has a path.
fn are_empty(places: &[Placed]) -> bool
    ensures { IsTrue result → (p : sets.RelSet) → paths_of (found_at p places.now) ≡ [] }
{
    for f in places {
        if !has_no_path(f) {
            return false;
        }
    }
    true
}

/// The parameterisations of some fronts of a set. The error means out of memory.
fn params_in(alloc: Global, places: &[Placed]) -> Result<Vec<RelSet>, Memory>
    ensures { IfOk result (λ v. v.items ≡ params_of places.now) }
{
    let mut params = Vec::new(alloc);
    for f in places {
        params.push(f.param)?;
    }
    Ok(params)
}

/// Whether a number is that of a set of one relation alone.
fn is_one(n: usize) -> bool
    ensures { IsTrue result ↔ IsSingle (set_numbered n) }
{
    if n == 0 {
        return false;
    }
    n == 1 << n.trailing_zeros()
}

/// Lets go of the fronts of a set, unless it has one relation alone.
fn forget_at(sets: &mut Vec<Vec<Placed>>, n: usize)
    requires within { n < length sets.old.items }
    ensures many { length sets.new.items ≡ length sets.old.items }
    ensures here { IsSingle (set_numbered n) ⊎ (list_at sets.new.items n ≡ []) }
    ensures single { KeepsScans sets.old.items sets.new.items }
    ensures others { (k : ℕ) → ¬ (k ≡ n) → list_at sets.new.items k ≡ list_at sets.old.items k }
{
    if is_one(n) {
        return;
    }
    sets[n].clear();
}

/// Lets go of the fronts of sets of more than one relation.
fn forget(sets: &mut Vec<Vec<Placed>>)
    ensures single { KeepsScans sets.old.items sets.new.items }
    ensures others { (k : ℕ) → IsSingle (set_numbered k) ⊎ (list_at sets.new.items k ≡ []) }
{
    for n in 0..sets.len() {
        forget_at(sets, n);
    }
}

impl Table {
    /// The table without fronts. It takes no memory.
    pub fn new(alloc: Global) -> Table
        ensures { (s p : sets.RelSet) → front_at result s p ≡ None }
    {
        Table {
            sets: Vec::new(alloc),
            alloc,
        }
    }

    /// The fronts of a set, lent.
    fn places(&self, s: RelSet) -> &[Placed]
        ensures { result.now ≡ places_at self.now s }
    {
        match self.sets.get(s.0 as usize) {
            Some(places) => places.as_slice(),
            None => &[],
        }
    }

    /// The front that was last put at a set and a parameterisation, lent. None exactly where none was put.
    pub fn front(&self, s: RelSet, p: RelSet) -> Option<&Front<Path>>
        ensures { option_map (λ f. f.now) result ≡ front_at self.now s p }
    {
        find(self.places(s), p)
    }

    /// Puts a front at a set and a parameterisation, in the place of one that stands there. `Err` gives it back when memory
    /// runs out, and the table is as before.
    pub fn put(&mut self, s: RelSet, p: RelSet, f: Front<Path>) -> Result<(), Front<Path>>
        ensures here { OnOk result (front_at self.new s p ≡ Some f) }
        ensures others { ChangesOnlyFront s p self.old self.new }
        ensures err { IfErr result (λ back. (back ≡ f) × KeepsFront s p self.old self.new) }
    {
        match grow(self.alloc, &mut self.sets, s.0) {
            Ok(()) => put_in(&mut self.sets[s.0 as usize], p, f),
            Err(_) => Err(f),
        }
    }

    /// Lets go of the fronts of all sets but those of one relation alone.
    pub fn forget_joins(&mut self)
        ensures scans { HaveSameScans self.new self.old }
        ensures single { HasOnlyScans self.new }
    {
        forget(&mut self.sets)
    }

    /// The paths of the front at a set and a parameterisation, lent. There are none where no front was put.
    pub(crate) fn paths(&self, s: RelSet, p: RelSet) -> &[Path]
        ensures { map path result.now ≡ paths_at self.now s p }
    {
        match self.front(s, p) {
            Some(front) => front.items(),
            None => &[],
        }
    }

    /// Whether a set has no paths, whatever they are given.
    pub(crate) fn is_bare(&self, s: RelSet) -> bool
        ensures { IsTrue result → (p : sets.RelSet) → paths_at self.now s p ≡ [] }
    {
        are_empty(self.places(s))
    }

    /// The parameterisations at which the set has a front. The error means out of memory.
    pub(crate) fn params(&self, alloc: Global, s: RelSet) -> Result<Vec<RelSet>, Memory>
        ensures { IfOk result (λ v. v.items ≡ params_of (places_at self.now s)) }
    {
        params_in(alloc, self.places(s))
    }
}
