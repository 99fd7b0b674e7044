//! Two sides joined.

ghost use Rattle.std.specs.Prelude.{IsTrue};
ghost use Rattle.pg_base.specs.Sets.{has};
ghost use Rattle.heap.specs.work.Tuples.{padded_tuples};
ghost use Rattle.sql_query.specs.Queries.{width};
ghost use Rattle.sql_query.specs.WellBound.{IsWellBound};
ghost use Rattle.sql_query.specs.Worlds.{world};
ghost use Rattle.store.specs.work.Kept.{IsStoreOf};
ghost use Rattle.plan_tree.specs.work.Sorted.{AreSorted};
ghost use Rattle.plan_tree.specs.work.Views.{plan};
ghost use Rattle.sort_rows.specs.work.Rows.{AllHaveRows};
ghost use Rattle.merge_exec.specs.work.Keys.{AreJoining};
ghost use Rattle.merge_exec.specs.work.Pairs.{AreDisjointSides};
ghost use Rattle.worked_rows.specs.work.Sides.{AreSides};

use crate::scans::{index_scan, is_whole_scan, scanned};
use crate::scene::{Cost, Scene, counted};
use crate::seen::Seen;
use eq_classes::ClassNo;
use heap::{Counters, Tuples};
use merge_exec::{merge_lists_join, merge_rows, nest_rows};
use pathkeys::Keys;
use pg_base::{Memory, Steps};
use plan_space::is_merge;
use plan_tree::Plan;

/// How the sides are joined.
#[derive(Clone, Copy)]
pub(crate) enum Way {
    Nest,
    Merge,
}

/// Two scans, and the keys of a merge of them.
#[derive(Drop)]
struct Sides<'a> {
    keys: &'a Keys,
    outer: &'a Plan,
    inner: &'a Plan,
}

/// Whether two plans are scans that a merge may join by these keys.
fn are_sides<C: Counters>(at: &Scene<C>, keys: &Keys, outer: &Plan, inner: &Plan) -> bool
    requires { IsWellBound at.now.cat.now at.now.q.now }
    ensures { IsTrue result → AreSides at.now.cat.now at.now.q.now keys.now (plan outer.now) (plan inner.now) }
{
    if !is_whole_scan(at, outer) {
        return false;
    }
    if !is_whole_scan(at, inner) {
        return false;
    }
    is_merge(at.cat, at.q, keys, outer, inner)
}

/// The tuples of two sides joined so.
fn joined_rows<C: Counters>(
    at: &Scene<C>,
    way: Way,
    keys: &Keys,
    outer: &Tuples,
    inner: &Tuples,
    reads: &mut Steps<C::Looks>,
) -> Result<Tuples, Memory>
    requires sides { AreDisjointSides (world at.now.cat.now at.now.store.now.stored) at.now.q.now outer.now.set inner.now.set }
    requires keys { AreJoining at.now.q.now.classes (has outer.now.set.0) (has inner.now.set.0) keys.now }
    requires outer { AllHaveRows (world at.now.cat.now at.now.store.now.stored) at.now.q.now outer.now }
    requires inner { AllHaveRows (world at.now.cat.now at.now.store.now.stored) at.now.q.now inner.now }
    requires outer_sorted { AreSorted (world at.now.cat.now at.now.store.now.stored) at.now.q.now (has outer.now.set.0) keys.now (padded_tuples (width at.now.q.now) outer.now) }
    requires inner_sorted { AreSorted (world at.now.cat.now at.now.store.now.stored) at.now.q.now (has inner.now.set.0) keys.now (padded_tuples (width at.now.q.now) inner.now) }
{
    let heaps = at.store.heaps();
    match way {
        Way::Nest => nest_rows(at.alloc, at.cat, at.q, heaps, outer, inner, reads),
        Way::Merge => merge_rows(at.alloc, at.cat, at.q, heaps, keys, outer, inner, reads),
    }
}

/// Sees the tuples of two sides joined so, and gives what was counted before the join.
fn see_joined<C: Counters>(
    at: &Scene<C>,
    way: Way,
    sides: &Sides,
    seen: &mut Seen,
    fetches: &mut Steps<C::Fetches>,
    reads: &mut Steps<C::Looks>,
) -> Result<Cost, Memory>
    requires bound { IsWellBound at.now.cat.now at.now.q.now }
    requires store { IsStoreOf at.now.cat.now at.now.store.now }
    requires sides { AreSides at.now.cat.now at.now.q.now sides.now.keys.now (plan sides.now.outer.now) (plan sides.now.inner.now) }
{
    let outer = scanned(at, sides.outer, fetches, reads)?;
    let inner = scanned(at, sides.inner, fetches, reads)?;
    merge_lists_join();
    let before = counted::<C>(fetches, reads);
    let tuples = joined_rows(at, way, sides.keys, &outer, &inner, reads)?;
    seen.see_all(&tuples);
    Ok(before)
}

/// Sees the first relation joined with the second, both in the order of their indexes. It gives what was counted before the
/// join.
pub(crate) fn see_join<C: Counters>(
    at: &Scene<C>,
    way: Way,
    seen: &mut Seen,
    fetches: &mut Steps<C::Fetches>,
    reads: &mut Steps<C::Looks>,
) -> Result<Option<Cost>, Memory>
    requires bound { IsWellBound at.now.cat.now at.now.q.now }
    requires store { IsStoreOf at.now.cat.now at.now.store.now }
{
    let keys = Keys::from_slice(at.alloc, &[ClassNo(0)])?;
    let first = index_scan(0, false);
    let second = index_scan(1, false);
    if !are_sides(at, &keys, &first, &second) {
        return Ok(None);
    }
    let sides = Sides {
        keys: &keys,
        outer: &first,
        inner: &second,
    };
    let before = see_joined(at, way, &sides, seen, fetches, reads)?;
    Ok(Some(before))
}
