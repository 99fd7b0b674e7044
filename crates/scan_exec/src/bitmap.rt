//! Bitmaps of the rows that the indexes of a bitmap tree hold, and their scans.

ghost use Rattle.std.specs.Prelude.{◌≡◌, ◌<◌, ◌≤◌, ◌+◌, All, IfOk, OnOk, length, map, nat_lt, true};
ghost use Rattle.std.specs.List.{AllByRecursion};
ghost use Rattle.pg_expr.specs.work.View as view;
ghost use Rattle.opfamily.specs.declared.classes.Method.TheVariants.{Btree};
ghost use Rattle.heap.specs.work.TidSets.{TidSet};
ghost use Rattle.catalog.specs.Contents.{index_at};
ghost use Rattle.index_match.specs.Arms.{arm_parts, takes_parts};
ghost use Rattle.index_match.specs.Conditions.{index_conditions};
ghost use Rattle.scan_probes.specs.work.Filters.{lent_conditions};
ghost use Rattle.plan_tree.specs.Bitmaps.{IsIndexOn, MatchesArm};
ghost use Rattle.plan_tree.specs.Plans as plans;
ghost use Rattle.plan_tree.specs.Run.{met, some_holds, all_hold_row, holds, held as held_rows};
ghost use Rattle.plan_tree.specs.work.Views.{bits, bits_all};
ghost use Rattle.store.specs.work.Kept.{hashed};
ghost use Rattle.scan_exec.specs.work.Held.{AreReadyMarks, IsMade, passed_rows, with_rows};
ghost use Rattle.scan_exec.specs.work.Scene.{IsSceneOf};
ghost use Rattle.scan_exec.specs.work.AtScene.{AreSceneTrees, AreUsedThere, IsNearScene, IsSceneBitmap, IsSceneTree, MatchArms, arms_looks, bitmap_rows, bound_looks, leaf_looks, rows_meeting, scene_held, scene_index, scene_rows, scene_tree_looks, trees_looks, with_scene_arms};

use crate::hashed::rows_equal;
use crate::index::{seek, sorted_index};
use crate::numbers::BitRows;
use crate::scene::Scene;
use btree_index::Cursor;
use catalog::IndexDef;
use hash_index::HashIndex;
use heap::{Counters, Tids};
use pg_base::{IndexNo, Memory, Steps, Tid};
use pg_expr::Expr;
use plan_tree::{BitTree, arms_at};
use predicate_proof::and_parts;
use scan_probes::{Beside, Given, pass_entry};
use std::alloc::Global;
use std::slice;
use store::BuiltIndex;

/// What an entry of an index is tested by.
#[derive(Drop)]
struct Tests<'a> {
    beside: &'a Beside<'a>,
    given: &'a Given<'a>,
    conditions: &'a [&'a Expr],
    def: &'a IndexDef,
}

/// Puts in the rows of the entries of a cursor that pass the tests. Each entry is one look.
fn mark_entries<C: Counters>(
    tests: &Tests,
    cursor: Cursor<C::Looks>,
    held: &mut Tids,
    reads: &mut Steps<C::Looks>,
)
    requires made { IsMade held.old }
    requires ready { AreReadyMarks tests.now held.old.bound cursor }
    ensures held { held.new ≡ with_rows held.old (passed_rows tests.now cursor.entry) }
    ensures looks { reads.new ≡ reads.old + length cursor.entry }
{
    let mut left = cursor;
    while let Some(entry) = left.next(reads) {
        if pass_entry(
            tests.beside,
            tests.given,
            tests.conditions,
            tests.def,
            &entry,
        ) {
            held.add(entry.tid());
        }
    }
}

/// Puts in rows by their numbers.
fn mark_rows(tids: &[Tid], held: &mut Tids)
    requires made { IsMade held.old }
    requires within { AllByRecursion (λ t. t.0 < held.old.bound) tids.now }
    ensures { held.new ≡ with_rows held.old (map (λ t. t.0) tids.now) }
{
    for tid in tids {
        held.add(*tid);
    }
}

/// Puts in the rows of the entries of a B-tree at which its conditions are True. Each entry within its bounds is one look. The
/// error means out of memory.
fn mark_sorted<C: Counters>(
    at: &Scene<C>,
    given: &Given,
    i: IndexNo,
    conditions: &[&Expr],
    held: &mut Tids,
    reads: &mut Steps<C::Looks>,
) -> Result<(), Memory>
    requires scene { IsSceneOf at.now given.now }
    requires index { IsIndexOn at.now.cat.now at.now.q.now at.now.rel.0 i }
    requires ordered { (index_at at.now.cat.now i).method ≡ Btree }
    requires used { AreUsedThere at.now i conditions.now }
    requires made { IsMade held.old }
    requires bound { held.old.bound ≡ length (scene_rows at.now) }
    ensures held { OnOk result (held.new ≡
        with_rows held.old (rows_meeting at.now i (lent_conditions conditions.now))) }
    ensures most { reads.new ≤ reads.old + bound_looks at.now i (lent_conditions conditions.now) }
{
    let tree = sorted_index(at, i);
    let cursor = seek(at, given, i, tree, conditions, false)?;
    let beside = at.beside();
    let def = at.cat.index(i);
    let tests = Tests {
        beside: &beside,
        given,
        conditions,
        def,
    };
    mark_entries::<C>(&tests, cursor, held, reads);
    Ok(())
}

/// Puts in the rows of a hash index at which its one condition is True. The error means out of memory.
fn mark_hashed<C: Counters>(
    at: &Scene<C>,
    given: &Given,
    i: IndexNo,
    index: &HashIndex,
    conditions: &[&Expr],
    held: &mut Tids,
) -> Result<(), Memory>
    requires scene { IsSceneOf at.now given.now }
    requires index { IsIndexOn at.now.cat.now at.now.q.now at.now.rel.0 i }
    requires table { hashed index.now ≡ scene_index at.now i }
    requires one { length conditions.now ≡ 1 }
    requires used { AreUsedThere at.now i conditions.now }
    requires made { IsMade held.old }
    requires bound { held.old.bound ≡ length (scene_rows at.now) }
    ensures held { OnOk result (held.new ≡
        with_rows held.old (rows_meeting at.now i (lent_conditions conditions.now))) }
{
    let tids = rows_equal(at, given, i, index, conditions[0])?;
    mark_rows(tids, held);
    Ok(())
}

/// Puts in the rows of the entries of an index at which its conditions are True. Each entry of a B-tree within its bounds is
/// one look. The error means out of memory.
fn mark<C: Counters>(
    at: &Scene<C>,
    given: &Given,
    i: IndexNo,
    conditions: &[&Expr],
    held: &mut Tids,
    reads: &mut Steps<C::Looks>,
) -> Result<(), Memory>
    requires scene { IsSceneOf at.now given.now }
    requires index { IsIndexOn at.now.cat.now at.now.q.now at.now.rel.0 i }
    requires takes { takes_parts (index_at at.now.cat.now i).method (length conditions.now) ≡ true }
    requires used { AreUsedThere at.now i conditions.now }
    requires made { IsMade held.old }
    requires bound { held.old.bound ≡ length (scene_rows at.now) }
    ensures held { OnOk result (held.new ≡
        with_rows held.old (rows_meeting at.now i (lent_conditions conditions.now))) }
    ensures most { reads.new ≤ reads.old + bound_looks at.now i (lent_conditions conditions.now) }
{
    match at.store.index(i) {
        BuiltIndex::Sorted(_) => mark_sorted(at, given, i, conditions, held, reads),
        BuiltIndex::Hashed(index) => mark_hashed(at, given, i, index, conditions, held),
    }
}

/// The rows of the entries of an index that meet its conditions. The error means out of memory.
fn hold_index<C: Counters>(
    at: &Scene<C>,
    given: &Given,
    i: IndexNo,
    reads: &mut Steps<C::Looks>,
) -> Result<Tids, Memory>
    requires scene { IsSceneOf at.now given.now }
    requires tree { IsSceneTree at.now (plans.leaf i) }
    ensures held { IfOk result (λ s. s ≡ scene_held at.now (plans.leaf i)) }
    ensures most { reads.new ≤ reads.old + leaf_looks at.now i }
{
    let conditions = at.conditions(i)?;
    let rows = at.heap().len();
    let mut held = Tids::empty(at.alloc, rows)?;
    mark(at, given, i, &conditions, &mut held, reads)?;
    Ok(held)
}

/// An arm as the list of its AND's parts, or itself.
#[tactic(auto, using(index_match::proofs::ArmLemmas::parts))]
fn arm_list(arm: &Expr) -> &[Expr]
    ensures { map view.cond result.now ≡ arm_parts (view.cond arm.now) }
{
    match and_parts(arm) {
        Some(parts) => parts,
        None => slice::from_ref(arm),
    }
}

/// The parts of an arm, each lent. The error means out of memory.
fn parts_of(alloc: Global, arm: &Expr) -> Result<Vec<&Expr>, Memory>
    ensures { IfOk result (λ v. lent_conditions v.items ≡ arm_parts (view.cond arm.now)) }
{
    let listed = arm_list(arm);
    let mut parts = Vec::new(alloc);
    for part in listed {
        parts.push(part)?;
    }
    Ok(parts)
}

/// Puts in the rows that an arm holds by an index that matches it. The error means out of memory.
fn mark_arm<C: Counters>(
    at: &Scene<C>,
    given: &Given,
    arm: &Expr,
    i: IndexNo,
    held: &mut Tids,
    reads: &mut Steps<C::Looks>,
) -> Result<(), Memory>
    requires scene { IsSceneOf at.now given.now }
    requires near { IsNearScene at.now (view.cond arm.now) }
    requires matched { MatchesArm at.now.cat.now at.now.q.now at.now.rel.0 (view.cond arm.now) i }
    requires made { IsMade held.old }
    requires bound { held.old.bound ≡ length (scene_rows at.now) }
    ensures held { OnOk result (held.new ≡
        with_rows held.old (rows_meeting at.now i (arm_parts (view.cond arm.now)))) }
    ensures most { reads.new ≤ reads.old + bound_looks at.now i (arm_parts (view.cond arm.now)) }
{
    let parts = parts_of(at.alloc, arm)?;
    mark(at, given, i, &parts, held, reads)
}

/// Puts in the rows that some of these arms holds, by an index for each. The error means out of memory.
fn mark_arms<C: Counters>(
    at: &Scene<C>,
    given: &Given,
    arms: &[Expr],
    indexes: &[IndexNo],
    held: &mut Tids,
    reads: &mut Steps<C::Looks>,
) -> Result<(), Memory>
    requires scene { IsSceneOf at.now given.now }
    requires near { All (λ e. IsNearScene at.now (view.cond e)) arms.now }
    requires matched { MatchArms at.now (map view.cond arms.now) indexes.now }
    requires made { IsMade held.old }
    requires bound { held.old.bound ≡ length (scene_rows at.now) }
    ensures held { OnOk result (held.new ≡
        with_scene_arms at.now held.old (map view.cond arms.now) indexes.now) }
    ensures most { reads.new ≤ reads.old + arms_looks at.now (map view.cond arms.now) indexes.now }
{
    for n in 0..arms.len() {
        mark_arm(at, given, &arms[n], indexes[n], held, reads)?;
    }
    Ok(())
}

/// The rows that some arm of an OR clause holds. The error means out of memory.
fn hold_arms<C: Counters>(
    at: &Scene<C>,
    given: &Given,
    n: u16,
    indexes: &[IndexNo],
    reads: &mut Steps<C::Looks>,
) -> Result<Tids, Memory>
    requires scene { IsSceneOf at.now given.now }
    requires tree { IsSceneTree at.now (plans.some_arm n indexes.now) }
    ensures held { IfOk result (λ s. s ≡ scene_held at.now (plans.some_arm n indexes.now)) }
    ensures most { reads.new ≤ reads.old + scene_tree_looks at.now (plans.some_arm n indexes.now) }
{
    let rows = at.heap().len();
    let mut held = Tids::empty(at.alloc, rows)?;
    match arms_at(at.q, n) {
        Some(arms) => {
            mark_arms(at, given, arms, indexes, &mut held, reads)?;
            Ok(held)
        }
        None => Ok(held),
    }
}

/// The rows that a bitmap tree holds. The error means out of memory.
#[cycle(hold)]
fn hold<C: Counters>(
    at: &Scene<C>,
    given: &Given,
    tree: &BitTree,
    reads: &mut Steps<C::Looks>,
) -> Result<Tids, Memory>
    requires scene { IsSceneOf at.now given.now }
    requires tree { IsSceneTree at.now (bits tree.now) }
    ensures held { IfOk result (λ s. s ≡ scene_held at.now (bits tree.now)) }
    ensures most { reads.new ≤ reads.old + scene_tree_looks at.now (bits tree.now) }
{
    match tree {
        BitTree::Leaf(i) => hold_index(at, given, *i, reads),
        BitTree::And(parts) => hold_all(at, given, &parts.items, reads),
        BitTree::Or(n, indexes) => hold_arms(at, given, *n, indexes, reads),
    }
}

/// The rows that each of some bitmap trees holds, of which there is one at least. The error means out of memory.
#[cycle(hold)]
fn hold_all<C: Counters>(
    at: &Scene<C>,
    given: &Given,
    trees: &[BitTree],
    reads: &mut Steps<C::Looks>,
) -> Result<Tids, Memory>
    requires scene { IsSceneOf at.now given.now }
    requires trees { AreSceneTrees at.now (bits_all trees.now) }
    requires some { 0 < length trees.now }
    ensures held { IfOk result (λ s. s ≡ scene_held at.now (plans.all_hold (bits_all trees.now))) }
    ensures most { reads.new ≤ reads.old + trees_looks at.now (bits_all trees.now) }
{
    let mut held = hold(at, given, &trees[0], reads)?;
    for n in 1..trees.len() {
        let other = hold(at, given, &trees[n], reads)?;
        held.and(&other);
    }
    Ok(held)
}

/// The scan of the rows that a bitmap tree holds. The tree's looks come first. The error means out of memory.
pub(crate) fn bit_rows<'a, C: Counters>(
    at: &Scene<'a, '_, C>,
    given: Given<'a>,
    tree: &BitTree,
    reads: &mut Steps<C::Looks>,
) -> Result<BitRows<'a, C>, Memory>
    requires scene { IsSceneOf at.now given }
    requires scan { IsSceneBitmap at.now (bits tree.now) }
    ensures coming { IfOk result (λ s. s ≡ bitmap_rows at.now (bits tree.now)) }
    ensures most { reads.new ≤ reads.old + scene_tree_looks at.now (bits tree.now) }
{
    let held = hold(at, &given, tree, reads)?;
    let clauses = at.clauses()?;
    let beside = at.beside();
    let heap = at.heap();
    Ok(BitRows::start(beside, given, clauses, heap, held))
}
