//! Nested loops of two sets (PostgreSQL, src/backend/optimizer/path/joinpath.c, match_unsorted_outer).

ghost use Rattle.std.specs.Prelude.{◌≡◌, Contains, IfOk, IsTrue, List, OnOk, map};
ghost use Rattle.pg_base.specs.Sets.{has};
ghost use Rattle.eq_classes.specs.Holding.{IsWithin};
ghost use Rattle.plan_tree.specs.Paths as kept;
ghost use Rattle.plan_tree.specs.work.Paths as kept_work;
ghost use Rattle.plan_tree.specs.Plans as plans;
ghost use Rattle.plan_tree.specs.work.Views.{path, plan};
ghost use Rattle.join_search.specs.work.Joins.{IsKept};
ghost use Rattle.join_search.specs.work.Nests.{AreTested, IsInnerOf, nest_operators};
ghost use Rattle.join_search.specs.work.Offers.{ServesEach, ServesEarly, ServesNests, Takes};
ghost use Rattle.join_search.specs.work.Splits.{AreJoinsOf, IsOuterOf, IsOver, inners_of, outers_of};
ghost use Rattle.join_search.specs.work.Tables.{paths_at};
ghost use Rattle.pg_base.specs.declared.rel_set.RelSet as sets;
ghost use Rattle.join_search.specs.work.Outcomes.{IsKeptOfNest, ServesEachIfEarly, ServesNest};

use crate::merges::{are_past, least_of};
use crate::offers::{cheapest, is_passed_over, offer_join};
use crate::past::repeated;
use crate::splits::{Split, path_rows, some_relation};
use cost_rules::{Pair, nest};
use eq_classes::ClauseSet;
use kept_paths::KeptPaths;
use path_cost::operators_of;
use pg_base::{Memory, RelSet};
use plan_tree::{Path, Plan, classes_of, cost_of};
use std::alloc::Global;

/// The clauses that nested loops of the outer set with an inner path test.
fn clauses_tested(j: &Split, inner: &Path) -> ClauseSet
    requires over { IsOver j.now }
    requires inner { IsInnerOf j.now (path inner.now) }
    ensures { AreTested j.now.q.now j.now.outer (path inner.now).tree result }
{
    let classes = classes_of(j.q);
    if inner.param.0 == 0 {
        classes.join_clauses(j.outer, j.inner)
    } else {
        classes.join_param_clauses(j.outer, some_relation(j.inner), inner.param)
    }
}

/// The operators of the clauses that nested loops of the outer set with an inner path test, cut to 2^64 - 1.
fn nest_ops(j: &Split, inner: &Path) -> u64
    requires over { IsOver j.now }
    requires inner { IsInnerOf j.now (path inner.now) }
    ensures { result ≡ nest_operators j.now.q.now j.now.outer (path inner.now).tree }
{
    let none = ClauseSet::empty();
    let tested = clauses_tested(j, inner);
    let classes = classes_of(j.q);
    operators_of(classes, &tested, &none, &none)
}

/// The cost of a nested loop with so many operators, as a path keeps it, cut to at most 10^18.
fn nest_kept(j: &Split, outer: &Path, inner: &Path, ops: u64) -> Pair
    requires over { IsOver j.now }
    requires outer { IsOuterOf j.now (path outer.now) }
    requires inner { IsInnerOf j.now (path inner.now) }
    ensures { IsKeptOfNest j.now outer.now inner.now ops result }
{
    let outer_cost = cost_of(j.cat, j.q, outer);
    let inner_cost = cost_of(j.cat, j.q, inner);
    let rows = path_rows(j.cat, j.q, inner);
    nest(outer_cost, inner_cost, j.outer_rows, rows, ops)
}

/// The nested loop of two plans, copied. The error means out of memory.
fn nest_of(alloc: Global, outer: &Plan, inner: &Plan) -> Result<Plan, Memory>
    ensures { IfOk result (λ t. plan t ≡ plans.nest (plan outer.now) (plan inner.now)) }
{
    let outer = Box::new(alloc, outer.copy(alloc)?)?;
    let inner = Box::new(alloc, inner.copy(alloc)?)?;
    Ok(Plan::Nest { outer, inner })
}

/// Offers the nested loop of two paths to the front of their set, unless it may be passed over: its operators are counted only
/// where it may not be without them. The error means out of memory.
fn offer_nest(
    alloc: Global,
    j: &Split,
    outer: &Path,
    inner: &Path,
    front: &mut KeptPaths,
) -> Result<(), Memory>
    requires over { IsOver j.now }
    requires outer { Contains (outers_of j.now) (path outer.now) }
    requires inner { IsInnerOf j.now (path inner.now) }
    requires kept { IsKept (paths_at j.now.table.now) (path inner.now).tree }
    requires joins { AreJoinsOf j.now (map path front.old) }
    ensures takes { Takes j.now (map path front.old) (map path front.new) }
    ensures served { OnOk result (ServesNest j.now front.new outer.now inner.now) }
{
    let least = nest_kept(j, outer, inner, 0);
    if is_passed_over(alloc, j, least, &outer.keys, front)? {
        return Ok(());
    }
    let ops = nest_ops(j, inner);
    let cost = nest_kept(j, outer, inner, ops);
    if is_passed_over(alloc, j, cost, &outer.keys, front)? {
        return Ok(());
    }
    let t = nest_of(alloc, &outer.plan, &inner.plan)?;
    let keys = outer.keys.copy(alloc)?;
    offer_join(alloc, j, t, cost, keys, front)
}

/// Offers the nested loops of each outer path with an inner one. The error means out of memory.
fn offer_each_nest(
    alloc: Global,
    j: &Split,
    outers: &[Path],
    inner: &Path,
    front: &mut KeptPaths,
) -> Result<(), Memory>
    requires over { IsOver j.now }
    requires outers { map path outers.now ≡ outers_of j.now }
    requires inner { IsInnerOf j.now (path inner.now) }
    requires kept { IsKept (paths_at j.now.table.now) (path inner.now).tree }
    requires joins { AreJoinsOf j.now (map path front.old) }
    ensures takes { Takes j.now (map path front.old) (map path front.new) }
    ensures served { OnOk result (ServesEach j.now (map path front.new) (path inner.now).tree) }
{
    for outer in outers {
        offer_nest(alloc, j, outer, inner, front)?;
    }
    Ok(())
}

/// Offers the nested loops of each outer path with an inner one of a parameterisation that is of the outer set. The error means
/// out of memory.
fn offer_nests_of(
    alloc: Global,
    j: &Split,
    p: RelSet,
    inner: &Path,
    front: &mut KeptPaths,
) -> Result<(), Memory>
    requires over { IsOver j.now }
    requires given { IsWithin (has p.0) (has j.now.outer.0) }
    requires inner { Contains (inners_of j.now p) (path inner.now) }
    requires joins { AreJoinsOf j.now (map path front.old) }
    ensures takes { Takes j.now (map path front.old) (map path front.new) }
    ensures served { OnOk result (ServesEach j.now (map path front.new) (path inner.now).tree) }
{
    offer_each_nest(alloc, j, j.outers, inner, front)
}

/// Offers the same, where the inner path starts before a cost. The error means out of memory.
fn offer_if_early(
    alloc: Global,
    j: &Split,
    p: RelSet,
    inner: &Path,
    startup: u64,
    front: &mut KeptPaths,
) -> Result<(), Memory>
    requires over { IsOver j.now }
    requires given { IsWithin (has p.0) (has j.now.outer.0) }
    requires inner { Contains (inners_of j.now p) (path inner.now) }
    requires joins { AreJoinsOf j.now (map path front.old) }
    ensures takes { Takes j.now (map path front.old) (map path front.new) }
    ensures served { OnOk result (ServesEachIfEarly j.now front.new inner.now startup) }
{
    if inner.startup >= startup {
        return Ok(());
    }
    offer_nests_of(alloc, j, p, inner, front)
}

/// Offers nested loops of the outer set with the inner paths of a parameterisation that is of the outer set: with those that
/// start before a cost. The error means out of memory.
fn offer_early(
    alloc: Global,
    j: &Split,
    p: RelSet,
    inners: &[Path],
    startup: u64,
    front: &mut KeptPaths,
) -> Result<(), Memory>
    requires over { IsOver j.now }
    requires given { IsWithin (has p.0) (has j.now.outer.0) }
    requires inners { map path inners.now ≡ inners_of j.now p }
    requires joins { AreJoinsOf j.now (map path front.old) }
    ensures takes { Takes j.now (map path front.old) (map path front.new) }
    ensures served { OnOk result (ServesEarly j.now (map path front.new) startup p) }
{
    for inner in inners {
        offer_if_early(alloc, j, p, inner, startup, front)?;
    }
    Ok(())
}

/// Whether all nested loops of the outer set with the inner paths of a parameterisation are past the limit, as what their
/// sides cost at least tells.
fn are_nests_past(j: &Split, p: RelSet, inners: &[Path]) -> bool
    requires over { IsOver j.now }
    requires inners { map path inners.now ≡ inners_of j.now p }
    ensures { IsTrue result → (front : List kept_work.Path) → ServesNests j.now front p }
{
    let outer = least_of(j.outers);
    let inner = least_of(inners);
    let each = repeated(inner, j.outer_rows);
    are_past(j, outer, each)
}

/// Offers nested loops of the outer set with the inner paths of a parameterisation that is of the outer set: those with the
/// cheapest of them, and with each that starts earlier. No other one costs less before its first row or in all. The error means
/// out of memory.
fn offer_nests_given(
    alloc: Global,
    j: &Split,
    p: RelSet,
    inners: &[Path],
    front: &mut KeptPaths,
) -> Result<(), Memory>
    requires over { IsOver j.now }
    requires given { IsWithin (has p.0) (has j.now.outer.0) }
    requires inners { map path inners.now ≡ inners_of j.now p }
    requires joins { AreJoinsOf j.now (map path front.old) }
    ensures takes { Takes j.now (map path front.old) (map path front.new) }
    ensures served { OnOk result (ServesNests j.now (map path front.new) p) }
{
    if are_nests_past(j, p, inners) {
        return Ok(());
    }
    match cheapest(inners) {
        Some(least) => {
            offer_nests_of(alloc, j, p, least, front)?;
            offer_early(alloc, j, p, inners, least.startup, front)
        }
        None => Ok(()),
    }
}

/// Offers nested loops of the outer set with the inner paths of a parameterisation, where it is of the outer set. The error
/// means out of memory.
fn offer_nests_if(alloc: Global, j: &Split, p: RelSet, front: &mut KeptPaths) -> Result<(), Memory>
    requires over { IsOver j.now }
    requires joins { AreJoinsOf j.now (map path front.old) }
    ensures takes { Takes j.now (map path front.old) (map path front.new) }
    ensures served { OnOk result (ServesNests j.now (map path front.new) p) }
{
    if p.within(j.outer) {
        let inners = j.table.paths(j.inner, p);
        offer_nests_given(alloc, j, p, inners, front)?;
    }
    Ok(())
}

/// Offers the nested loops of two sets to the front of both: those of every outer path with inner ones that are given no rows
/// or rows of the outer set alone. The error means out of memory.
pub(crate) fn offer_nests(alloc: Global, j: &Split, front: &mut KeptPaths) -> Result<(), Memory>
    requires over { IsOver j.now }
    requires joins { AreJoinsOf j.now (map path front.old) }
    ensures takes { Takes j.now (map path front.old) (map path front.new) }
    ensures served { OnOk result ((p : sets.RelSet) → ServesNests j.now (map path front.new) p) }
{
    let params = j.table.params(alloc, j.inner)?;
    for p in &params {
        offer_nests_if(alloc, j, *p, front)?;
    }
    Ok(())
}
