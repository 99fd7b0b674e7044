//! Merge joins of two sets (PostgreSQL, src/backend/optimizer/path/joinpath.c, sort_inner_and_outer and
//! match_unsorted_outer).

ghost use Rattle.std.specs.Prelude.{◌≡◌, ◌≤◌, All, Contains, IfOk, IsTrue, OnOk, map};
ghost use Rattle.cost_rules.specs.work.Costs.{IsEstimate};
ghost use Rattle.pathkeys.specs.Keys as keys;
ghost use Rattle.pathkeys.specs.work.Keys as keys_work;
ghost use Rattle.plan_tree.specs.work.Views.{path, plan};
ghost use Rattle.join_search.specs.work.Joins.{IsPathAt};
ghost use Rattle.join_search.specs.work.Merges.{ArePast, IsNoCheaper, IsInnerSide, IsListOf, IsMergeWork, IsOuterSide, ServesEarlyPlain, ServesEarlySides, side_path};
ghost use Rattle.join_search.specs.work.Merges as merges;
ghost use Rattle.join_search.specs.work.Offers.{ServesMerges, Takes};
ghost use Rattle.join_search.specs.work.Splits.{AreJoinsOf, IsOuterOf, IsOver, inners_of, outers_of};
ghost use Rattle.join_search.specs.work.Tables.{none};
ghost use Rattle.join_search.specs.work.Outcomes.{IsKeptOfMerge, NeedsNoMerges, ServesIfEarly, ServesInOrder, ServesMerge, ServesPlainSide, ServesSide, ServesSortIfEarly, ServesSortedSide};

use crate::lists::merge_lists;
use crate::offers::{cheapest, is_passed_over, least_cost, offer_join};
use crate::past::is_past;
use crate::sides::{Side, best_side, keys_of, plan_of, side_cost};
use crate::splits::Split;
use catalog::Catalog;
use cost_rules::{Pair, merge};
use eq_classes::ClauseSet;
use kept_paths::KeptPaths;
use path_cost::{key_pairs, operators_of, pairs};
use pathkeys::{Keys, covers};
use pg_base::Memory;
use plan_tree::{Path, Plan, classes_of, range_of};
use std::alloc::Global;

/// What merges of two sets by a list are computed from.
#[derive(Clone, Copy)]
pub(crate) struct MergeWork {
    /// The pairs of rows that are equal in the list.
    pub(crate) pairs: u64,
    /// The operators of the other clauses that the merges test, cut to 2^64 - 1.
    pub(crate) ops: u64,
}

/// What merges of two sets by a list are computed from.
fn merge_work(j: &Split, by: &Keys) -> MergeWork
    requires over { IsOver j.now }
    ensures { IsMergeWork j.now.cat.now j.now.q.now j.now by.now result }
{
    let classes = classes_of(j.q);
    let none = ClauseSet::empty();
    let list = by.items();
    let equal = key_pairs(classes, j.outer, j.inner, list);
    let tested = classes.join_clauses(j.outer, j.inner);
    let rows = pairs(j.cat, range_of(j.q), classes, j.outer, j.inner, list);
    let ops = operators_of(classes, &tested, &none, &equal);
    MergeWork { pairs: rows, ops }
}

/// The cost of a merge that is computed from so much, as a path keeps it, cut to at most 10^18.
fn merge_kept(j: &Split, by: &Keys, outer: Side, inner: Side, work: MergeWork) -> Pair
    requires over { IsOver j.now }
    requires list { IsListOf j.now by.now }
    requires outer { IsOuterOf j.now (side_path outer) }
    requires inner { IsPathAt j.now.cat.now j.now.q.now j.now.inner none (side_path inner) }
    requires pairs { IsEstimate work.pairs }
    ensures { IsKeptOfMerge j.now by.now outer.entry inner.entry work result }
{
    let outer_cost = side_cost(j.cat, j.q, j.outer, j.outer_rows, outer);
    let inner_cost = side_cost(j.cat, j.q, j.inner, j.inner_rows, inner);
    let list = by.items();
    let keys = list.len() as u64;
    merge(
        outer_cost,
        inner_cost,
        j.outer_rows,
        j.inner_rows,
        keys,
        work.pairs,
        work.ops,
    )
}

/// The merge of two sides, copied. The error means out of memory.
fn merge_of(alloc: Global, by: &Keys, outer: Side, inner: Side) -> Result<Plan, Memory>
    ensures { IfOk result (λ t. plan t ≡ merges.merge_of by.now outer.entry inner.entry) }
{
    let keys = by.copy(alloc)?;
    let outer = Box::new(alloc, plan_of(alloc, outer, by)?)?;
    let inner = Box::new(alloc, plan_of(alloc, inner, by)?)?;
    Ok(Plan::Merge { keys, outer, inner })
}

/// Offers the merge of two sides to the front of their set, unless it may be passed over: its pairs of rows and its operators
/// are worked out only where it may not be with the least of them. The error means out of memory.
fn offer_merge(
    alloc: Global,
    j: &Split,
    by: &Keys,
    outer: Side,
    inner: Side,
    front: &mut KeptPaths,
) -> Result<(), Memory>
    requires over { IsOver j.now }
    requires list { IsListOf j.now by.now }
    requires outer { IsOuterSide j.now by.now outer }
    requires inner { IsInnerSide j.now by.now inner }
    requires joins { AreJoinsOf j.now (map path front.old) }
    ensures takes { Takes j.now (map path front.old) (map path front.new) }
    ensures served { OnOk result (ServesMerge j.now front.new by.now outer.entry inner.entry) }
{
    let one = MergeWork { pairs: 1, ops: 0 };
    let least = merge_kept(j, by, outer, inner, one);
    let keys = keys_of(alloc, outer, by)?;
    if is_passed_over(alloc, j, least, &keys, front)? {
        return Ok(());
    }
    let work = merge_work(j, by);
    let cost = merge_kept(j, by, outer, inner, work);
    if is_passed_over(alloc, j, cost, &keys, front)? {
        return Ok(());
    }
    let t = merge_of(alloc, by, outer, inner)?;
    offer_join(alloc, j, t, cost, keys, front)
}

/// Offers the merge by a list of an outer path with an inner side, where the path's keys begin with the list. The error means
/// out of memory.
fn offer_in_order(
    alloc: Global,
    j: &Split,
    by: &Keys,
    outer: &Path,
    inner: Side,
    front: &mut KeptPaths,
) -> Result<(), Memory>
    requires over { IsOver j.now }
    requires list { IsListOf j.now by.now }
    requires outer { Contains (outers_of j.now) (path outer.now) }
    requires inner { IsInnerSide j.now by.now inner }
    requires joins { AreJoinsOf j.now (map path front.old) }
    ensures takes { Takes j.now (map path front.old) (map path front.new) }
    ensures served { OnOk result (ServesInOrder j.now front.new by.now outer.now inner.entry) }
{
    if !covers(&outer.keys, by) {
        return Ok(());
    }
    let side = Side {
        path: outer,
        sorted: false,
    };
    offer_merge(alloc, j, by, side, inner, front)
}

/// Offers the merges by a list of the outer paths whose keys begin with it with an inner side. The error means out of memory.
fn offer_plain(
    alloc: Global,
    j: &Split,
    by: &Keys,
    outers: &[Path],
    inner: Side,
    front: &mut KeptPaths,
) -> Result<(), Memory>
    requires over { IsOver j.now }
    requires list { IsListOf j.now by.now }
    requires outers { map path outers.now ≡ outers_of j.now }
    requires inner { IsInnerSide j.now by.now inner }
    requires joins { AreJoinsOf j.now (map path front.old) }
    ensures takes { Takes j.now (map path front.old) (map path front.new) }
    ensures served { OnOk result (ServesPlainSide j.now front.new by.now inner.entry) }
{
    for outer in outers {
        offer_in_order(alloc, j, by, outer, inner, front)?;
    }
    Ok(())
}

/// Offers the merge by a list of the cheapest outer path, sorted, with an inner side. The error means out of memory.
fn offer_sorted(
    alloc: Global,
    j: &Split,
    by: &Keys,
    outers: &[Path],
    inner: Side,
    front: &mut KeptPaths,
) -> Result<(), Memory>
    requires over { IsOver j.now }
    requires list { IsListOf j.now by.now }
    requires outers { map path outers.now ≡ outers_of j.now }
    requires inner { IsInnerSide j.now by.now inner }
    requires joins { AreJoinsOf j.now (map path front.old) }
    ensures takes { Takes j.now (map path front.old) (map path front.new) }
    ensures served { OnOk result (ServesSortedSide j.now front.new by.now inner.entry) }
{
    match cheapest(outers) {
        Some(path) => {
            let outer = Side { path, sorted: true };
            offer_merge(alloc, j, by, outer, inner, front)
        }
        None => Ok(()),
    }
}

/// Offers the merges by a list of each outer side with an inner one. The error means out of memory.
fn offer_side(
    alloc: Global,
    j: &Split,
    by: &Keys,
    inner: Side,
    front: &mut KeptPaths,
) -> Result<(), Memory>
    requires over { IsOver j.now }
    requires list { IsListOf j.now by.now }
    requires inner { IsInnerSide j.now by.now inner }
    requires joins { AreJoinsOf j.now (map path front.old) }
    ensures takes { Takes j.now (map path front.old) (map path front.new) }
    ensures served { OnOk result (ServesSide j.now front.new by.now inner.entry) }
{
    offer_plain(alloc, j, by, j.outers, inner, front)?;
    offer_sorted(alloc, j, by, j.outers, inner, front)
}

/// Offers the merges by a list of each outer side with an inner path, where its keys begin with the list and it starts before a
/// cost. The error means out of memory.
fn offer_if_early(
    alloc: Global,
    j: &Split,
    by: &Keys,
    inner: &Path,
    startup: u64,
    front: &mut KeptPaths,
) -> Result<(), Memory>
    requires over { IsOver j.now }
    requires list { IsListOf j.now by.now }
    requires inner { Contains (inners_of j.now none) (path inner.now) }
    requires joins { AreJoinsOf j.now (map path front.old) }
    ensures takes { Takes j.now (map path front.old) (map path front.new) }
    ensures served { OnOk result (ServesIfEarly j.now front.new by.now inner.now startup) }
{
    if inner.startup >= startup {
        return Ok(());
    }
    if !covers(&inner.keys, by) {
        return Ok(());
    }
    let side = Side {
        path: inner,
        sorted: false,
    };
    offer_side(alloc, j, by, side, front)
}

/// Offers the merges by a list of each outer side with the inner paths whose keys begin with the list and that start before a
/// cost. The error means out of memory.
fn offer_early_plain(
    alloc: Global,
    j: &Split,
    by: &Keys,
    inners: &[Path],
    startup: u64,
    front: &mut KeptPaths,
) -> Result<(), Memory>
    requires over { IsOver j.now }
    requires list { IsListOf j.now by.now }
    requires inners { map path inners.now ≡ inners_of j.now none }
    requires joins { AreJoinsOf j.now (map path front.old) }
    ensures takes { Takes j.now (map path front.old) (map path front.new) }
    ensures served { OnOk result (ServesEarlyPlain j.now (map path front.new) by.now startup) }
{
    for inner in inners {
        offer_if_early(alloc, j, by, inner, startup, front)?;
    }
    Ok(())
}

/// Offers the merges by a list of each outer side with the sort of an inner path, where it starts before a cost. The error
/// means out of memory.
fn offer_sort_if_early(
    alloc: Global,
    j: &Split,
    by: &Keys,
    inner: &Path,
    startup: u64,
    front: &mut KeptPaths,
) -> Result<(), Memory>
    requires over { IsOver j.now }
    requires list { IsListOf j.now by.now }
    requires inner { Contains (inners_of j.now none) (path inner.now) }
    requires joins { AreJoinsOf j.now (map path front.old) }
    ensures takes { Takes j.now (map path front.old) (map path front.new) }
    ensures served { OnOk result (ServesSortIfEarly j.now front.new by.now inner.now startup) }
{
    let side = Side {
        path: inner,
        sorted: true,
    };
    let cost = side_cost(j.cat, j.q, j.inner, j.inner_rows, side);
    if cost.startup >= startup {
        return Ok(());
    }
    offer_side(alloc, j, by, side, front)
}

/// Offers the merges by a list of each outer side with the inner sides that start before a cost: paths whose keys begin with
/// the list, and the sort of the cheapest one, which starts first of all sorts. The error means out of memory.
fn offer_early_sides(
    alloc: Global,
    j: &Split,
    by: &Keys,
    inners: &[Path],
    startup: u64,
    front: &mut KeptPaths,
) -> Result<(), Memory>
    requires over { IsOver j.now }
    requires list { IsListOf j.now by.now }
    requires inners { map path inners.now ≡ inners_of j.now none }
    requires joins { AreJoinsOf j.now (map path front.old) }
    ensures takes { Takes j.now (map path front.old) (map path front.new) }
    ensures served { OnOk result (ServesEarlySides j.now (map path front.new) by.now startup) }
{
    offer_early_plain(alloc, j, by, inners, startup, front)?;
    match cheapest(inners) {
        Some(least) => offer_sort_if_early(alloc, j, by, least, startup, front),
        None => Ok(()),
    }
}

/// Offers the merges of two sets by a list: with the inner side that costs least in all, and with each that starts earlier. The
/// error means out of memory.
fn offer_merges_by(
    alloc: Global,
    j: &Split,
    by: &Keys,
    inners: &[Path],
    front: &mut KeptPaths,
) -> Result<(), Memory>
    requires over { IsOver j.now }
    requires list { IsListOf j.now by.now }
    requires inners { map path inners.now ≡ inners_of j.now none }
    requires joins { AreJoinsOf j.now (map path front.old) }
    ensures takes { Takes j.now (map path front.old) (map path front.new) }
    ensures served { OnOk result (ServesMerges j.now (map path front.new) by.now) }
{
    let cat: &Catalog = j.cat;
    cat.lawful();
    match best_side(cat, j.q, j.inner, j.inner_rows, inners, by) {
        Some(best) => {
            let cost = side_cost(cat, j.q, j.inner, j.inner_rows, best);
            offer_side(alloc, j, by, best, front)?;
            offer_early_sides(alloc, j, by, inners, cost.startup, front)
        }
        None => Ok(()),
    }
}

/// The least cost of some paths before the first row, or more than any where there are none.
fn least_startup(paths: &[Path]) -> u64
    ensures { All (λ p. result ≤ p.startup) paths.now }
{
    match paths.iter().min_by_key(|p| p.startup) {
        Some(p) => p.startup,
        None => u64::MAX,
    }
}

/// A cost that no path of some is below, neither before its first row nor in all.
pub(crate) fn least_of(paths: &[Path]) -> Pair
    ensures { All (IsNoCheaper result) (map path paths.now) }
{
    Pair {
        startup: least_startup(paths),
        total: least_cost(paths),
    }
}

/// Whether two sides that cost so much are together past the limit.
pub(crate) fn are_past(j: &Split, outer: Pair, inner: Pair) -> bool
    requires { IsEstimate j.now.whole }
    ensures { IsTrue result → ArePast j.now outer inner }
{
    is_past(j.q, j.asked, j.whole, outer, inner)
}

/// Whether all merges of two sets are past the limit, as what their sides cost at least tells.
fn are_merges_past(j: &Split) -> bool
    requires over { IsOver j.now }
    ensures { IsTrue result → NeedsNoMerges j.now }
{
    let cat: &Catalog = j.cat;
    cat.lawful();
    let outer = least_of(j.outers);
    let inner = least_of(j.inners);
    are_past(j, outer, inner)
}

/// Offers the merges of two sets to the front of both, by each of their lists. The error means out of memory.
pub(crate) fn offer_merges(alloc: Global, j: &Split, front: &mut KeptPaths) -> Result<(), Memory>
    requires over { IsOver j.now }
    requires joins { AreJoinsOf j.now (map path front.old) }
    ensures takes { Takes j.now (map path front.old) (map path front.new) }
    ensures served { OnOk result ((by : keys.Keys) → ServesMerges j.now (map path front.new) by) }
{
    if j.inners.is_empty() {
        return Ok(());
    }
    if are_merges_past(j) {
        return Ok(());
    }
    let lists = merge_lists(alloc, j.cat, j.q, j.outer, j.inner)?;
    for by in &lists {
        offer_merges_by(alloc, j, by, j.inners, front)?;
    }
    Ok(())
}
