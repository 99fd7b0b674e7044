//! The search over all sets of relations, from small ones to great ones.

ghost use Rattle.std.specs.Prelude.{◌≡◌, ◌<◌, ◌≤◌, ◌⊎◌, ◌+◌, ◌^◌, All, Contains, IfOk, IsTrue, OnOk, [], false, map};
ghost use Rattle.pg_base.specs.declared.rel_set.RelSet as sets;
ghost use Rattle.cost_rules.specs.work.Costs.{IsEstimate};
ghost use Rattle.plan_tree.specs.work.Reads.{IsOverTables};
ghost use Rattle.plan_tree.specs.work.Views.{path};
ghost use Rattle.pareto.specs.work.Front.{AreKeptOr};
ghost use Rattle.join_search.specs.work.Joins.{AreAllCovered, ArePlaced, HasNoDominatedJoins, HasOnlyJoins, HaveSameScans, IsBase, IsPathAt};
ghost use Rattle.join_search.specs.work.Offers.{AreTargetServed, IsPartServed, Takes, TargetTakes};
ghost use Rattle.join_search.specs.work.Splits.{HasEachFilled, AreJoinsOf, AreTargetJoins, AreTargetPaths, IsDivided, IsOver, IsTarget, IsTask};
ghost use Rattle.join_search.specs.work.Tables.{none, paths_at};
ghost use Rattle.join_search.specs.work.Search.{DoesNext, IsDoneTo};
ghost use Rattle.join_search.specs.work.Outcomes.{AreTargetUndominated, AreTaskJoins, AreTaskUndominated, HasSufficientFor, IsSetServed, IsTargetServed, LacksJoins, ServesJoins, StaysDominated, StaysEnough, set_rows_of};

use crate::merges::offer_merges;
use crate::nests::offer_nests;
use crate::offers::cheapest;
use crate::past::are_joins_past;
use crate::splits::{
    Split, Target, Task, all_relations, is_single, path_rows, set_rows, sets_of, whole_rows,
};
use crate::table::Table;
use crate::useful::{Asked, order_asked, useful};
use catalog::Catalog;
use kept_paths::KeptPaths;
use pareto::Front;
use pg_base::{Memory, RelSet};
use plan_tree::{Path, cost_of, range_of};
use sql_query::Prepared;
use std::alloc::{AllocError, Global};

/// Offers the joins of two sides to the front of both. The error means out of memory.
fn offer_split(alloc: Global, j: &Split, front: &mut KeptPaths) -> Result<(), Memory>
    requires over { IsOver j.now }
    requires joins { AreJoinsOf j.now (map path front.old) }
    ensures takes { Takes j.now (map path front.old) (map path front.new) }
    ensures served { OnOk result (ServesJoins j.now front.new) }
{
    offer_nests(alloc, j, front)?;
    offer_merges(alloc, j, front)
}

/// The rows of a set that is given none, by one of its paths.
fn rows_by(at: &Target, set: RelSet, paths: &[Path]) -> u64
    requires at { IsTarget at.now }
    requires paths { map path paths.now ≡ paths_at at.now.table.now set none }
    ensures rows { result ≡ set_rows_of at.now.cat.now at.now.q.now set }
    ensures estimate { IsEstimate result }
{
    match cheapest(paths) {
        Some(p) => path_rows(at.cat, at.q, p),
        None => set_rows(at.cat, at.q, set),
    }
}

/// Offers the joins of a part of a set, of which these are the paths, with the rest. The error means out of memory.
fn offer_sides(
    alloc: Global,
    at: &Target,
    outer: RelSet,
    inner: RelSet,
    outers: &[Path],
    front: &mut KeptPaths,
) -> Result<(), Memory>
    requires at { IsTarget at.now }
    requires divided { IsDivided at.now.set outer inner }
    requires outers { map path outers.now ≡ paths_at at.now.table.now outer none }
    requires joins { AreTargetJoins at.now (map path front.old) }
    ensures takes { TargetTakes at.now (map path front.old) (map path front.new) }
    ensures served { OnOk result (AreTargetServed at.now (map path front.new) outer inner) }
{
    let inners = at.table.paths(inner, RelSet(0));
    let outer_rows = rows_by(at, outer, outers);
    let inner_rows = rows_by(at, inner, inners);
    let j = Split {
        cat: at.cat,
        q: at.q,
        asked: at.asked,
        whole: at.whole,
        order: at.order,
        table: at.table,
        set: at.set,
        rows: at.rows,
        outside: at.outside,
        outer,
        inner,
        outer_rows,
        inner_rows,
        outers,
        inners,
    };
    offer_split(alloc, &j, front)
}

/// Offers the joins of a set with the rest of a greater one, where it is a part of that one and both have paths. The error
/// means out of memory.
fn offer_part(alloc: Global, at: &Target, part: RelSet, front: &mut KeptPaths) -> Result<(), Memory>
    requires at { IsTarget at.now }
    requires some { 1 ≤ part.0 }
    requires less { part.0 < at.now.set.0 }
    requires joins { AreTargetJoins at.now (map path front.old) }
    ensures takes { TargetTakes at.now (map path front.old) (map path front.new) }
    ensures served { OnOk result (IsPartServed at.now (map path front.new) part) }
{
    if !part.within(at.set) {
        return Ok(());
    }
    let outers = at.table.paths(part, RelSet(0));
    if outers.is_empty() {
        return Ok(());
    }
    let rest = at.set.minus(part);
    if at.table.is_bare(rest) {
        return Ok(());
    }
    offer_sides(alloc, at, part, rest, outers, front)
}

/// Whether a set may be a part of another one: it is not empty, and has the smaller number.
fn may_be_part(set: RelSet, part: RelSet) -> bool
    ensures some { IsTrue result → 1 ≤ part.0 }
    ensures less { IsTrue result → part.0 < set.0 }
    ensures no { result ≡ false → (b : sets.RelSet) → ¬ IsDivided set part b }
{
    if part.is_empty() {
        return false;
    }
    part.0 < set.0
}

/// Offers the joins of a set with the rest of another one, where it is a part of that one and both have paths. The error means
/// out of memory.
pub(crate) fn offer_side(
    alloc: Global,
    at: &Target,
    part: RelSet,
    front: &mut KeptPaths,
) -> Result<(), Memory>
    requires at { IsTarget at.now }
    requires joins { AreTargetJoins at.now (map path front.old) }
    ensures takes { TargetTakes at.now (map path front.old) (map path front.new) }
    ensures served { OnOk result (IsPartServed at.now (map path front.new) part) }
{
    if !may_be_part(at.set, part) {
        return Ok(());
    }
    offer_part(alloc, at, part, front)
}

/// Keeps a path of a set unless one that is kept costs no more, with keys that begin with its part of use. The error means out
/// of memory.
fn keep(alloc: Global, at: &Target, kept: &mut KeptPaths, made: Path) -> Result<(), Memory>
    requires at { IsTarget at.now }
    requires paths { AreTargetPaths at.now (map path kept.old) }
    requires made { IsPathAt at.now.cat.now at.now.q.now at.now.set none (path made) }
    ensures some { AreKeptOr kept.old made kept.new }
    ensures still { StaysDominated at.now kept.old kept.new }
    ensures enough { OnOk result (HasSufficientFor at.now kept.new made) }
{
    let cat: &Catalog = at.cat;
    cat.lawful();
    let cost = cost_of(cat, at.q, &made);
    let part = useful(alloc, at.q, at.asked, at.order, at.outside, &made.keys)?;
    if kept.is_beaten(alloc, cost, &part)? {
        return Ok(());
    }
    kept.offer(alloc, made)
}

/// The front of some paths of a set: the first of them, and of the others those that have keys of use or cost less than each
/// one before. The error means out of memory.
fn front_among(alloc: Global, at: &Target, paths: Vec<Path>) -> Result<Front<Path>, Memory>
    requires at { IsTarget at.now }
    requires paths { AreTargetPaths at.now (map path paths.items) }
    ensures some { IfOk result (λ f. All (Contains (map path paths.items)) (map path f)) }
    ensures enough { IfOk result (λ f. StaysEnough at.now paths.items f) }
    ensures undominated { IfOk result (λ f. AreTargetUndominated at.now f) }
{
    let mut kept = KeptPaths::new(alloc);
    for made in paths {
        keep(alloc, at, &mut kept, made)?;
    }
    let front = kept.into_front(alloc)?;
    let _paths = front.items();
    Ok(front)
}

/// The front of the paths that are kept of a set, where of two whose keys are of equal use the cheaper one suffices. The error
/// means out of memory.
pub(crate) fn front_of(alloc: Global, at: &Target, kept: KeptPaths) -> Result<Front<Path>, Memory>
    requires at { IsTarget at.now }
    requires paths { AreTargetPaths at.now (map path kept) }
    ensures some { IfOk result (λ f. All (Contains (map path kept)) (map path f)) }
    ensures enough { IfOk result (λ f. StaysEnough at.now kept f) }
    ensures undominated { IfOk result (λ f. AreTargetUndominated at.now f) }
{
    let mut paths = kept.into_paths();
    paths.sort_by_key(|p| p.cost)?;
    front_among(alloc, at, paths)
}

/// The front of a set: the joins of each of its parts that have paths with the rest. The error means out of memory.
fn joins_of(alloc: Global, at: &Target, filled: &[RelSet]) -> Result<Front<Path>, Memory>
    requires at { IsTarget at.now }
    requires filled { HasEachFilled (paths_at at.now.table.now) at.now.set.0 filled.now }
    ensures joins { IfOk result (λ f. AreTargetJoins at.now (map path f)) }
    ensures served { IfOk result (λ f. IsTargetServed at.now f) }
    ensures undominated { IfOk result (λ f. AreTargetUndominated at.now f) }
{
    let mut kept = KeptPaths::new(alloc);
    for part in filled {
        offer_side(alloc, at, *part, &mut kept)?;
    }
    front_of(alloc, at, kept)
}

/// Lets go of a front that no memory was left for.
fn refused(_back: Front<Path>) -> Memory {
    AllocError
}

/// Whether a set may have joins of a part with the rest: it is a part, the rest has paths, and not all of their joins are past
/// the limit. The error means out of memory.
fn may_join(
    alloc: Global,
    task: &Task,
    table: &Table,
    set: RelSet,
    part: RelSet,
) -> Result<bool, Memory>
    requires task { IsTask task.now }
    requires placed { ArePlaced task.now.cat.now task.now.q.now (paths_at table.now) }
    ensures { IfOk result (λ may. may ≡ false → LacksJoins task.now table.now set part) }
{
    if !part.within(set) {
        return Ok(false);
    }
    let rest = set.minus(part);
    if table.is_bare(rest) {
        return Ok(false);
    }
    let past = are_joins_past(alloc, task, table, part, rest)?;
    Ok(!past)
}

/// Whether a set may have joins of one of some parts with the rest. The error means out of memory.
fn may_join_any(
    alloc: Global,
    task: &Task,
    table: &Table,
    set: RelSet,
    parts: &[RelSet],
) -> Result<bool, Memory>
    requires task { IsTask task.now }
    requires placed { ArePlaced task.now.cat.now task.now.q.now (paths_at table.now) }
    ensures { IfOk result (λ may. may ≡ false → All (LacksJoins task.now table.now set) parts.now) }
{
    for part in parts {
        if may_join(alloc, task, table, set, *part)? {
            return Ok(true);
        }
    }
    Ok(false)
}

/// The front of the joins of a set over a table, where the smaller sets that have paths are these. The error means out of
/// memory.
fn front_over(
    alloc: Global,
    task: &Task,
    table: &Table,
    filled: &[RelSet],
    set: RelSet,
) -> Result<Front<Path>, Memory>
    requires task { IsTask task.now }
    requires placed { ArePlaced task.now.cat.now task.now.q.now (paths_at table.now) }
    requires filled { HasEachFilled (paths_at table.now) set.0 filled.now }
    ensures joins { IfOk result (λ f. AreTaskJoins task.now table.now set f) }
    ensures served { IfOk result (λ f. IsSetServed task.now table.now set f) }
    ensures undominated { IfOk result (λ f. AreTaskUndominated task.now f) }
{
    let may = may_join_any(alloc, task, table, set, filled)?;
    if !may {
        return Ok(Front::new(alloc));
    }
    let rows = set_rows(task.cat, task.q, set);
    let all = all_relations(task.q);
    let outside = all.minus(set);
    let at = Target {
        cat: task.cat,
        q: task.q,
        asked: task.asked,
        whole: task.whole,
        order: task.order,
        table,
        set,
        rows,
        outside,
    };
    joins_of(alloc, &at, filled)
}

/// Puts a set behind others. The error means out of memory.
fn note(filled: &mut Vec<RelSet>, set: RelSet) -> Result<(), Memory>
    ensures noted { OnOk result (Contains filled.new.items set) }
    ensures others { All (Contains filled.new.items) filled.old.items }
{
    filled.push(set)?;
    Ok(())
}

/// Puts a set behind others, where its front has paths. The error means out of memory.
fn note_if_filled(filled: &mut Vec<RelSet>, set: RelSet, front: &Front<Path>) -> Result<(), Memory>
    ensures noted { OnOk result ((front.now ≡ []) ⊎ Contains filled.new.items set) }
    ensures others { All (Contains filled.new.items) filled.old.items }
{
    if front.items().is_empty() {
        return Ok(());
    }
    note(filled, set)
}

/// The table with the front of the next set, where it has more than one relation; the sets so far that have paths are noted.
/// The error means out of memory.
fn add_set(
    alloc: Global,
    task: &Task,
    before: Table,
    filled: &mut Vec<RelSet>,
    set: RelSet,
) -> Result<Table, Memory>
    requires task { IsTask task.now }
    requires placed { ArePlaced task.now.cat.now task.now.q.now (paths_at before) }
    requires filled { HasEachFilled (paths_at before) set.0 filled.old.items }
    ensures done { IfOk result (λ t. DoesNext task.now before t set.0) }
    ensures filled { IfOk result (λ t. HasEachFilled (paths_at t) (set.0 + 1) filled.new.items) }
{
    if is_single(set) {
        note(filled, set)?;
        return Ok(before);
    }
    let front = front_over(alloc, task, &before, filled.as_slice(), set)?;
    note_if_filled(filled, set, &front)?;
    let mut table = before;
    match table.put(set, RelSet(0), front) {
        Ok(()) => Ok(table),
        Err(back) => Err(refused(back)),
    }
}

/// The fronts of all sets below a number, from those of single relations. The error means out of memory.
fn sets_below(alloc: Global, task: &Task, base: Table, end: u32) -> Result<Table, Memory>
    requires task { IsTask task.now }
    requires base { IsBase task.now.cat.now task.now.q.now base }
    requires few { end ≤ 2 ^ 16 }
    ensures { IfOk result (λ t. IsDoneTo task.now base t end) }
{
    let mut table = base;
    let mut filled = Vec::new(alloc);
    for n in 1..end {
        table = add_set(alloc, task, table, &mut filled, RelSet(n as u16))?;
    }
    Ok(table)
}

/// The fronts of all sets of a query's relations, from those of single relations, which are passed on as they are. Sets are
/// visited by rising number, so that the parts of a set come before it, and each is divided into two sides in every way: by
/// nested loops of either order, also with an inner scan that is given rows of the outer side, and by merges by each list of 1
/// to 3 of the first four joining classes, with sides that are sorted or in order. For each join of kept paths below the limit
/// that is asked for a path of its set's front suffices; where every key counts and the limit is that of costs, this means that
/// it dominates each admissible one. A front has such joins alone, and none of its paths dominates another. The error means out
/// of memory: the fronts that were passed are given up.
pub fn search(
    alloc: Global,
    cat: &Catalog,
    q: &Prepared,
    asked: Asked,
    base: Table,
) -> Result<Table, Memory>
    requires query { IsOverTables cat.now q.now }
    requires base { IsBase cat.now q.now base }
    ensures handed { IfOk result (λ t. HaveSameScans t base) }
    ensures placed { IfOk result (λ t. ArePlaced cat.now q.now (paths_at t)) }
    ensures covered { IfOk result (λ t. AreAllCovered cat.now q.now asked t) }
    ensures kept { IfOk result (λ t. HasOnlyJoins cat.now q.now t) }
    ensures undominated { IfOk result (λ t. HasNoDominatedJoins cat.now q.now t) }
{
    let order = order_asked(alloc, q)?;
    let whole = whole_rows(cat, q);
    let task = Task {
        cat,
        q,
        asked,
        whole,
        order: &order,
    };
    sets_below(alloc, &task, base, sets_of(range_of(q).items().len()))
}
