//! Joins that are past the limit of a search, as what their sides cost at least tells (own).

ghost use Rattle.std.specs.Prelude.{◌≡◌, ◌≤◌, ◌*◌, IfOk, IsTrue, false, map};
ghost use Rattle.cost_rules.specs.work.Costs.{IsEstimate};
ghost use Rattle.plan_tree.specs.work.Views.{path};
ghost use Rattle.join_search.specs.work.Joins.{ArePlaced};
ghost use Rattle.join_search.specs.work.Splits.{IsTask};
ghost use Rattle.join_search.specs.work.Tables.{none, paths_at};
ghost use Rattle.join_search.specs.work.Outcomes.{AreSumsPast, HasNoMergeList, NeedsNoJoins, NeedsNoNests, NeedsNoNestsAt, set_rows_of};

use crate::lists::merge_lists;
use crate::merges::least_of;
use crate::offers::cheapest;
use crate::splits::{Task, path_rows};
use crate::table::Table;
use crate::useful::{Asked, is_below};
use cost_rules::Pair;
use pg_base::{Memory, RelSet};
use plan_tree::Path;
use sql_query::Prepared;
use std::alloc::Global;

/// Whether what costs no less than two sides together is past the limit.
pub(crate) fn is_past(q: &Prepared, asked: Asked, whole: u64, outer: Pair, inner: Pair) -> bool
    requires { IsEstimate whole }
    ensures { IsTrue result → AreSumsPast q.now asked whole outer inner }
{
    let startup = outer.startup.saturating_add(inner.startup);
    let total = outer.total.saturating_add(inner.total);
    let both = Pair { startup, total };
    !is_below(q, asked, whole, both)
}

/// What a path of a cost takes at least where it is run for so many rows.
pub(crate) fn repeated(inner: Pair, rows: u64) -> Pair
    ensures startup { result.startup ≡ inner.startup }
    ensures total { result.total ≤ rows * inner.total }
{
    Pair {
        startup: inner.startup,
        total: inner.total.saturating_mul(rows),
    }
}

/// Paths of a set of which the nested loops with others are looked for.
#[derive(Clone, Copy)]
struct Outer<'a> {
    set: RelSet,
    /// The rows of each.
    rows: u64,
    paths: &'a [Path],
}

/// Whether all nested loops of two sets with the inner paths of a parameterisation are past the limit, or none may be given
/// these rows.
fn are_past_given(task: &Task, table: &Table, outer: Outer, inner: RelSet, p: RelSet) -> bool
    requires task { IsTask task.now }
    requires placed { ArePlaced task.now.cat.now task.now.q.now (paths_at table.now) }
    requires paths { map path outer.paths.now ≡ paths_at table.now outer.set none }
    requires rows { outer.rows ≡ set_rows_of task.now.cat.now task.now.q.now outer.set }
    ensures { IsTrue result → NeedsNoNestsAt task.now table.now outer.entry.set inner p }
{
    if !p.within(outer.set) {
        return true;
    }
    let first = least_of(outer.paths);
    let second = least_of(table.paths(inner, p));
    let each = repeated(second, outer.rows);
    is_past(task.q, task.asked, task.whole, first, each)
}

/// Whether all nested loops of two sets are past the limit. The error means out of memory.
fn are_nests_past(
    alloc: Global,
    task: &Task,
    table: &Table,
    outer: Outer,
    inner: RelSet,
) -> Result<bool, Memory>
    requires task { IsTask task.now }
    requires placed { ArePlaced task.now.cat.now task.now.q.now (paths_at table.now) }
    requires paths { map path outer.paths.now ≡ paths_at table.now outer.set none }
    requires rows { outer.rows ≡ set_rows_of task.now.cat.now task.now.q.now outer.set }
    ensures { IfOk result (λ b. IsTrue b → NeedsNoNests task.now table.now outer.entry.set inner) }
{
    let params = table.params(alloc, inner)?;
    for p in &params {
        if !are_past_given(task, table, outer, inner, *p) {
            return Ok(false);
        }
    }
    Ok(true)
}

/// Whether there is a list by which two sets may be merged. The error means out of memory.
fn may_merge(alloc: Global, task: &Task, a: RelSet, b: RelSet) -> Result<bool, Memory>
    ensures { IfOk result (λ may. may ≡ false → HasNoMergeList task.now a b) }
{
    let lists = merge_lists(alloc, task.cat, task.q, a, b)?;
    Ok(!lists.as_slice().is_empty())
}

/// Whether all joins of two sets are past the limit, of which the outer one has paths: there is no list to merge them by, and
/// what their sides cost at least tells it of nested loops. The error means out of memory.
fn are_past_from(
    alloc: Global,
    task: &Task,
    table: &Table,
    outer: Outer,
    inner: RelSet,
) -> Result<bool, Memory>
    requires task { IsTask task.now }
    requires placed { ArePlaced task.now.cat.now task.now.q.now (paths_at table.now) }
    requires paths { map path outer.paths.now ≡ paths_at table.now outer.set none }
    requires rows { outer.rows ≡ set_rows_of task.now.cat.now task.now.q.now outer.set }
    ensures { IfOk result (λ past. IsTrue past → NeedsNoJoins task.now table.now outer.entry.set inner) }
{
    let nests = are_nests_past(alloc, task, table, outer, inner)?;
    if !nests {
        return Ok(false);
    }
    let merges = may_merge(alloc, task, outer.set, inner)?;
    Ok(!merges)
}

/// Whether all joins of two sets are past the limit, as far as is known before their costs are computed. The error means out of
/// memory.
pub(crate) fn are_joins_past(
    alloc: Global,
    task: &Task,
    table: &Table,
    a: RelSet,
    b: RelSet,
) -> Result<bool, Memory>
    requires task { IsTask task.now }
    requires placed { ArePlaced task.now.cat.now task.now.q.now (paths_at table.now) }
    ensures { IfOk result (λ past. IsTrue past → NeedsNoJoins task.now table.now a b) }
{
    let outers = table.paths(a, RelSet(0));
    match cheapest(outers) {
        Some(p) => {
            let rows = path_rows(task.cat, task.q, p);
            let outer = Outer {
                set: a,
                rows,
                paths: outers,
            };
            are_past_from(alloc, task, table, outer, b)
        }
        None => Ok(true),
    }
}
