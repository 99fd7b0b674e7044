//! The sides of merge joins: paths in the order that is asked for, and paths that are sorted first.

ghost use Rattle.std.specs.Prelude.{◌≡◌, ◌≤◌, ◌<◌, All, Contains, IfNone, IfOk, IfSome, [], false, map, true};
ghost use Rattle.pg_base.specs.Sets.{has};
ghost use Rattle.cost_rules.specs.work.Costs.{IsCost, IsEstimate};
ghost use Rattle.cost_rules.specs.declared.parameters.TheConstants.{MOST_COST};
ghost use Rattle.path_cost.specs.Estimates.{set_rows};
ghost use Rattle.plan_tree.specs.work.Views.{path, plan};
ghost use Rattle.join_search.specs.work.Joins.{IsPathAt};
ghost use Rattle.join_search.specs.work.Merges as merges;
ghost use Rattle.join_search.specs.work.Merges.{IsCheapestBy, side_keys, side_path, side_plan};
ghost use Rattle.join_search.specs.work.Tables.{none};
ghost use Rattle.join_search.specs.work.Outcomes.{HasNoneBy, IsBestSideOf, IsLeastBy, IsSideCost, IsSideWith};

use crate::offers::cheapest;
use catalog::Catalog;
use cost_rules::{Pair, sort};
use pathkeys::{Keys, covers};
use pg_base::{Memory, RelSet};
use plan_tree::{Path, Plan, cost_of, kept_of};
use sql_query::Prepared;
use std::alloc::Global;

/// A side of a merge: a path, sorted first or not.
#[derive(Clone, Copy)]
pub(crate) struct Side<'a> {
    /// The path.
    pub(crate) path: &'a Path,
    /// Whether the path is sorted by the list of the merge.
    pub(crate) sorted: bool,
}

/// The cost of a side of a set, as a path keeps it, cut to at most 10^18. `rows` are those of the set.
pub(crate) fn side_cost(cat: &Catalog, q: &Prepared, set: RelSet, rows: u64, s: Side) -> Pair
    requires at { IsPathAt cat.now q.now set none (side_path s) }
    requires rows { rows ≡ set_rows cat.now q.now.range q.now.classes (has set.0) }
    requires estimate { IsEstimate rows }
    ensures kept { IsSideCost cat.now q.now s.entry result }
    ensures cost { IsCost result }
{
    let cost = cost_of(cat, q, s.path);
    if s.sorted {
        kept_of(q, sort(cost, rows))
    } else {
        cost
    }
}

/// The plan of a side, copied. The error means out of memory.
pub(crate) fn plan_of(alloc: Global, s: Side, by: &Keys) -> Result<Plan, Memory>
    ensures { IfOk result (λ t. plan t ≡ side_plan by.now s.entry) }
{
    let t = s.path.plan.copy(alloc)?;
    if !s.sorted {
        return Ok(t);
    }
    let keys = by.copy(alloc)?;
    let input = Box::new(alloc, t)?;
    Ok(Plan::Sort { keys, input })
}

/// The keys of a side. The error means out of memory.
pub(crate) fn keys_of(alloc: Global, s: Side, by: &Keys) -> Result<Keys, Memory>
    ensures { IfOk result (λ ks. ks ≡ side_keys by.now s.entry) }
{
    if s.sorted {
        by.copy(alloc)
    } else {
        s.path.keys.copy(alloc)
    }
}

/// What a path costs, or more than any path where its keys do not begin with the list.
fn cost_by(p: &Path, by: &Keys) -> u64
    ensures { result ≡ merges.cost_by by.now p.now }
{
    if covers(&p.keys, by) {
        p.cost
    } else {
        u64::MAX
    }
}

/// A path of least such cost.
fn least_by<'a>(paths: &'a [Path], by: &Keys) -> Option<&'a Path>
    ensures is_there { IfSome result (λ p. Contains paths.now p.now) }
    ensures least { IfSome result (λ p. IsLeastBy by.now paths.now p.now) }
    ensures none { IfNone result (paths.now ≡ []) }
{
    paths.iter().min_by_key(|p| cost_by(p, by))
}

/// A path of least cost among those whose keys begin with the list. None exactly where there are none.
fn cheapest_by<'a>(paths: &'a [Path], by: &Keys) -> Option<&'a Path>
    requires below { All (λ o. o.cost < MOST_COST) paths.now }
    ensures some { IfSome result (λ p. IsCheapestBy by.now (map path paths.now) (path p.now)) }
    ensures none { IfNone result (HasNoneBy by.now paths.now) }
{
    match least_by(paths, by) {
        Some(p) => { if covers(&p.keys, by) { Some(p) } else { None } }
        None => None,
    }
}

/// A path as it is where it costs no more than another one sorted, which costs so much.
fn cheaper_side<'a>(plain: &'a Path, sorted: &'a Path, cost: u64) -> Side<'a>
    ensures plain { plain.now.cost ≤ cost → IsSideWith result plain.now false }
    ensures sorted { cost < plain.now.cost → IsSideWith result sorted.now true }
{
    if plain.cost <= cost {
        Side {
            path: plain,
            sorted: false,
        }
    } else {
        Side {
            path: sorted,
            sorted: true,
        }
    }
}

/// The side that costs least in all: a path whose keys begin with the list, or the sort of the cheapest one. None exactly
/// where there are no paths.
pub(crate) fn best_side<'a>(
    cat: &Catalog,
    q: &Prepared,
    set: RelSet,
    rows: u64,
    paths: &'a [Path],
    by: &Keys,
) -> Option<Side<'a>>
    requires paths { All (IsPathAt cat.now q.now set none) (map path paths.now) }
    requires rows { rows ≡ set_rows cat.now q.now.range q.now.classes (has set.0) }
    requires estimate { IsEstimate rows }
    ensures some { IfSome result (λ s. IsBestSideOf cat.now q.now by.now paths.now s) }
    ensures none { IfNone result (paths.now ≡ []) }
{
    let sorted = Side {
        path: cheapest(paths)?,
        sorted: true,
    };
    match cheapest_by(paths, by) {
        Some(plain) => {
            let cost = side_cost(cat, q, set, rows, sorted);
            Some(cheaper_side(plain, sorted.path, cost.total))
        }
        None => Some(sorted),
    }
}
