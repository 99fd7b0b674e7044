//! A scan drained.

ghost use Rattle.std.specs.Prelude.{◌≡◌, ◌+◌, ◌≤◌, ℕ, IfOk, OnOk, nat_eq};
ghost use Rattle.pg_base.specs.Sets.{has};
ghost use Rattle.heap.specs.work.Tuples.{padded_tuples};
ghost use Rattle.sql_query.specs.Queries.{width};
ghost use Rattle.sql_query.specs.WellBound.{IsWellBound};
ghost use Rattle.sql_query.specs.Worlds.{world};
ghost use Rattle.plan_tree.specs.Space.{IsBuilt};
ghost use Rattle.plan_tree.specs.work.Views.{plan};
ghost use Rattle.store.specs.work.Kept.{IsStoreOf};
ghost use Rattle.scan_exec.specs.work.Plans as plans;
ghost use Rattle.scan_exec.specs.work.Plans.{IsScan};
ghost use Rattle.scan_exec.specs.work.Handed.{AreHanded, handed_fetches, handed_looks, handed_run};

use crate::rows::{ScanRows, relation_of};
use catalog::Catalog;
use heap::{Counters, Tuples};
use pg_base::{Memory, RelSet, Steps, Tid};
use plan_tree::Plan;
use sql_query::Prepared;
use std::alloc::Global;
use store::Store;

/// The tuples of a scan, in order, where rows of the relations of its parameterisation are given by their numbers, in FROM
/// order. The fetches are exactly the plan's, and the looks within its own. The error means out of memory, and then both are
/// within.
pub fn scan<C: Counters>(
    alloc: Global,
    cat: &Catalog,
    q: &Prepared,
    p: &Plan,
    store: &Store<C>,
    outer: &[Tid],
    fetches: &mut Steps<C::Fetches>,
    reads: &mut Steps<C::Looks>,
) -> Result<Tuples, Memory>
    requires bound { IsWellBound cat.now q.now }
    requires store { IsStoreOf cat.now store.now }
    requires scan { IsScan (plan p.now) }
    requires built { IsBuilt cat.now q.now (plan p.now) }
    requires outer { AreHanded (world cat.now store.now.stored) q.now (plan p.now) outer.now }
    ensures set { IfOk result (λ ts.
        (k : ℕ) → has ts.set.0 k ≡ nat_eq k (plans.relation_of (plan p.now)).0) }
    ensures tuples { IfOk result (λ ts.
        padded_tuples (width q.now) ts ≡
        handed_run (world cat.now store.now.stored) q.now (plan p.now) outer.now) }
    ensures exact { OnOk result (fetches.new ≡ fetches.old +
        handed_fetches (world cat.now store.now.stored) q.now (plan p.now) outer.now) }
    ensures most { fetches.new ≤ fetches.old +
        handed_fetches (world cat.now store.now.stored) q.now (plan p.now) outer.now }
    ensures looks { reads.new ≤ reads.old +
        handed_looks (world cat.now store.now.stored) q.now (plan p.now) outer.now }
{
    let mut rows = ScanRows::start(alloc, cat, q, p, store, outer, reads)?;
    let mut tuples = Tuples::new(alloc, RelSet::one(relation_of(p)));
    while let Some(tid) = rows.next(fetches, reads) {
        tuples.add(&[tid])?;
    }
    Ok(tuples)
}
