//! The relation of a scan in a query over a store, beside the rows that it is given.

ghost use Rattle.std.specs.Prelude.{◌≡◌, ◌<◌, ◌≤◌, ◌&&◌, ◌||◌, ℕ, IfOk, length, nat_lt};
ghost use Rattle.pg_base.specs.declared.limits.TheConstants.{MOST_ROWS};
ghost use Rattle.pg_expr.specs.work.AtomSets.{contains};
ghost use Rattle.scan_probes.specs.work.Filters.{lent_conditions};
ghost use Rattle.sql_query.specs.Queries.{width};
ghost use Rattle.plan_tree.specs.Bitmaps.{IsIndexOn};
ghost use Rattle.scan_probes.specs.work.Values.{Given as Rows};
ghost use Rattle.scan_exec.specs.work.Scene.{IsSceneOf};
ghost use Rattle.scan_exec.specs.work.AtScene.{scene_base, scene_clauses, scene_conditions, scene_rows};

use catalog::Catalog;
use eq_classes::{ClauseSet, note};
use heap::{Counters, Heap};
use pg_base::{IndexNo, Memory, RelNo, RelSet, Tid};
use pg_expr::Expr;
use plan_tree::{classes_of, conditions_found, range_of};
use scan_probes::{Beside, chosen};
use sql_query::Prepared;
use std::alloc::Global;
use store::Store;

/// A relation of a query over a store, and the numbers of the rows of other relations that a scan of it is given, in FROM
/// order.
#[derive(Drop)]
pub(crate) struct Scene<'a, 'o, C: Counters> {
    pub(crate) alloc: Global,
    pub(crate) cat: &'a Catalog,
    pub(crate) q: &'a Prepared,
    pub(crate) store: &'a Store<C>,
    pub(crate) rel: RelNo,
    pub(crate) param: RelSet,
    pub(crate) outer: &'o [Tid],
}

impl<'a, 'o, C: Counters> Scene<'a, 'o, C> {
    /// The relation of the scene in the query.
    pub(crate) fn beside(&self) -> Beside<'a>
        ensures cat { result.cat.now ≡ self.now.cat.now }
        ensures range { result.range.now ≡ self.now.q.now.range }
        ensures rel { result.rel ≡ self.now.rel }
    {
        Beside {
            cat: self.cat,
            range: range_of(self.q),
            rel: self.rel,
        }
    }

    /// The rows of its relation.
    pub(crate) fn heap(&self) -> &'a Heap<C>
        requires { (given : Rows) × IsSceneOf self.now given }
        ensures rows { result.now.rows ≡ scene_rows self.now }
        ensures few { length result.now.rows ≤ MOST_ROWS }
    {
        let range = range_of(self.q).items();
        let r = self.rel.0 as usize;
        let (table, _) = &range[r];
        let heap = self.store.heap(*table);
        let _ = heap.len();
        heap
    }

    /// The conditions of the clauses over its relation. The error means out of memory.
    pub(crate) fn base(&self) -> Result<Vec<&'a Expr>, Memory>
        requires { self.now.rel.0 < 16 }
        ensures { IfOk result (λ v. lent_conditions v.items ≡ scene_base self.now) }
    {
        let classes = classes_of(self.q);
        let base = classes.base_clauses(self.rel);
        chosen(self.alloc, classes, &base)
    }

    /// The conditions of these and of the clauses that are tested with the rows given. The error means out of memory.
    pub(crate) fn clauses(&self) -> Result<Vec<&'a Expr>, Memory>
        requires { self.now.rel.0 < 16 }
        ensures { IfOk result (λ v. lent_conditions v.items ≡ scene_clauses self.now) }
    {
        let classes = classes_of(self.q);
        let base = classes.base_clauses(self.rel);
        let param = classes.param_clauses(self.rel, self.param);
        let both = either(classes.count(), &base, &param);
        chosen(self.alloc, classes, &both)
    }

    /// The conditions of an index. The error means out of memory.
    pub(crate) fn conditions(&self, i: IndexNo) -> Result<Vec<&'a Expr>, Memory>
        requires relation { self.now.rel.0 < 16 }
        requires index { IsIndexOn self.now.cat.now self.now.q.now self.now.rel.0 i }
        ensures { IfOk result (λ v. lent_conditions v.items ≡ scene_conditions self.now i) }
    {
        let found = conditions_found(self.cat, self.q, self.rel, i, self.param);
        chosen(self.alloc, classes_of(self.q), &found)
    }
}

/// The numbers below an end that are in either set.
#[tactic(auto, using(eq_classes::proofs::WordLemmas::grows))]
fn either(end: usize, a: &ClauseSet, b: &ClauseSet) -> ClauseSet
    requires { end ≤ 512 }
    ensures { (k : ℕ) → contains result k ≡ nat_lt k end && (contains a.now k || contains b.now k) }
{
    let mut set = ClauseSet::empty();
    for n in 0..end {
        let is = a.has(n as u16) || b.has(n as u16);
        note(&mut set, n as u16, is);
    }
    set
}
