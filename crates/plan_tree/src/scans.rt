//! What scans of one relation cost.

ghost use Rattle.std.specs.Prelude.{◌≡◌, ◌<◌, ℕ};
ghost use Rattle.pg_expr.specs.work.AtomSets.{contains};
ghost use Rattle.sql_query.specs.catalog_Contents.{IsIndex};
ghost use Rattle.cost_rules.specs.work.Costs.{IsCost, capped_pair};
ghost use Rattle.path_cost.specs.Costs as paths;
ghost use Rattle.sql_query.specs.Queries.{width};
ghost use Rattle.plan_tree.specs.Costs as costs;
ghost use Rattle.plan_tree.specs.work.Costs as costs_work;
ghost use Rattle.plan_tree.specs.work.Reads.{IsOverTables};
ghost use Rattle.plan_tree.specs.work.Held.{is_of_match};

use crate::estimates::{classes_of, range_of};
use cost_rules::Pair;
use eq_classes::{Classes, ClauseSet, note};
use index_match::{Match, conditions};
use path_cost::{index, seq};
use pg_base::{IndexNo, RelNo, RelSet};
use sql_query::Prepared;
use sql_query::catalog::Catalog;

/// The cost of a sequential scan of a relation.
pub fn seq_scan_cost(cat: &Catalog, q: &Prepared, r: RelNo) -> Pair
    requires query { IsOverTables cat.now q.now }
    requires relation { r.0 < width q.now }
    ensures rule { result ≡ capped_pair (paths.seq_cost cat.now q.now.range q.now.classes r.0) }
    ensures cost { IsCost result }
{
    seq(cat, range_of(q), classes_of(q), r)
}

/// The bounds and tests of an index together.
#[tactic(auto, using(eq_classes::proofs::WordLemmas::grows))]
pub fn bounds_and_tests(classes: &Classes, found: &Match) -> ClauseSet
    ensures { (k : ℕ) → contains result k ≡ is_of_match classes.now found.now k }
{
    let mut set = ClauseSet::empty();
    for n in 0..classes.count() {
        let is = found.bounds.has(n as u16) || found.tests.has(n as u16);
        note(&mut set, n as u16, is);
    }
    set
}

/// The cost of a scan of a relation by an index with its conditions, where the rows of `param` are given; of an
/// index-only scan where `only` is set.
pub fn index_scan_cost(
    cat: &Catalog,
    q: &Prepared,
    r: RelNo,
    i: IndexNo,
    param: RelSet,
    only: bool,
) -> Pair
    requires query { IsOverTables cat.now q.now }
    requires relation { r.0 < width q.now }
    requires index { IsIndex cat.now i }
    ensures rule { result ≡ capped_pair (costs.scan_cost cat.now q.now r i param only) }
    ensures cost { IsCost result }
{
    let range = range_of(q);
    let classes = classes_of(q);
    let found = conditions(cat, range, classes, i, r, param);
    let all = bounds_and_tests(classes, &found);
    index(cat, range, classes, i, r, param, &found.bounds, &all, only)
}
