//! The estimated rows of a plan.

ghost use Rattle.std.specs.Prelude.{◌≡◌, ◌≤◌, length};
ghost use Rattle.cost_rules.specs.work.Costs.{IsEstimate};
ghost use Rattle.pg_base.specs.Sets.{has};
ghost use Rattle.path_cost.specs.Estimates.{set_rows};
ghost use Rattle.sql_query.specs.Queries.{width};
ghost use Rattle.plan_tree.specs.Costs as costs;
ghost use Rattle.plan_tree.specs.work.Costs as costs_work;
ghost use Rattle.plan_tree.specs.work.Reads.{IsOverTables, ReadsBelow};
ghost use Rattle.plan_tree.specs.work.Views.{plan};

use crate::plan::Plan;
use crate::sets::{given_scan, set_of};
use eq_classes::Classes;
use path_cost::{rows, rows_param};
use pg_base::RelSet;
use sql_query::Prepared;
use sql_query::catalog::{Catalog, RangeTable};

/// The relations of a query, in FROM order.
pub fn range_of(q: &Prepared) -> &RangeTable
    ensures { result.now ≡ q.now.range }
{
    &q.range
}

/// The classes of a query, with its numbered clauses.
pub fn classes_of(q: &Prepared) -> &Classes
    ensures { result.now ≡ q.now.classes }
{
    &q.classes
}

/// The rows that a set of relations is taken to give.
pub(crate) fn rows_of_set(cat: &Catalog, q: &Prepared, s: RelSet) -> u64
    requires query { IsOverTables cat.now q.now }
    ensures rows { result ≡ set_rows cat.now q.now.range q.now.classes (has s.0) }
    ensures estimate { IsEstimate result }
{
    rows(cat, range_of(q), classes_of(q), s)
}

/// The rows that a plan is taken to give, from 1 to 10^12: by its set and its parameterisation alone.
#[tactic(auto, using(crate::proofs::EstimateLemmas::estimates))]
pub fn estimate(cat: &Catalog, q: &Prepared, p: &Plan) -> u64
    requires query { IsOverTables cat.now q.now }
    requires reads { ReadsBelow (width q.now) (plan p.now) }
    ensures rows { result ≡ costs.estimate cat.now q.now (plan p.now) }
    ensures estimate { IsEstimate result }
{
    match given_scan(p) {
        Some((rel, param)) => rows_param(cat, range_of(q), classes_of(q), rel, param),
        None => rows_of_set(cat, q, set_of(p)),
    }
}
