//! The parts of the indexes of bitmap trees. Each is cut to at most 10^18.

ghost use Rattle.std.specs.Prelude.{◌≡◌, ◌<◌, ◌≤◌, ℕ, true};
ghost use Rattle.pg_base.specs.Sets.{has};
ghost use Rattle.pg_base.specs.declared.limits.TheConstants.{MOST_ATOMS};
ghost use Rattle.pg_expr.specs.work.AtomSets.{contains};
ghost use Rattle.pg_expr.specs.Columns.{atom_count};
ghost use Rattle.pg_expr.specs.work.View.{cond};
ghost use Rattle.sql_query.specs.catalog_Contents.{IsIndex, index_at};
ghost use Rattle.cost_rules.specs.declared.parameters.TheConstants.{MOST_COST};
ghost use Rattle.cost_rules.specs.work.Costs.{capped};
ghost use Rattle.index_match.specs.Arms.{is_matched};
ghost use Rattle.index_match.specs.work.Conditions.{is_condition_of};
ghost use Rattle.index_match.specs.work.Slots.{AreLocal};
ghost use Rattle.path_cost.specs.work.Columns.{IsOver};
ghost use Rattle.sql_query.specs.Queries.{width};
ghost use Rattle.plan_tree.specs.Costs as costs;
ghost use Rattle.plan_tree.specs.work.Costs as costs_work;
ghost use Rattle.plan_tree.specs.Plans.{leaf};
ghost use Rattle.plan_tree.specs.work.Reads.{IsOverTables};

use crate::estimates::{classes_of, range_of};
use crate::scans::bounds_and_tests;
use eq_classes::ClauseSet;
use index_match::{conditions, conditions_among};
use path_cost::{arm_part, index_part};
use pg_base::{IndexNo, RelNo, RelSet};
use pg_expr::Expr;
use sql_query::Prepared;
use sql_query::catalog::Catalog;

/// The part of an index in a bitmap of a relation where the rows of `p` are given: the way down, the part of its pages
/// that the entries within its bounds have, and each of these entries with its conditions. It is at most 10^18.
pub fn index_part_of(cat: &Catalog, q: &Prepared, r: RelNo, p: RelSet, i: IndexNo) -> u64
    requires query { IsOverTables cat.now q.now }
    requires relation { r.0 < width q.now }
    requires index { IsIndex cat.now i }
    ensures part { result ≡ capped (costs.part_of cat.now q.now r p (leaf i)) }
    ensures most { result ≤ MOST_COST }
{
    let range = range_of(q);
    let classes = classes_of(q);
    let found = conditions(cat, range, classes, i, r, p);
    let all = bounds_and_tests(classes, &found);
    index_part(cat, range, classes, i, r, p, &found.bounds, &all)
}

/// An index as it serves a relation where the rows of others are given.
#[derive(Drop)]
pub struct Served {
    /// Its conditions, by clause numbers.
    pub conditions: ClauseSet,
    /// Its part in a bitmap.
    pub part: u64,
}

/// The conditions of an index for relation `r` where the rows of `p` are given, and its part in a bitmap there, as
/// `index_part_of` says it. `local` has the clauses of the relation and of its parameterisation.
pub fn index_served(
    cat: &Catalog,
    q: &Prepared,
    r: RelNo,
    p: RelSet,
    i: IndexNo,
    local: &ClauseSet,
) -> Served
    requires query { IsOverTables cat.now q.now }
    requires relation { r.0 < width q.now }
    requires index { IsIndex cat.now i }
    requires local { AreLocal q.now.classes r.0 (has p.0) (contains local.now) }
    ensures conditions { (n : ℕ) →
        contains result.conditions n ≡ is_condition_of cat.now q.now.classes i r p n }
    ensures part { result.part ≡ capped (costs.part_of cat.now q.now r p (leaf i)) }
{
    let classes = classes_of(q);
    let found = conditions_among(cat, classes, i, r, p, local);
    let all = bounds_and_tests(classes, &found);
    let part = index_part(cat, range_of(q), classes, i, r, p, &found.bounds, &all);
    Served {
        conditions: all,
        part,
    }
}

/// The part of an index that serves an arm of an OR where the rows of `p` are given, over its bounds for the arm and with
/// the arm's parts as its conditions. The condition is that it matches the arm wholly. It is at most 10^18.
pub fn arm_part_of(cat: &Catalog, q: &Prepared, r: RelNo, p: RelSet, arm: &Expr, i: IndexNo) -> u64
    requires query { IsOverTables cat.now q.now }
    requires relation { r.0 < width q.now }
    requires index { IsIndex cat.now i }
    requires over { IsOver cat.now q.now.range (cond arm.now) }
    requires few { atom_count (cond arm.now) ≤ MOST_ATOMS }
    requires matched { is_matched (index_at cat.now i) r.0 (cond arm.now) ≡ true }
    ensures part { result ≡ capped (costs.part_of_arm cat.now q.now r p (cond arm.now) i) }
    ensures most { result ≤ MOST_COST }
{
    let range = range_of(q);
    match index_match::arm(cat, range, i, r, arm) {
        Some(bounds) => arm_part(cat, range, classes_of(q), i, r, p, arm, &bounds),
        None => unreachable!(),
    }
}
