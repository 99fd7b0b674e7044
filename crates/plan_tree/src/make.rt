//! Paths of scans: made with their numbers, and offered to a front.

ghost use Rattle.std.specs.Prelude.{◌≡◌, ◌<◌, ◌↔◌, ℕ, Bool, true, All, IsTrue, OnOk, length, map};
ghost use Rattle.std.specs.List.{list_any};
ghost use Rattle.pg_base.specs.Sets.{has};
ghost use Rattle.pg_expr.specs.work.AtomSets.{contains};
ghost use Rattle.pg_expr.specs.Columns.{names_rel};
ghost use Rattle.sql_query.specs.catalog_Contents.{IsIndex};
ghost use Rattle.cost_rules.specs.declared.parameters.TheConstants.{MOST_COST};
ghost use Rattle.cost_rules.specs.work.Costs.{capped_pair};
ghost use Rattle.eq_classes.specs.Clauses.{one};
ghost use Rattle.eq_classes.specs.Listing.{clause_at};
ghost use Rattle.index_match.specs.work.Conditions.{is_condition_of};
ghost use Rattle.pareto.specs.work.Front.{AreKeptOr, IsCovered};
ghost use Rattle.sql_query.specs.Queries.{width};
ghost use Rattle.plan_tree.specs.Costs as costs;
ghost use Rattle.plan_tree.specs.work.Costs as costs_work;
ghost use Rattle.plan_tree.specs.work.Fronts.{ArePathsOf, StayDominated};
ghost use Rattle.plan_tree.specs.Keys.{keys_of};
ghost use Rattle.plan_tree.specs.Least.{IsAdmissible};
ghost use Rattle.plan_tree.specs.work.Paths.{IsPathOf};
ghost use Rattle.plan_tree.specs.Plans as plans;
ghost use Rattle.plan_tree.specs.work.Reads.{IsOverTables};
ghost use Rattle.plan_tree.specs.Space.{IsPlanOf, IsSameSet};
ghost use Rattle.plan_tree.specs.work.Space.{conditions_in, named_beside};
ghost use Rattle.plan_tree.specs.work.Views.{is_path_at_most, path, plan};
ghost use Rattle.plan_tree.specs.work.Lists.{AreScanOffers, IsDominatedIn};

use crate::estimates::{classes_of, estimate, range_of};
use crate::path::Path;
use crate::plan::Plan;
use crate::scans::bounds_and_tests;
use crate::window::startup_of;
use cost_rules::{MOST_COST, Pair};
use eq_classes::ClauseSet;
use index_match::conditions;
use pareto::Front;
use pathkeys::Keys;
use pg_base::{IndexNo, Memory, RelNo, RelSet};
use pg_expr::rels;
use sql_query::Prepared;
use sql_query::catalog::Catalog;
use std::alloc::AllocError;

/// The conditions of an index for a scan of a relation with a parameterisation: its bounds and its tests, by clause
/// numbers.
pub fn conditions_found(cat: &Catalog, q: &Prepared, r: RelNo, i: IndexNo, p: RelSet) -> ClauseSet
    requires relation { r.0 < 16 }
    requires index { IsIndex cat.now i }
    ensures { (n : ℕ) → contains result n ≡ is_condition_of cat.now q.now.classes i r p n }
{
    let classes = classes_of(q);
    let found = conditions(cat, range_of(q), classes, i, r, p);
    bounds_and_tests(classes, &found)
}

/// The relations that the condition of a clause names.
fn clause_relations(cat: &Catalog, q: &Prepared, n: u16) -> RelSet
    requires query { IsOverTables cat.now q.now }
    requires clause { n < length q.now.classes.clauses }
    ensures { (k : ℕ) → has result.0 k ≡ names_rel k (clause_at q.now.classes.clauses n).cond }
{
    rels(classes_of(q).clause(n))
}

/// The relations that the conditions of the clauses of a set name.
fn all_named(cat: &Catalog, q: &Prepared, set: &ClauseSet) -> RelSet
    requires query { IsOverTables cat.now q.now }
    ensures { (k : ℕ) → has result.0 k ≡ list_any (names_rel k) (conditions_in q.now set.now) }
{
    let mut named = RelSet::empty();
    for n in 0..classes_of(q).count() {
        if set.has(n as u16) {
            named = named.union(clause_relations(cat, q, n as u16));
        }
    }
    named
}

/// The relations other than `r` that the conditions of the clauses of a set name.
pub fn others_named(cat: &Catalog, q: &Prepared, r: RelNo, set: &ClauseSet) -> RelSet
    requires query { IsOverTables cat.now q.now }
    requires relation { r.0 < 16 }
    ensures { (k : ℕ) → has result.0 k ≡ named_beside q.now r set.now k }
{
    all_named(cat, q, set).minus(RelSet::one(r))
}

/// Whether the relations other than `r` that the conditions of the clauses of a set name are exactly those of `p`.
pub fn names_exactly(cat: &Catalog, q: &Prepared, r: RelNo, p: RelSet, set: &ClauseSet) -> bool
    requires query { IsOverTables cat.now q.now }
    requires relation { r.0 < 16 }
    ensures { IsTrue result ↔ IsSameSet (has p.0) (named_beside q.now r set.now) }
{
    others_named(cat, q, r, set) == p
}

/// The path of an admissible scan of a relation with a parameterisation: its plan with its set, its costs, its rows and
/// its keys.
pub fn scan_path(
    cat: &Catalog,
    q: &Prepared,
    r: RelNo,
    p: RelSet,
    t: Plan,
    cost: Pair,
    keys: Keys,
) -> Path
    requires query { IsOverTables cat.now q.now }
    requires relation { r.0 < width q.now }
    requires of { IsPlanOf cat.now q.now (one r.0) (has p.0) (plan t) }
    requires cost { cost ≡ capped_pair (costs.cost cat.now q.now (plan t)) }
    requires keys { keys ≡ keys_of cat.now q.now (plan t) }
    requires below { cost.total < MOST_COST }
    ensures tree { (path result).tree ≡ plan t }
    ensures numbers { IsPathOf cat.now q.now (path result) }
    ensures admissible { IsAdmissible cat.now q.now (plan t) }
{
    cat.lawful();
    let rows = estimate(cat, q, &t);
    Path {
        plan: t,
        set: RelSet::one(r),
        param: p,
        startup: startup_of(q, cost),
        cost: cost.total,
        rows,
        keys,
    }
}

/// Offers a path to a front. If memory runs out, the front is as before.
fn put(front: &mut Front<Path>, made: Path) -> Result<(), Memory>
    ensures kept { AreKeptOr front.old made front.new }
    ensures covered { All (IsCovered is_path_at_most front.new) front.old }
    ensures offered { OnOk result (IsCovered is_path_at_most front.new made) }
{
    match front.offer(made) {
        Ok(()) => Ok(()),
        Err(_) => Err(AllocError),
    }
}

/// Offers a scan of a relation with a parameterisation to a front, where it is admissible. Its cost may be cut to 10^18. If
/// memory runs out, the front is as before.
pub fn offer_scan(
    cat: &Catalog,
    q: &Prepared,
    r: RelNo,
    p: RelSet,
    t: Plan,
    cost: Pair,
    keys: Keys,
    front: &mut Front<Path>,
) -> Result<(), Memory>
    requires query { IsOverTables cat.now q.now }
    requires relation { r.0 < width q.now }
    requires of { IsPlanOf cat.now q.now (one r.0) (has p.0) (plan t) }
    requires cost { cost ≡ capped_pair (costs.cost cat.now q.now (plan t)) }
    requires keys { keys ≡ keys_of cat.now q.now (plan t) }
    requires paths { ArePathsOf cat.now q.now (map path front.old) }
    ensures paths { ArePathsOf cat.now q.now (map path front.new) }
    ensures kept { (test : plans.Plan → Bool) → test (plan t) ≡ true →
        AreScanOffers cat.now q.now test r p front.old front.new }
    ensures dominated { OnOk result (IsDominatedIn cat.now q.now front.new (plan t)) }
    ensures still { StayDominated cat.now q.now (map path front.old) (map path front.new) }
{
    if cost.total >= MOST_COST {
        return Ok(());
    }
    let made = scan_path(cat, q, r, p, t, cost, keys);
    put(front, made)
}
