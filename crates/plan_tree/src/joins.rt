//! What joins cost: the clauses that they test, and the rules over the costs of their sides.

ghost use Rattle.std.specs.Prelude.{◌≡◌, ◌≤◌, ℕ, length};
ghost use Rattle.pg_expr.specs.work.AtomSets.{contains};
ghost use Rattle.eq_classes.specs.declared.classes.ClassNo.{ClassNo};
ghost use Rattle.cost_rules.specs.declared.pair.Pair.{Pair};
ghost use Rattle.cost_rules.specs.work.Costs.{IsCost, capped_pair};
ghost use Rattle.sql_query.specs.Queries.{width};
ghost use Rattle.plan_tree.specs.Costs as costs;
ghost use Rattle.plan_tree.specs.work.Costs as costs_work;
ghost use Rattle.plan_tree.specs.work.Reads.{IsOverTables, ReadsBelow};
ghost use Rattle.plan_tree.specs.work.Views.{plan};
ghost use Rattle.path_cost.specs.work.Cut.{saturated};
ghost use Rattle.plan_tree.specs.work.Held.{joins_at, merge_operators_by, nest_over, merge_over};

use crate::estimates::{classes_of, estimate, range_of};
use crate::plan::Plan;
use crate::sets::{given_scan, set_of};
use cost_rules::{Pair, merge, nest};
use eq_classes::{ClassNo, Classes, ClauseSet};
use path_cost::{key_pairs, operators_of, pairs};
use sql_query::Prepared;
use sql_query::catalog::Catalog;

/// The clauses that a join of an outer plan with an inner one tests.
fn joining(classes: &Classes, outer: &Plan, inner: &Plan) -> ClauseSet
    requires outer { ReadsBelow 16 (plan outer.now) }
    requires inner { ReadsBelow 16 (plan inner.now) }
    ensures { (k : ℕ) → contains result k ≡ joins_at outer.now inner.now classes.now k }
{
    match given_scan(inner) {
        Some((rel, param)) => classes.join_param_clauses(set_of(outer), rel, param),
        None => classes.join_clauses(set_of(outer), set_of(inner)),
    }
}

/// The operators of these clauses. A number past 2^64 - 1 is answered as 2^64 - 1.
fn join_operators(q: &Prepared, outer: &Plan, inner: &Plan) -> u64
    requires outer { ReadsBelow 16 (plan outer.now) }
    requires inner { ReadsBelow 16 (plan inner.now) }
    ensures { result ≡ saturated (costs.join_operators q.now (plan outer.now) (plan inner.now)) }
{
    let classes = classes_of(q);
    let none = ClauseSet::empty();
    let tested = joining(classes, outer, inner);
    operators_of(classes, &tested, &none, &none)
}

/// The operators of the clauses of a merge that are no pair clauses of its keys. A number past 2^64 - 1 is answered as
/// 2^64 - 1.
fn merge_operators(q: &Prepared, keys: &[ClassNo], outer: &Plan, inner: &Plan) -> u64
    requires outer { ReadsBelow 16 (plan outer.now) }
    requires inner { ReadsBelow 16 (plan inner.now) }
    ensures { result ≡ saturated (merge_operators_by q.now keys.now outer.now inner.now) }
{
    let classes = classes_of(q);
    let a = set_of(outer);
    let b = set_of(inner);
    let none = ClauseSet::empty();
    let equal = key_pairs(classes, a, b, keys);
    let tested = classes.join_clauses(a, b);
    operators_of(classes, &tested, &none, &equal)
}

/// The cost of a nested loop over the costs of its sides, each cut to at most 10^18 as the result is: that of the exact
/// costs that were cut.
pub fn nest_cost(
    cat: &Catalog,
    q: &Prepared,
    outer: &Plan,
    inner: &Plan,
    outer_cost: Pair,
    inner_cost: Pair,
) -> Pair
    requires query { IsOverTables cat.now q.now }
    requires outer { ReadsBelow (width q.now) (plan outer.now) }
    requires inner { ReadsBelow (width q.now) (plan inner.now) }
    requires outer_cost { IsCost outer_cost }
    requires inner_cost { IsCost inner_cost }
    ensures rule { (a b : Pair) → outer_cost ≡ capped_pair a → inner_cost ≡ capped_pair b →
        result ≡ capped_pair (nest_over cat.now q.now outer.now inner.now a b) }
    ensures cost { IsCost result }
{
    let outer_rows = estimate(cat, q, outer);
    let inner_rows = estimate(cat, q, inner);
    let ops = join_operators(q, outer, inner);
    nest(outer_cost, inner_cost, outer_rows, inner_rows, ops)
}

/// The cost of a merge by 1 to 3 classes over the costs of its sides, each cut to at most 10^18 as the result is: that of
/// the exact costs that were cut.
pub fn merge_cost(
    cat: &Catalog,
    q: &Prepared,
    keys: &[ClassNo],
    outer: &Plan,
    inner: &Plan,
    outer_cost: Pair,
    inner_cost: Pair,
) -> Pair
    requires query { IsOverTables cat.now q.now }
    requires some_keys { 1 ≤ length keys.now }
    requires few_keys { length keys.now ≤ 3 }
    requires outer { ReadsBelow (width q.now) (plan outer.now) }
    requires inner { ReadsBelow (width q.now) (plan inner.now) }
    requires outer_cost { IsCost outer_cost }
    requires inner_cost { IsCost inner_cost }
    ensures rule { (a b : Pair) → outer_cost ≡ capped_pair a → inner_cost ≡ capped_pair b →
        result ≡ capped_pair (merge_over cat.now q.now keys.now outer.now inner.now a b) }
    ensures cost { IsCost result }
{
    let outer_rows = estimate(cat, q, outer);
    let inner_rows = estimate(cat, q, inner);
    let equal = pairs(
        cat,
        range_of(q),
        classes_of(q),
        set_of(outer),
        set_of(inner),
        keys,
    );
    let ops = merge_operators(q, keys, outer, inner);
    merge(
        outer_cost,
        inner_cost,
        outer_rows,
        inner_rows,
        keys.len() as u64,
        equal,
        ops,
    )
}
