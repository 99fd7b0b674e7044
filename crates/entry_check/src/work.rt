//! What joins and sorts cost.

ghost use Rattle.std.specs.Prelude.{◌≡◌, ◌≤◌, length};
ghost use Rattle.catalog.specs.Contents.{Contents};
ghost use Rattle.cost_rules.specs.work.Costs.{IsCost};
ghost use Rattle.pathkeys.specs.work.Finding.{class_numbers};
ghost use Rattle.plan_tree.specs.Plans.{merge, nest};
ghost use Rattle.plan_tree.specs.work.Reads.{IsOverTables};
ghost use Rattle.entry_check.specs.work.Parts.{IsJoinCost, IsReckoned, IsSortedPart};

use crate::operators::{merge_operators, nest_operators};
use crate::work_parts::Part;
use catalog::Catalog;
use cost_rules::Pair;
use eq_classes::ClassNo;
use path_cost::pairs;
use plan_tree::{classes_of, kept_of, range_of};
use sql_query::Prepared;

/// The cost of a nested loop of two plans, as a path keeps it, cut to at most 10^18.
pub fn nest_cost(q: &Prepared, outer: Part, inner: Part) -> Pair
    requires outer { IsReckoned outer }
    requires inner { IsReckoned inner }
    ensures rule { (c : Contents) → IsJoinCost c q.now outer inner nest result }
    ensures cost { IsCost result }
{
    let ops = nest_operators(q, outer.set, inner.set, inner.param);
    cost_rules::nest(outer.cost, inner.cost, outer.rows, inner.rows, ops)
}

/// The cost of a merge of two plans by 1 to 3 classes, as a path keeps it, cut to at most 10^18.
pub fn merge_cost(cat: &Catalog, q: &Prepared, keys: &[ClassNo], outer: Part, inner: Part) -> Pair
    requires query { IsOverTables cat.now q.now }
    requires some_keys { 1 ≤ length keys.now }
    requires few_keys { length keys.now ≤ 3 }
    requires outer { IsReckoned outer }
    requires inner { IsReckoned inner }
    ensures rule { IsJoinCost cat.now q.now outer inner (merge (class_numbers keys.now)) result }
    ensures cost { IsCost result }
{
    let equal = pairs(cat, range_of(q), classes_of(q), outer.set, inner.set, keys);
    let ops = merge_operators(q, keys, outer.set, inner.set);
    cost_rules::merge(
        outer.cost,
        inner.cost,
        outer.rows,
        inner.rows,
        keys.len() as u64,
        equal,
        ops,
    )
}

/// What the sort of a plan that is given no rows is computed by, whatever the classes.
pub fn sorted(q: &Prepared, x: Part) -> Part
    requires reckoned { IsReckoned x }
    ensures sorted { IsSortedPart q.now x result }
    ensures reckoned { IsReckoned result }
    ensures set { result.set ≡ x.set }
    ensures param { result.param ≡ x.param }
{
    let cost = kept_of(q, cost_rules::sort(x.cost, x.rows));
    Part {
        set: x.set,
        param: x.param,
        cost,
        rows: x.rows,
    }
}
