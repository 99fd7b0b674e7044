//! Whether a plan is a finished plan of the plan space (own).

ghost use Rattle.std.specs.Prelude.{◌≡◌, ◌<◌, ◌≤◌, ◌↔◌, ℕ, IsTrue, true};
ghost use Rattle.pg_base.specs.Sets.{has};
ghost use Rattle.sql_query.specs.Queries.{all_of_query, width};
ghost use Rattle.plan_tree.specs.Plans as plans;
ghost use Rattle.plan_tree.specs.work.Reads.{IsOverTables, ReadsBelow};
ghost use Rattle.plan_tree.specs.Space.{IsBuilt, IsFinished, IsSameSet};
ghost use Rattle.plan_tree.specs.work.Views.{plan};

use crate::joins::{is_merge, is_nest, param_of};
use crate::order::meets_order;
use crate::sorts::is_sort;
use crate::trees::is_bitmap_scan;
use crate::validity::{is_index_only_scan, is_index_scan, is_relation};
use catalog::Catalog;
use pg_base::{RelNo, RelSet};
use plan_tree::{Plan, range_of, set_of};
use sql_query::Prepared;

/// Whether each node of a plan is one of the plan space, and no sort stands on a sort. The plan may be any tree.
fn is_built(cat: &Catalog, q: &Prepared, p: &Plan) -> bool
    requires query { IsOverTables cat.now q.now }
    ensures { IsTrue result ↔ IsBuilt cat.now q.now (plan p.now) }
{
    match p {
        Plan::Seq { rel } => is_relation(q, *rel),
        Plan::Index {
            rel,
            index,
            backward,
            param,
        } => is_index_scan(cat, q, *rel, *index, *backward, *param),
        Plan::IndexOnly {
            rel,
            index,
            backward,
            param,
        } => is_index_only_scan(cat, q, *rel, *index, *backward, *param),
        Plan::Bitmap { rel, param, bits } => is_bitmap_scan(cat, q, *rel, *param, bits),
        Plan::Sort { input, .. } => is_built(cat, q, input) && !is_sort(input),
        Plan::Nest { outer, inner } => {
            if !is_built(cat, q, outer) {
                return false;
            }
            is_built(cat, q, inner) && is_nest(outer, inner)
        }
        Plan::Merge { keys, outer, inner } => {
            if !is_built(cat, q, outer) {
                return false;
            }
            is_built(cat, q, inner) && is_merge(cat, q, keys, outer, inner)
        }
    }
}

/// Whether a set has each relation of the query, which has at most 16.
pub fn has_all(q: &Prepared, set: RelSet) -> bool
    requires few { width q.now ≤ 16 }
    ensures { IsTrue result ↔ ((k : ℕ) → k < width q.now → has set.0 k ≡ true) }
{
    for r in 0..range_of(q).items().len() {
        if !set.has(RelNo(r as u8)) {
            return false;
        }
    }
    true
}

/// Whether a plan, whose relations are the query's, reads all of them.
fn reads_all(q: &Prepared, p: &Plan) -> bool
    requires few { width q.now ≤ 16 }
    requires reads { ReadsBelow (width q.now) (plan p.now) }
    ensures { IsTrue result ↔ IsSameSet (plans.set_of (plan p.now)) (all_of_query q.now) }
{
    has_all(q, set_of(p))
}

/// Whether a plan is a finished plan of the plan space: each node is one of the space, it reads all relations of the
/// query and is given no rows, and it is in the order asked for: its keys begin with those of ORDER BY, or, where there
/// are any, it is a sort by exactly these. The plan may be any tree: one by indexes, relations, classes or
/// parameterisations that the catalogue and the query have not is none. It takes no memory.
pub fn validate(cat: &Catalog, q: &Prepared, p: &Plan) -> bool
    requires query { IsOverTables cat.now q.now }
    ensures valid { IsTrue result ↔ IsFinished cat.now q.now (plan p.now) }
{
    is_built(cat, q, p) && reads_all(q, p) && param_of(p).is_empty() && meets_order(cat, q, p)
}
