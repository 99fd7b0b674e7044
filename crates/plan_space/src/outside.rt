//! The first node that is in no plan of the plan space.

ghost use Rattle.std.specs.Prelude.{◌≡◌, ◌<◌, ◌≤◌, ◌+◌, ◌↔◌, IfNone, IfSome, IsTrue, false, true};
ghost use Rattle.sql_query.specs.Queries.{width};
ghost use Rattle.plan_tree.specs.Plans as plans;
ghost use Rattle.plan_tree.specs.Plans.{nest, merge};
ghost use Rattle.plan_tree.specs.work.Reads.{IsOverTables};
ghost use Rattle.plan_tree.specs.Space.{IsBuilt};
ghost use Rattle.plan_tree.specs.work.Views.{plan};
ghost use Rattle.plan_space.specs.Judging.{IsOutside, unsorted};
ghost use Rattle.plan_space.specs.Numbered.{line_count};
ghost use Rattle.plan_space.specs.declared.lines.TheConstants.{MOST_LINES};

use crate::lines::count_lines;
use crate::{is_bitmap_scan, is_index_only_scan, is_index_scan, is_merge, is_nest};
use catalog::Catalog;
use pathkeys::Keys;
use pg_base::RelNo;
use plan_tree::{Plan, range_of};
use sql_query::Prepared;

/// Whether a plan is a sort.
fn is_sort(p: &Plan) -> bool
    ensures { result ≡ plans.is_sort (plan p.now) }
{
    match p {
        Plan::Seq { .. } => false,
        Plan::Index { .. } => false,
        Plan::IndexOnly { .. } => false,
        Plan::Bitmap { .. } => false,
        Plan::Sort { .. } => true,
        Plan::Nest { .. } => false,
        Plan::Merge { .. } => false,
    }
}

/// Whether a plan that is one of the plan space but for the sorts on its top is one with them: at most one stands there.
fn has_one_sort(cat: &Catalog, q: &Prepared, p: &Plan) -> bool
    requires built { IsBuilt cat.now q.now (unsorted (plan p.now)) }
    ensures { IsTrue result ↔ IsBuilt cat.now q.now (plan p.now) }
{
    match p {
        Plan::Seq { .. } => true,
        Plan::Index { .. } => true,
        Plan::IndexOnly { .. } => true,
        Plan::Bitmap { .. } => true,
        Plan::Sort { input, .. } => !is_sort(input),
        Plan::Nest { .. } => true,
        Plan::Merge { .. } => true,
    }
}

/// Whether a nested loop of two plans is in the plan space, where these are but for the sorts on their tops.
fn is_built_nest(cat: &Catalog, q: &Prepared, outer: &Plan, inner: &Plan) -> bool
    requires query { IsOverTables cat.now q.now }
    requires outer { IsBuilt cat.now q.now (unsorted (plan outer.now)) }
    requires inner { IsBuilt cat.now q.now (unsorted (plan inner.now)) }
    ensures { IsTrue result ↔ IsBuilt cat.now q.now (nest (plan outer.now) (plan inner.now)) }
{
    if !has_one_sort(cat, q, outer) {
        return false;
    }
    if !has_one_sort(cat, q, inner) {
        return false;
    }
    is_nest(outer, inner)
}

/// Whether a merge of two plans is in the plan space, where these are but for the sorts on their tops.
fn is_built_merge(cat: &Catalog, q: &Prepared, keys: &Keys, outer: &Plan, inner: &Plan) -> bool
    requires query { IsOverTables cat.now q.now }
    requires outer { IsBuilt cat.now q.now (unsorted (plan outer.now)) }
    requires inner { IsBuilt cat.now q.now (unsorted (plan inner.now)) }
    ensures { IsTrue result ↔ IsBuilt cat.now q.now (merge keys.now (plan outer.now) (plan inner.now)) }
{
    if !has_one_sort(cat, q, outer) {
        return false;
    }
    if !has_one_sort(cat, q, inner) {
        return false;
    }
    is_merge(cat, q, keys, outer, inner)
}

/// Whether a number is that of a relation of the query.
fn is_relation(q: &Prepared, r: RelNo) -> bool
    ensures { IsTrue result ↔ (r.0 < width q.now) }
{
    (r.0 as usize) < range_of(q).items().len()
}

/// The line, where a test fails.
fn unless(is: bool, line: u32) -> Option<u32>
    ensures none { IfNone result (is ≡ true) }
    ensures some { IfSome result (λ l. (is ≡ false) × (l ≡ line)) }
{
    if is { None } else { Some(line) }
}

/// The line of the first node of a plan that is in no plan of the plan space while its children are, children before parents
/// and outer sides before inner ones, where the plan's first line has the number `at`; sorts count as part of the node above
/// them. The plan may be any tree of at most 256 lines.
pub(crate) fn first_outside(cat: &Catalog, q: &Prepared, p: &Plan, at: u32) -> Option<u32>
    requires query { IsOverTables cat.now q.now }
    requires few { at + line_count (plan p.now) ≤ MOST_LINES + 1 }
    ensures some { IfSome result (λ line. IsOutside cat.now q.now at (plan p.now) line) }
    ensures none { IfNone result (IsBuilt cat.now q.now (unsorted (plan p.now))) }
{
    match p {
        Plan::Seq { rel } => unless(is_relation(q, *rel), at),
        Plan::Index {
            rel,
            index,
            backward,
            param,
        } => unless(is_index_scan(cat, q, *rel, *index, *backward, *param), at),
        Plan::IndexOnly {
            rel,
            index,
            backward,
            param,
        } => unless(
            is_index_only_scan(cat, q, *rel, *index, *backward, *param),
            at,
        ),
        Plan::Bitmap { rel, param, bits } => {
            unless(is_bitmap_scan(cat, q, *rel, *param, bits), at)
        }
        Plan::Sort { input, .. } => first_outside(cat, q, input, at + 1),
        Plan::Nest { outer, inner } => {
            match first_outside(cat, q, outer, at + 1) {
                Some(line) => Some(line),
                None => match first_outside(cat, q, inner, at + 1 + count_lines(outer)) {
                    Some(line) => Some(line),
                    None => unless(is_built_nest(cat, q, outer, inner), at),
                },
            }
        }
        Plan::Merge { keys, outer, inner } => {
            match first_outside(cat, q, outer, at + 1) {
                Some(line) => Some(line),
                None => match first_outside(cat, q, inner, at + 1 + count_lines(outer)) {
                    Some(line) => Some(line),
                    None => unless(is_built_merge(cat, q, keys, outer, inner), at),
                },
            }
        }
    }
}
