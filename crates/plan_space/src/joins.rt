//! Which joins of two plans are in the plan space (PostgreSQL, src/backend/optimizer/README, Paths and Join Pairs, and
//! Parameterized Paths).

ghost use Rattle.std.specs.Prelude.{◌≡◌, ◌≤◌, ◌↔◌, ℕ, IsTrue};
ghost use Rattle.pg_base.specs.Sets.{has};
ghost use Rattle.plan_tree.specs.work.Costable.{IsCostable};
ghost use Rattle.plan_tree.specs.Plans as plans;
ghost use Rattle.plan_tree.specs.work.Reads.{IsOverTables, ReadsBelow};
ghost use Rattle.plan_tree.specs.work.Views.{plan};
ghost use Rattle.plan_space.specs.work.MergeLists.{AreWholeSides, TellsMergeList, are_classes_found, is_class_found};
ghost use Rattle.plan_tree.specs.Space.{AreSides, IsMerge, IsNest};

use crate::keys::is_at;
use crate::sorts::{has_keys, is_sort};
use catalog::Catalog;
use eq_classes::{ClassNo, Classes};
use pathkeys::Keys;
use pg_base::{MOST_MERGE_KEYS, RelSet};
use plan_tree::{Plan, classes_of, set_of};
use sql_query::Prepared;

/// The relations whose rows a plan must be given.
pub(crate) fn param_of(p: &Plan) -> RelSet
    ensures members { (k : ℕ) → has result.0 k ≡ plans.param_of (plan p.now) k }
{
    match p {
        Plan::Seq { .. } => RelSet::empty(),
        Plan::Index { param, .. } => *param,
        Plan::IndexOnly { param, .. } => *param,
        Plan::Bitmap { param, .. } => *param,
        Plan::Sort { input, .. } => param_of(input),
        Plan::Nest { .. } => RelSet::empty(),
        Plan::Merge { .. } => RelSet::empty(),
    }
}

/// Whether two plans may be the sides of a join: they read no relation in common, and the outer one is given no rows.
fn are_sides(outer: &Plan, inner: &Plan) -> bool
    requires outer { ReadsBelow 16 (plan outer.now) }
    requires inner { ReadsBelow 16 (plan inner.now) }
    ensures { IsTrue result ↔ AreSides (plan outer.now) (plan inner.now) }
{
    !set_of(outer).meets(set_of(inner)) && param_of(outer).is_empty()
}

/// Whether a nested loop of two plans is in the plan space: neither is a sort, and the rows that the inner one must be
/// given are of relations that the outer one reads.
pub fn is_nest(outer: &Plan, inner: &Plan) -> bool
    requires outer { ReadsBelow 16 (plan outer.now) }
    requires inner { ReadsBelow 16 (plan inner.now) }
    ensures { IsTrue result ↔ IsNest (plan outer.now) (plan inner.now) }
{
    are_sides(outer, inner)
        && param_of(inner).within(set_of(outer))
        && !is_sort(outer)
        && !is_sort(inner)
}

/// Whether a class was found.
fn is_one_of(found: &[Option<ClassNo>], c: ClassNo) -> bool
    ensures { result ≡ is_class_found found.now c }
{
    found.iter().any(|other| is_at(*other, c))
}

/// Whether each class of a list was found.
fn are_found(found: &[Option<ClassNo>], list: &[ClassNo]) -> bool
    ensures { result ≡ are_classes_found found.now list.now }
{
    list.iter().all(|c| is_one_of(found, *c))
}

/// Whether a merge of two sets may be by a list: 1 to [`MOST_MERGE_KEYS`] different classes of the first
/// [`MOST_JOINING_CLASSES`](pg_base::MOST_JOINING_CLASSES) that join the sets (own).
pub fn is_merge_list(classes: &Classes, a: RelSet, b: RelSet, list: &Keys) -> bool
    ensures { TellsMergeList classes.now a b list.now result }
{
    let list = list.items();
    if list.is_empty() || list.len() > MOST_MERGE_KEYS {
        return false;
    }
    are_found(&classes.joining(a, b), list)
}

/// Whether two plans may be the sides of a merge: they read no relation in common, and neither is given rows.
fn are_whole_sides(outer: &Plan, inner: &Plan) -> bool
    requires outer { ReadsBelow 16 (plan outer.now) }
    requires inner { ReadsBelow 16 (plan inner.now) }
    ensures { IsTrue result ↔ AreWholeSides (plan outer.now) (plan inner.now) }
{
    are_sides(outer, inner) && param_of(inner).is_empty()
}

/// Whether a merge of two plans by a list is in the plan space: neither is given rows, the list may be that of a merge of
/// their sets ([`is_merge_list`]), and each has the list.
pub fn is_merge(cat: &Catalog, q: &Prepared, list: &Keys, outer: &Plan, inner: &Plan) -> bool
    requires query { IsOverTables cat.now q.now }
    requires outer { IsCostable cat.now q.now (plan outer.now) }
    requires inner { IsCostable cat.now q.now (plan inner.now) }
    ensures { IsTrue result ↔ IsMerge cat.now q.now list.now (plan outer.now) (plan inner.now) }
{
    if !are_whole_sides(outer, inner) {
        return false;
    }
    if !is_merge_list(classes_of(q), set_of(outer), set_of(inner), list) {
        return false;
    }
    has_keys(cat, q, outer, list) && has_keys(cat, q, inner, list)
}
