//! Which plans are sorts, and whether a plan may be a side of a merge by a list of classes.

ghost use Rattle.std.specs.Prelude.{◌≡◌, ◌≤◌, ◌↔◌, IsTrue, length};
ghost use Rattle.std.specs.Option.{option_map};
ghost use Rattle.plan_tree.specs.work.Costable.{IsCostable};
ghost use Rattle.plan_tree.specs.Plans as plans;
ghost use Rattle.plan_tree.specs.Space.{HasKeys};
ghost use Rattle.plan_tree.specs.work.Views.{plan};
ghost use Rattle.plan_space.specs.work.Sorts as sorts;

use crate::keys::keys_begin_with;
use catalog::Catalog;
use pathkeys::{Keys, covers};
use plan_tree::Plan;
use sql_query::Prepared;

/// Whether a plan is a sort.
pub(crate) fn is_sort(p: &Plan) -> bool
    ensures { result ≡ plans.is_sort (plan p.now) }
{
    match p {
        Plan::Seq { .. } => false,
        Plan::Index { .. } => false,
        Plan::IndexOnly { .. } => false,
        Plan::Bitmap { .. } => false,
        Plan::Sort { .. } => true,
        Plan::Nest { .. } => false,
        Plan::Merge { .. } => false,
    }
}

/// The list by which a plan sorts. None where it is no sort.
pub(crate) fn sort_list(p: &Plan) -> Option<&Keys>
    ensures { option_map (λ k. k.now) result ≡ sorts.sort_list (plan p.now) }
{
    match p {
        Plan::Seq { .. } => None,
        Plan::Index { .. } => None,
        Plan::IndexOnly { .. } => None,
        Plan::Bitmap { .. } => None,
        Plan::Sort { keys, .. } => Some(keys),
        Plan::Nest { .. } => None,
        Plan::Merge { .. } => None,
    }
}

/// Whether a plan may be a side of a merge by a list of at most 255 classes: it sorts by exactly the list, or is no sort
/// and its keys begin with the list.
pub fn has_keys(cat: &Catalog, q: &Prepared, p: &Plan, list: &Keys) -> bool
    requires plan { IsCostable cat.now q.now (plan p.now) }
    requires few { length list.now ≤ 255 }
    ensures { IsTrue result ↔ HasKeys cat.now q.now (plan p.now) list.now }
{
    match sort_list(p) {
        Some(own) => covers(own, list) && covers(list, own),
        None => keys_begin_with(cat, q, p, list.items()),
    }
}
