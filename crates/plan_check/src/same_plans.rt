//! Plans.

ghost use Rattle.std.specs.Prelude.{◌≡◌, ◌↔◌, IsTrue};
ghost use Rattle.plan_tree.specs.work.Views.{plan};

use crate::same_bits::is_same_tree;
use plan_tree::Plan;
use plan_tree::pathkeys::Keys;

/// Whether two key lists are equal.
fn are_same_keys(a: &Keys, b: &Keys) -> bool
    ensures { IsTrue result ↔ (a.now ≡ b.now) }
{
    a.items() == b.items()
}

/// Whether two plans are the same tree.
pub fn is_same_plan(a: &Plan, b: &Plan) -> bool
    ensures { IsTrue result ↔ (plan a.now ≡ plan b.now) }
{
    match (a, b) {
        (Plan::Seq { rel: r }, Plan::Seq { rel: s }) => r.0 == s.0,
        (
            Plan::Index {
                rel: r,
                index: i,
                backward: x,
                param: p,
            },
            Plan::Index {
                rel: s,
                index: j,
                backward: y,
                param: o,
            },
        ) => r.0 == s.0 && i.0 == j.0 && x == y && p.0 == o.0,
        (
            Plan::IndexOnly {
                rel: r,
                index: i,
                backward: x,
                param: p,
            },
            Plan::IndexOnly {
                rel: s,
                index: j,
                backward: y,
                param: o,
            },
        ) => r.0 == s.0 && i.0 == j.0 && x == y && p.0 == o.0,
        (
            Plan::Bitmap {
                rel: r,
                param: p,
                bits: x,
            },
            Plan::Bitmap {
                rel: s,
                param: o,
                bits: y,
            },
        ) => r.0 == s.0 && p.0 == o.0 && is_same_tree(x, y),
        (Plan::Sort { keys: k, input: x }, Plan::Sort { keys: l, input: y }) => {
            are_same_keys(k, l) && is_same_plan(x, y)
        }
        (Plan::Nest { outer: x, inner: z }, Plan::Nest { outer: y, inner: w }) => {
            is_same_plan(x, y) && is_same_plan(z, w)
        }
        (
            Plan::Merge {
                keys: k,
                outer: x,
                inner: z,
            },
            Plan::Merge {
                keys: l,
                outer: y,
                inner: w,
            },
        ) => are_same_keys(k, l) && is_same_plan(x, y) && is_same_plan(z, w),
        _ => false,
    }
}
