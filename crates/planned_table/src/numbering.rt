//! The numbers of plans among paths that stand in the order of printing.

ghost use Rattle.std.specs.Prelude.{◌≡◌, ◌≢◌, ◌<◌, ◌≤◌, ℕ, All, Contains, IfNone, IfSome, Some, length, map, slice_get, take};
ghost use Rattle.pathkeys.specs.Keys as keys;
ghost use Rattle.pathkeys.specs.work.Keys as keys_work;
ghost use Rattle.plan_tree.specs.work.Reads.{ReadsBelow};
ghost use Rattle.plan_tree.specs.work.Views.{plan};
ghost use Rattle.plan_check.specs.Certificates.{plan_at, side_at};
ghost use Rattle.plan_check.specs.Limit.{MOST_ENTRIES};
ghost use Rattle.plan_check.specs.Views.{side};
ghost use Rattle.certificate_laws.specs.work.Made.{IsSideAmong};
ghost use Rattle.planned_table.specs.work.Numbering.{present, present_before, trees, trees_before, without_sort};

use crate::printing::size;
use pg_base::RelSet;
use plan_check::{Side, is_same_plan};
use plan_tree::{Path, Plan, set_of};

/// The first place in a range at which a path of the plan stands, from 0.
fn place_in(listed: &[&Path], from: usize, to: usize, tree: &Plan) -> Option<usize>
    requires within { to ≤ length listed.now }
    ensures before { IfSome result (λ n. n < to) }
    ensures found { IfSome result (λ n. slice_get (trees listed.now) n ≡ Some (plan tree.now)) }
    ensures none { IfNone result ((n : ℕ) →
        from ≤ n → n < to → slice_get (trees listed.now) n ≢ Some (plan tree.now)) }
{
    for n in from..to {
        if is_same_plan(&listed[n].plan, tree) {
            return Some(n);
        }
    }
    None
}

/// Whether a path stands in the order of printing before those of a set, and whether it does not stand behind them.
fn is_before(p: &Path, size_of_set: usize, set: RelSet) -> bool {
    let n = size(p.set);
    n < size_of_set || (n == size_of_set && p.set.0 < set.0)
}

fn is_no_later(p: &Path, size_of_set: usize, set: RelSet) -> bool {
    is_before(p, size_of_set, set) || p.set.0 == set.0
}

/// Where the paths of a plan's set are likely to stand: from one place to another. Any places will do.
fn likely_range(listed: &[&Path], tree: &Plan) -> (usize, usize)
    requires below { ReadsBelow 16 (plan tree.now) }
{
    let set = set_of(tree);
    let n = size(set);
    let from = listed.partition_point(|p| is_before(p, n, set));
    let to = listed.partition_point(|p| is_no_later(p, n, set));
    (from, to)
}

/// The place of a path of the plan among the first of a list, from 0.
fn place_of(listed: &[&Path], first: usize, tree: &Plan) -> usize
    requires within { first ≤ length listed.now }
    requires below { ReadsBelow 16 (plan tree.now) }
    requires there { Contains (take first (trees listed.now)) (plan tree.now) }
    ensures before { result < first }
    ensures found { slice_get (trees listed.now) result ≡ Some (plan tree.now) }
{
    let (from, to) = likely_range(listed, tree);
    if let Some(n) = place_in(listed, from, to.min(first), tree) {
        return n;
    }
    match place_in(listed, 0, first, tree) {
        Some(n) => n,
        None => unreachable!(),
    }
}

/// The number of a path of the plan among the first of a list, from 1.
pub(crate) fn number_of(listed: &[&Path], first: usize, tree: &Plan) -> u32
    requires few { length listed.now ≤ MOST_ENTRIES }
    requires within { first ≤ length listed.now }
    requires below { ReadsBelow 16 (plan tree.now) }
    requires there { Contains (take first (trees listed.now)) (plan tree.now) }
    ensures { plan_at (present (take first (trees listed.now))) result ≡ Some (plan tree.now) }
{
    place_of(listed, first, tree) as u32 + 1
}

/// The side of a merge by a list that a plan is: a sort by the list, or the plan as it stands.
pub(crate) fn side_of(listed: &[&Path], first: usize, tree: &Plan) -> Side
    requires few { length listed.now ≤ MOST_ENTRIES }
    requires within { first ≤ length listed.now }
    requires below { ReadsBelow 16 (plan tree.now) }
    requires there { Contains (take first (trees listed.now)) (without_sort (plan tree.now)) }
    ensures { (by : keys.Keys) → IsSideAmong (trees_before first listed.now) by (plan tree.now) →
        side_at (present_before first listed.now) by (side result) ≡ Some (plan tree.now) }
{
    match tree {
        Plan::Sort { input, .. } => Side {
            sort: true,
            entry: number_of(listed, first, input),
        },
        _ => Side {
            sort: false,
            entry: number_of(listed, first, tree),
        },
    }
}
