//! Joins offered to the front of a set.

ghost use Rattle.std.specs.Prelude.{◌≡◌, ◌<◌, ◌≤◌, All, Contains, IfNone, IfOk, IfSome, IsTrue, OnOk, [], false, length, map};
ghost use Rattle.cost_rules.specs.declared.parameters.TheConstants.{MOST_COST};
ghost use Rattle.plan_tree.specs.Keys.{keys_of};
ghost use Rattle.plan_tree.specs.work.Views.{path, plan};
ghost use Rattle.join_search.specs.work.Joins.{IsPathAt};
ghost use Rattle.join_search.specs.work.Splits.{ArePathsOfSet, IsJoinOf, IsOver, kept_of};
ghost use Rattle.join_search.specs.work.Tables.{none};
ghost use Rattle.join_search.specs.work.Outcomes.{FrontHasDominating, MayPassOver, TakesOne};

use crate::splits::Split;
use crate::useful::{is_below, useful};
use catalog::Catalog;
use cost_rules::{MOST_COST, Pair};
use kept_paths::KeptPaths;
use pathkeys::Keys;
use pg_base::{Memory, RelSet};
use plan_tree::{Path, Plan};
use std::alloc::Global;

/// A path of least cost. None exactly where there are no paths.
pub(crate) fn cheapest(paths: &[Path]) -> Option<&Path>
    ensures is_there { IfSome result (λ p. Contains paths.now p.now) }
    ensures least { IfSome result (λ p. All (λ o. p.now.cost ≤ o.cost) paths.now) }
    ensures none { IfNone result (paths.now ≡ []) }
{
    paths.iter().min_by_key(|p| p.cost)
}

/// What the cheapest of some paths costs, or more than any path.
pub(crate) fn least_cost(paths: &[Path]) -> u64
    ensures { All (λ p. result ≤ p.cost) paths.now }
{
    match cheapest(paths) {
        Some(p) => p.cost,
        None => u64::MAX,
    }
}

/// Whether all joins with these keys that cost no less may be left out: they are past the limit, or a kept path costs no more,
/// with keys that begin with their part of use. The error means out of memory.
pub(crate) fn is_passed_over(
    alloc: Global,
    j: &Split,
    least: Pair,
    keys: &Keys,
    front: &KeptPaths,
) -> Result<bool, Memory>
    requires over { IsOver j.now }
    requires classes { All (λ n. n < length j.now.q.now.classes.classes) keys.now }
    requires front { ArePathsOfSet j.now (map path front.now) }
    ensures served { IfOk result (λ b. IsTrue b → MayPassOver j.now front.now least keys.now) }
    ensures below { IfOk result (λ b. b ≡ false → least.total < MOST_COST) }
{
    if !is_below(j.q, j.asked, j.whole, least) {
        return Ok(true);
    }
    let part = useful(alloc, j.q, j.asked, j.order, j.outside, keys)?;
    front.is_beaten(alloc, least, &part)
}

/// The path of a join whose cost and keys are given.
fn join_path(j: &Split, t: Plan, cost: Pair, keys: Keys) -> Path
    requires over { IsOver j.now }
    requires of { IsJoinOf j.now (plan t) }
    requires cost { cost ≡ kept_of j.now (plan t) }
    requires below { cost.total < MOST_COST }
    requires keys { keys ≡ keys_of j.now.cat.now j.now.q.now (plan t) }
    ensures tree { (path result).tree ≡ plan t }
    ensures stands { IsPathAt j.now.cat.now j.now.q.now j.now.set none (path result) }
{
    let cat: &Catalog = j.cat;
    cat.lawful();
    Path {
        plan: t,
        set: j.set,
        param: RelSet(0),
        startup: cost.startup,
        cost: cost.total,
        rows: j.rows,
        keys,
    }
}

/// Offers a join to the front of its set. The error means out of memory.
pub(crate) fn offer_join(
    alloc: Global,
    j: &Split,
    t: Plan,
    cost: Pair,
    keys: Keys,
    front: &mut KeptPaths,
) -> Result<(), Memory>
    requires over { IsOver j.now }
    requires of { IsJoinOf j.now (plan t) }
    requires cost { cost ≡ kept_of j.now (plan t) }
    requires below { cost.total < MOST_COST }
    requires keys { keys ≡ keys_of j.now.cat.now j.now.q.now (plan t) }
    requires front { ArePathsOfSet j.now (map path front.old) }
    ensures takes { TakesOne j.now (plan t) front.old front.new }
    ensures served { OnOk result (FrontHasDominating j.now front.new (plan t)) }
{
    let made = join_path(j, t, cost, keys);
    front.offer(alloc, made)
}
