//! What a search is asked for: which keys count, and below what cost plans are looked for (PostgreSQL,
//! src/backend/optimizer/path/pathkeys.c, truncate_useless_pathkeys; the limit is own).

ghost use Rattle.std.specs.Prelude.{◌≡◌, ◌<◌, ◌≤◌, ◌&&◌, All, IfOk, IsTrue, false, length, nat_lt, take};
ghost use Rattle.pg_base.specs.Sets.{has};
ghost use Rattle.cost_rules.specs.Costs as costs;
ghost use Rattle.cost_rules.specs.work.Costs as costs_work;
ghost use Rattle.cost_rules.specs.work.Costs.{IsEstimate};
ghost use Rattle.cost_rules.specs.declared.parameters.TheConstants.{MOST_COST};
ghost use Rattle.eq_classes.specs.Listing.{class_at};
ghost use Rattle.eq_classes.specs.Parts.{has_in};
ghost use Rattle.pathkeys.specs.work.Finding.{class_numbers};
ghost use Rattle.pathkeys.specs.Keys as keys;
ghost use Rattle.pathkeys.specs.work.Keys as keys_work;
ghost use Rattle.plan_tree.specs.Costs as plans;
ghost use Rattle.plan_tree.specs.work.Costs as plans_work;
ghost use Rattle.join_search.specs.work.Sufficing.{BeginsWithOpen, IsCostPast, IsPartOutside, floor_in};

use cost_rules::{MOST_COST, Pair, price};
use eq_classes::ClassNo;
use pathkeys::{Keys, covers, order_keys};
use pg_base::{Memory, RelSet};
use plan_tree::{asked, classes_of};
use sql_query::{Prepared, Window};
use std::alloc::Global;

/// What a search is asked for.
#[derive(Clone, Copy)]
pub struct Asked {
    /// A path is kept for any keys that no cheaper one has; else only for those by which a later join or the order asked for
    /// may still profit.
    pub every_key: bool,
    /// What costs so much is left out: in all, or where the query has a window for the rows asked for.
    pub limit: u64,
}

/// What the rows that a window asks for, of so many, cost of any two costs.
fn windowed(w: Window, whole: u64, cost: Pair) -> u64
    requires { IsEstimate whole }
    ensures { result ≡ costs.price_of cost (plans.asked w whole) whole }
{
    if cost.total <= cost.startup {
        return cost.startup;
    }
    price(cost, asked(w, whole), whole)
}

/// What a plan of a cost costs at least in whatever is made of it, where all relations give so many rows.
fn floor_of(q: &Prepared, whole: u64, cost: Pair) -> u64
    requires { IsEstimate whole }
    ensures { result ≡ floor_in q.now.window whole cost }
{
    match q.window {
        None => cost.total,
        Some(w) => windowed(w, whole, cost),
    }
}

/// Whether a plan of a cost is admissible, and its floor below the limit, where all relations give so many rows.
pub(crate) fn is_below(q: &Prepared, asked: Asked, whole: u64, cost: Pair) -> bool
    requires { IsEstimate whole }
    ensures yes { IsTrue result → cost.total < MOST_COST }
    ensures no { result ≡ false → IsCostPast q.now asked whole cost }
{
    let floor = floor_of(q, whole, cost);
    cost.total < MOST_COST && floor < asked.limit
}

/// Whether a class has a member in a set.
fn has_member(q: &Prepared, class: ClassNo, set: RelSet) -> bool
    requires { class.0 < length q.now.classes.classes }
    ensures { result ≡ has_in (class_at q.now.classes.classes class.0) (has set.0) }
{
    classes_of(q).member(class, set).is_some()
}

/// How many classes a list begins with that have a member in a set.
fn open_classes(q: &Prepared, outside: RelSet, list: &[ClassNo]) -> usize
    requires { All (λ n. n < length q.now.classes.classes) (class_numbers list.now) }
    ensures within { result ≤ length list.now }
    ensures begins { BeginsWithOpen q.now outside list.now result }
{
    for n in 0..list.len() {
        if !has_member(q, list[n], outside) {
            return n;
        }
    }
    list.len()
}

/// The greater number of classes: so many, or those of the order keys where a list begins with them.
fn used_classes(free: usize, list: &Keys, order: &Keys) -> usize
    requires { free ≤ length list.now }
    ensures free { free ≤ result }
    ensures order { IsTrue (keys.covers list.now order.now) → length order.now ≤ result }
    ensures within { result ≤ length list.now }
{
    if !covers(list, order) {
        return free;
    }
    free.max(order.items().len())
}

/// The first classes of a list. The error means out of memory.
fn first_classes(alloc: Global, list: &Keys, n: usize) -> Result<Keys, Memory>
    requires { n ≤ length list.now }
    ensures { IfOk result (λ ks. ks ≡ take n list.now) }
{
    Keys::from_slice(alloc, &list.items()[..n])
}

/// The order keys of a query. The error means out of memory.
pub fn order_asked(alloc: Global, q: &Prepared) -> Result<Keys, Memory>
    ensures { IfOk result (λ ks. ks ≡ keys.order_keys q.now.classes q.now.order) }
{
    order_keys(alloc, classes_of(q), q.order.items())
}

/// The part of the keys of a path of a set that can still be of use: classes that have a member outside of the set, so that
/// they may still join, or the order keys, which are lent. The error means out of memory.
pub(crate) fn useful(
    alloc: Global,
    q: &Prepared,
    asked: Asked,
    order: &Keys,
    outside: RelSet,
    list: &Keys,
) -> Result<Keys, Memory>
    requires order { order.now ≡ keys.order_keys q.now.classes q.now.order }
    requires classes { All (λ n. n < length q.now.classes.classes) list.now }
    ensures { IfOk result (λ part. IsPartOutside q.now asked outside list.now part) }
{
    if asked.every_key {
        return list.copy(alloc);
    }
    let free = open_classes(q, outside, list.items());
    let used = used_classes(free, list, order);
    first_classes(alloc, list, used)
}
