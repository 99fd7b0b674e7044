//! Paths of all relations brought into the order asked for, and their prices (PostgreSQL,
//! src/backend/optimizer/plan/planner.c, create_ordered_paths; src/backend/optimizer/util/pathnode.c,
//! get_cheapest_fractional_path).

ghost use Rattle.std.specs.Prelude.{◌≡◌, ◌⊎◌, ◌<◌, ◌≤◌, ℕ, All, IfNone, IfOk, IfSome, None, Some, length, map};
ghost use Rattle.cost_rules.specs.work.Costs.{IsCost};
ghost use Rattle.pathkeys.specs.Keys as keys;
ghost use Rattle.pathkeys.specs.work.Keys as keys_work;
ghost use Rattle.plan_tree.specs.Least.{IsAdmissible};
ghost use Rattle.plan_tree.specs.work.Paths.{HasItsNumbers};
ghost use Rattle.plan_tree.specs.Plans as plans;
ghost use Rattle.plan_tree.specs.work.Views.{path};
ghost use Rattle.planner.specs.work.Finishing.{HasItsPrice, IsLeastPlace, IsPriced, IsSortedCost, IsWhole, NoneFinishes, finished, finished_kept, finished_of};
ghost use Rattle.planner.specs.work.Priced.{IsUnder};

use catalog::Catalog;
use cost_rules::{MOST_COST, Pair, sort};
use pathkeys::{Keys, covers};
use pg_base::Memory;
use plan_tree::{Path, Plan, cost_of, kept_of, price_of};
use sql_query::Prepared;
use std::alloc::Global;

/// A path of the least price of some.
#[derive(Clone, Copy)]
pub struct Least {
    /// Its place.
    pub at: usize,
    /// Its price in the order asked for.
    pub price: u64,
}

/// The cost of a sort of the path's plan, as a path keeps it, cut to at most 10^18.
fn sorted_cost(cat: &Catalog, q: &Prepared, p: &Path) -> Pair
    requires whole { IsWhole cat.now q.now (path p.now) }
    ensures kept { IsSortedCost cat.now q.now p.now result }
    ensures cost { IsCost result }
{
    let input = cost_of(cat, q, p);
    kept_of(q, sort(input, p.rows))
}

/// The cost of the path's plan in the order asked for, as a path keeps it, cut to at most 10^18.
fn finished_cost(cat: &Catalog, q: &Prepared, p: &Path, order: &Keys) -> Pair
    requires whole { IsWhole cat.now q.now (path p.now) }
    requires order { order.now ≡ keys.order_keys q.now.classes q.now.order }
    ensures kept { result ≡ finished_kept cat.now q.now p.now }
    ensures cost { IsCost result }
{
    if covers(&p.keys, order) {
        cost_of(cat, q, p)
    } else {
        sorted_cost(cat, q, p)
    }
}

/// The price of the path's plan in the order asked for. None exactly where it is not admissible then.
fn finished_price(cat: &Catalog, q: &Prepared, p: &Path, order: &Keys) -> Option<u64>
    requires whole { IsWhole cat.now q.now (path p.now) }
    requires order { order.now ≡ keys.order_keys q.now.classes q.now.order }
    ensures priced { IfSome result (λ n. IsPriced cat.now q.now (path p.now) n) }
    ensures none { IfNone result (¬ IsAdmissible cat.now q.now (finished_of cat.now q.now p.now)) }
{
    cat.lawful();
    let cost = finished_cost(cat, q, p, order);
    if cost.total >= MOST_COST {
        return None;
    }
    Some(price_of(q, cost, p.rows))
}

/// The first of two where it is of no greater price.
fn lesser(best: Option<Least>, new: Least) -> Least
    ensures first { (n : ℕ) → IsUnder best n → result.price ≤ n }
    ensures this { result.price ≤ new.price }
    ensures from { (best ≡ Some result) ⊎ (result ≡ new) }
{
    match best {
        Some(least) => { if least.price <= new.price { least } else { new } }
        None => new,
    }
}

/// The least price of some paths and of one more, if that one has a price.
fn least_with(best: Option<Least>, at: usize, price: Option<u64>) -> Option<Least>
    ensures first { (n : ℕ) → IsUnder best n → IsUnder result n }
    ensures this { (n : ℕ) → price ≡ Some n → IsUnder result n }
    ensures from { IfSome result (λ r. (best ≡ Some r) ⊎ ((r.at ≡ at) × (price ≡ Some r.price))) }
{
    match price {
        Some(price) => Some(lesser(best, Least { at, price })),
        None => best,
    }
}

/// A path whose plan, in the order asked for, is admissible and of the least price. None exactly where no plan of the paths
/// is admissible then.
pub fn least_place(cat: &Catalog, q: &Prepared, paths: &[Path], order: &Keys) -> Option<Least>
    requires whole { All (IsWhole cat.now q.now) (map path paths.now) }
    requires order { order.now ≡ keys.order_keys q.now.classes q.now.order }
    ensures within { IfSome result (λ l. l.at < length paths.now) }
    ensures priced { IfSome result (λ l. HasItsPrice cat.now q.now paths.now l) }
    ensures least { IfSome result (λ l. IsLeastPlace cat.now q.now paths.now l) }
    ensures none { IfNone result (NoneFinishes cat.now q.now paths.now) }
{
    let mut best = None;
    for at in 0..paths.len() {
        let price = finished_price(cat, q, &paths[at], order);
        best = least_with(best, at, price);
    }
    best
}

/// The path of a sort of the path's plan by the order keys, which is admissible. The error means out of memory.
fn sorted(alloc: Global, cat: &Catalog, q: &Prepared, p: Path, order: Keys) -> Result<Path, Memory>
    requires whole { IsWhole cat.now q.now (path p) }
    requires admissible { IsAdmissible cat.now q.now (plans.sort order (path p).tree) }
    ensures tree { IfOk result (λ made. (path made).tree ≡ plans.sort order (path p).tree) }
    ensures numbers { IfOk result (λ made. HasItsNumbers cat.now q.now (path made)) }
{
    cat.lawful();
    let cost = sorted_cost(cat, q, &p);
    let keys = order.copy(alloc)?;
    let (set, param, rows) = (p.set, p.param, p.rows);
    let input = Box::new(alloc, p.into_plan())?;
    Ok(Path {
        plan: Plan::Sort { keys: order, input },
        set,
        param,
        startup: cost.startup,
        cost: cost.total,
        rows,
        keys,
    })
}

/// The path of the path's plan in the order asked for, which is admissible. The error means out of memory.
pub fn finish(
    alloc: Global,
    cat: &Catalog,
    q: &Prepared,
    p: &Path,
    order: Keys,
) -> Result<Path, Memory>
    requires whole { IsWhole cat.now q.now (path p.now) }
    requires order { order ≡ keys.order_keys q.now.classes q.now.order }
    requires admissible { IsAdmissible cat.now q.now (finished cat.now q.now (path p.now).tree) }
    ensures tree { IfOk result (λ made. (path made).tree ≡ finished_of cat.now q.now p.now) }
    ensures numbers { IfOk result (λ made. HasItsNumbers cat.now q.now (path made)) }
{
    let made = p.copy(alloc)?;
    if covers(&made.keys, &order) {
        Ok(made)
    } else {
        sorted(alloc, cat, q, made, order)
    }
}
