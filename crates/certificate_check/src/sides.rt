//! Sides of a certificate that are finished plans, and their prices.

ghost use Rattle.std.specs.Prelude.{◌≡◌, ◌≤◌, IfNone, IfSome};
ghost use Rattle.cost_rules.specs.work.Costs.{IsEstimate};
ghost use Rattle.plan_tree.specs.Costs.{query_rows};
ghost use Rattle.plan_tree.specs.work.Reads.{IsOverTables};
ghost use Rattle.plan_check.specs.Views.{side};
ghost use Rattle.plan_check.specs.work.Views.{certificate, entry};
ghost use Rattle.entry_check.specs.plan_check_Reasons.{AllRight};
ghost use Rattle.certificate_check.specs.work.Pricing.{HasNoFinish, IsFinishedEntry, IsKeptCost, IsPriceOfEntry, IsPriced};

use catalog::Catalog;
use cost_rules::{MOST_COST, Pair, Price, sort_total};
use entry_check::finished_side;
use entry_check::plan_check::counted;
use plan_check::{Certificate, Entry, Side};
use plan_tree::price_of;
use sql_query::Prepared;

/// What a finished plan over a right entry costs, where the entry is sorted into the order asked for or not; before the
/// first row 0 where the query has no window.
fn finished_cost(cat: &Catalog, q: &Prepared, e: &Entry, sort: bool, rows: u64) -> Pair
    requires side { IsFinishedEntry cat.now q.now (entry e.now) sort }
    requires rows { rows ≡ query_rows cat.now q.now }
    requires estimate { IsEstimate rows }
    ensures kept { IsKeptCost cat.now q.now (entry e.now) sort result }
    ensures startup { result.startup ≤ result.total }
{
    cat.lawful();
    if sort {
        let sorted = sort_total(e.cost, rows);
        return Pair {
            startup: counted(q, sorted.startup),
            total: sorted.total,
        };
    }
    Pair {
        startup: counted(q, e.startup),
        total: e.cost,
    }
}

/// The price of the plan of an entry, sorted into the order asked for where that is set.
fn price_of_entry(cat: &Catalog, q: &Prepared, e: &Entry, sort: bool, rows: u64) -> Price
    requires side { IsFinishedEntry cat.now q.now (entry e.now) sort }
    requires rows { rows ≡ query_rows cat.now q.now }
    requires estimate { IsEstimate rows }
    ensures { IsPriceOfEntry cat.now q.now (entry e.now) sort result }
{
    let cost = finished_cost(cat, q, e, sort, rows);
    Price {
        amount: price_of(q, cost, rows),
        admissible: cost.total < MOST_COST,
    }
}

/// The price of a side that is a finished plan: an entry of all relations in the order asked for, or sorted into it. None
/// exactly where it is none. `rows` is what the query is taken to give. The condition is that each entry is right. It is
/// exact, and takes no memory.
pub fn price_of_side(
    cat: &Catalog,
    q: &Prepared,
    t: &Certificate,
    s: Side,
    rows: u64,
) -> Option<Price>
    requires query { IsOverTables cat.now q.now }
    requires right { AllRight cat.now q.now (certificate t.now) }
    requires rows { rows ≡ query_rows cat.now q.now }
    requires estimate { IsEstimate rows }
    ensures some { IfSome result (λ x. IsPriced cat.now q.now (certificate t.now) (side s) x) }
    ensures none { IfNone result (HasNoFinish cat.now q.now (certificate t.now) (side s)) }
{
    match finished_side(cat, q, t, s) {
        Some(e) => Some(price_of_entry(cat, q, e, s.sort, rows)),
        None => None,
    }
}
