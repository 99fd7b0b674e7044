//! The best plan of a certificate held against the others that are finished.

ghost use Rattle.std.specs.Prelude.{◌≡◌, ◌≤◌};
ghost use Rattle.cost_rules.specs.work.Costs.{IsEstimate};
ghost use Rattle.plan_tree.specs.Costs.{query_rows};
ghost use Rattle.plan_tree.specs.work.Reads.{IsOverTables};
ghost use Rattle.plan_check.specs.Views.{side};
ghost use Rattle.plan_check.specs.work.Views.{certificate};
ghost use Rattle.entry_check.specs.plan_check_Reasons.{AllRight, HasBest};
ghost use Rattle.certificate_check.specs.work.Pricing.{IsLeastOnSide, IsLeastOnSides, IsSomePrice};
ghost use Rattle.cost_rules.specs.work.Worse.{IsNoWorse};
ghost use Rattle.certificate_check.specs.work.Checked.{JudgesBest};

use crate::sides::price_of_side;
use catalog::Catalog;
use cost_rules::{Price, better, is_no_worse};
use entry_check::{all_relations, set_rows};
use plan_check::{Certificate, Side};
use sql_query::Prepared;

/// The better one of a price and that of a side, where this is a finished plan.
fn better_side(
    cat: &Catalog,
    q: &Prepared,
    t: &Certificate,
    least: Price,
    s: Side,
    rows: u64,
) -> Price
    requires query { IsOverTables cat.now q.now }
    requires right { AllRight cat.now q.now (certificate t.now) }
    requires rows { rows ≡ query_rows cat.now q.now }
    requires estimate { IsEstimate rows }
    requires least { IsSomePrice cat.now q.now (certificate t.now) least }
    ensures some { IsSomePrice cat.now q.now (certificate t.now) result }
    ensures first { IsNoWorse result least }
    ensures this { IsLeastOnSide cat.now q.now (certificate t.now) (side s) result }
{
    match price_of_side(cat, q, t, s, rows) {
        Some(x) => better(least, x),
        None => least,
    }
}

/// The price of the least of the finished plans over the entries, of which one has the price that was passed.
fn least_price(cat: &Catalog, q: &Prepared, t: &Certificate, best: Price, rows: u64) -> Price
    requires query { IsOverTables cat.now q.now }
    requires right { AllRight cat.now q.now (certificate t.now) }
    requires rows { rows ≡ query_rows cat.now q.now }
    requires estimate { IsEstimate rows }
    requires best { IsSomePrice cat.now q.now (certificate t.now) best }
    ensures some { IsSomePrice cat.now q.now (certificate t.now) result }
    ensures least { IsLeastOnSides cat.now q.now (certificate t.now) result }
{
    let mut least = best;
    for n in 0..t.entries.items().len() {
        let entry = n as u32 + 1;
        let plain = better_side(cat, q, t, least, Side { sort: false, entry }, rows);
        least = better_side(cat, q, t, plain, Side { sort: true, entry }, rows);
    }
    least
}

/// The price of the best plan and the least price of a finished plan over an entry, where the best plan is not the least:
/// the least of those that cost less than 10^18 in all, or of all where none does. None exactly where it is the least. The
/// conditions are that each entry is right and that the best plan is finished. Both prices are exact, and no memory is
/// taken.
pub fn judge_best(cat: &Catalog, q: &Prepared, t: &Certificate) -> Option<(u64, u64)>
    requires query { IsOverTables cat.now q.now }
    requires right { AllRight cat.now q.now (certificate t.now) }
    requires best { HasBest cat.now q.now (certificate t.now) }
    ensures { JudgesBest cat.now q.now (certificate t.now) result }
{
    let rows = set_rows(cat, q, all_relations(q));
    let best = match price_of_side(cat, q, t, t.best, rows) {
        Some(best) => best,
        None => unreachable!(),
    };
    let least = least_price(cat, q, t, best, rows);
    if is_no_worse(best, least) {
        return None;
    }
    Some((best.amount, least.amount))
}
