//! The least price of a query, and the candidates with which alone it is the same.

ghost use Rattle.std.specs.Prelude.{◌≡◌, ◌<◌, ◌≤◌, length, IfOk, IfSome};
ghost use Rattle.advisor.specs.work.Memos.{IsBelow};
ghost use Rattle.cost_rules.specs.declared.parameters.TheConstants.{MOST_COST};
ghost use Rattle.sql_query.specs.WellBound.{IsWellBound};
ghost use Rattle.plan_tree.specs.Costs as costs;
ghost use Rattle.plan_tree.specs.work.Costs as costs_work;
ghost use Rattle.plan_tree.specs.Least.{IsAdmissible, IsBestPlan};
ghost use Rattle.plan_tree.specs.work.Paths.{IsFinishedPath};
ghost use Rattle.plan_tree.specs.work.Views.{path};
ghost use Rattle.plan_laws.specs.work.Fewer.{HasRoom};
ghost use Rattle.index_prices.specs.Prices.{IsLeastPrice};
ghost use Rattle.index_prices.specs.work.Quotes.{IsQuoteOver};

use crate::reading::candidates_read;
use crate::room::has_room;
use advisor::Quote;
use catalog::{Candidate, Catalog};
use path_cost::rows;
use pg_base::{MOST_CANDIDATES, Memory, RelSet};
use plan_tree::{Path, classes_of, cost_of, price_of, range_of};
use planner::{PlanFault, plan};
use sql_query::Prepared;
use std::alloc::{AllocError, Global};

/// The price of a finished plan that is admissible: the total, or under a window what the rows asked for cost.
fn price(cat: &Catalog, q: &Prepared, p: &Path) -> u64
    requires bound { IsWellBound cat.now q.now }
    requires finished { IsFinishedPath cat.now q.now (path p.now) }
    requires admissible { IsAdmissible cat.now q.now (path p.now).tree }
    ensures price { result ≡ costs.price cat.now q.now (path p.now).tree }
    ensures below { result < MOST_COST }
{
    cat.lawful();
    let all = rows(cat, range_of(q), classes_of(q), p.set);
    price_of(q, cost_of(cat, q, p), all)
}

/// The least price of a query: that of an admissible finished plan that no other one undercuts. None exactly where no finished
/// plan is admissible. The error means out of memory.
fn least_price(alloc: Global, cat: &Catalog, q: &Prepared) -> Result<Option<u64>, Memory>
    requires { IsWellBound cat.now q.now }
    ensures price { IfOk result (IsLeastPrice cat.now q.now) }
    ensures below { IfOk result (λ o. IfSome o (λ n. n < MOST_COST)) }
{
    match plan(alloc, cat, q) {
        Ok(planned) => Ok(Some(price(cat, q, &planned.best))),
        Err(PlanFault::CostLimit) => Ok(None),
        Err(PlanFault::Memory) => Err(AllocError),
    }
}

/// What a plan of least price costs, and the candidates of a set that it reads.
fn quote_of(cat: &Catalog, candidates: &[Candidate], set: u16, q: &Prepared, best: &Path) -> Quote
    requires bound { IsWellBound cat.now q.now }
    requires few { length candidates.now ≤ MOST_CANDIDATES }
    requires room { HasRoom cat.now q.now }
    requires finished { IsFinishedPath cat.now q.now (path best.now) }
    requires best { IsBestPlan cat.now q.now (path best.now).tree }
    ensures quote { IsQuoteOver cat.now candidates.now q.now set result }
    ensures below { IsBelow set result }
{
    let used = candidates_read(cat, candidates, set, &best.plan);
    let cost = Some(price(cat, q, best));
    Quote { cost, used }
}

/// The least price of a query where bitmaps have room, and the candidates of a set that a plan of it reads. The error means
/// that memory ran out.
fn read_quote(
    alloc: Global,
    cat: &Catalog,
    candidates: &[Candidate],
    set: u16,
    q: &Prepared,
) -> Result<Quote, Memory>
    requires bound { IsWellBound cat.now q.now }
    requires few { length candidates.now ≤ MOST_CANDIDATES }
    requires room { HasRoom cat.now q.now }
    ensures quote { IfOk result (IsQuoteOver cat.now candidates.now q.now set) }
    ensures below { IfOk result (IsBelow set) }
{
    match plan(alloc, cat, q) {
        Ok(planned) => Ok(quote_of(cat, candidates, set, q, &planned.best)),
        Err(PlanFault::CostLimit) => Ok(Quote {
            cost: None,
            used: RelSet::empty().0,
        }),
        Err(PlanFault::Memory) => Err(AllocError),
    }
}

/// The least price of a query over a catalogue with a set of candidates, and those of the set with which alone it is the
/// same: all that its plan reads, or the whole set where one index more may leave an OR out of a bitmap. The error means
/// that memory ran out.
pub(crate) fn least_quote(
    alloc: Global,
    cat: &Catalog,
    candidates: &[Candidate],
    set: u16,
    q: &Prepared,
) -> Result<Quote, Memory>
    requires bound { IsWellBound cat.now q.now }
    requires few { length candidates.now ≤ MOST_CANDIDATES }
    ensures quote { IfOk result (IsQuoteOver cat.now candidates.now q.now set) }
    ensures below { IfOk result (IsBelow set) }
{
    if has_room(cat, q) {
        return read_quote(alloc, cat, candidates, set, q);
    }
    let cost = least_price(alloc, cat, q)?;
    Ok(Quote { cost, used: set })
}
