//! The plan that a query is answered by.

ghost use Rattle.std.specs.Prelude.{◌≡◌, ◌<◌, ℕ, All, IfErr, IfNone, IfOk, IfSome, MatchOption, map};
ghost use Rattle.sql_query.specs.Queries.{width};
ghost use Rattle.plan_tree.specs.work.Reads.{IsOverTables};
ghost use Rattle.join_search.specs.work.Joins.{HaveSameScans, IsBase};
ghost use Rattle.planner.specs.work.Bases.{HaveScansOf};
ghost use Rattle.pathkeys.specs.Keys as keys;
ghost use Rattle.pathkeys.specs.work.Keys as keys_work;
ghost use Rattle.sql_query.specs.WellBound.{IsWellBound};
ghost use Rattle.plan_tree.specs.work.Views.{path};
ghost use Rattle.join_search.specs.work.Tables.{none, paths_at};
ghost use Rattle.planner.specs.work.Finishing.{AreCandidates, HasBestPlan, HasFinished, HasNoAdmissiblePlan, HasNoneWithin, IsWhole};
ghost use Rattle.planner.specs.declared.least_plan.PlanFault.TheVariants.{CostLimit};

use crate::base::base_table;
use crate::finishing::{finish, least_place};
use catalog::Catalog;
use cost_rules::MOST_COST;
use join_search::{Asked, Table, all_relations, likely_plans, order_asked, search};
use pathkeys::Keys;
use pg_base::{Memory, RelSet};
use plan_tree::{Path, range_of};
use sql_query::Prepared;
use std::alloc::{AllocError, Global};

/// What a query is answered by.
#[derive(Drop)]
pub struct Planned {
    /// A path of a finished plan: one of all relations, in the order asked for.
    pub best: Path,
}

/// Why a query has no plan.
#[derive(Clone, Copy, Debug, PartialEq, Eq)]
pub enum PlanFault {
    /// Each of its finished plans costs 10^18 or more.
    CostLimit,
    /// Out of memory.
    Memory,
}

impl From<AllocError> for PlanFault {
    ghost use Rattle.planner.specs.declared.least_plan.PlanFault.TheVariants.{Memory};

    ghost from_gives = { λ _ fault. fault ≡ Memory };

    fn from(_: AllocError) -> PlanFault {
        PlanFault::Memory
    }
}

/// The paths of all relations without a parameterisation, lent.
pub fn whole_paths(table: &Table, all: RelSet) -> &[Path]
    ensures { map path result.now ≡ paths_at table.now all none }
{
    match table.front(all, RelSet(0)) {
        Some(front) => front.items(),
        None => &[],
    }
}

/// The least of some paths of all relations, in the order asked for. None only where none of them is admissible then, or the
/// least price is not below the limit. The error means out of memory.
fn least_of(
    alloc: Global,
    cat: &Catalog,
    q: &Prepared,
    asked: Asked,
    paths: &[Path],
    order: &Keys,
) -> Result<Option<Planned>, Memory>
    requires candidates { AreCandidates cat.now q.now asked (map path paths.now) }
    requires order { order.now ≡ keys.order_keys q.now.classes q.now.order }
    ensures best { IfOk result (λ found. IfSome found (λ made. HasFinished cat.now q.now made)) }
    ensures least { IfOk result (λ found. IfSome found (λ made. HasBestPlan cat.now q.now made)) }
    ensures none { IfOk result (λ found. IfNone found (HasNoneWithin cat.now q.now asked.limit)) }
{
    cat.lawful();
    let least = match least_place(cat, q, paths, order) {
        Some(least) => least,
        None => return Ok(None),
    };
    if least.price >= asked.limit {
        return Ok(None);
    }
    let order = order.copy(alloc)?;
    let best = finish(alloc, cat, q, &paths[least.at], order)?;
    Ok(Some(Planned { best }))
}

/// From this number of relations on a likely plan is looked for first: they have some hundred pairs of sets.
const FEWEST_FOR_A_LIMIT: usize = 4;

/// Fronts of single relations, and what a plan may cost over them so that a likely one does.
#[derive(Drop)]
struct Likely {
    base: Table,
    /// Any number will do.
    limit: u64,
}

/// What a plan may cost so that the least of some does, or the limit of costs where there is none.
fn limit_by(cat: &Catalog, q: &Prepared, paths: &[Path], order: &Keys) -> u64
    requires whole { All (IsWhole cat.now q.now) (map path paths.now) }
    requires order { order.now ≡ keys.order_keys q.now.classes q.now.order }
{
    match least_place(cat, q, paths, order) {
        Some(least) => least.price.saturating_add(1),
        None => MOST_COST,
    }
}

/// The paths of single relations, with what a plan may cost so that a likely one does, or the limit of costs where none is
/// found. The error means out of memory.
fn likely_limit(
    alloc: Global,
    cat: &Catalog,
    q: &Prepared,
    base: Table,
    order: &Keys,
) -> Result<Likely, Memory>
    requires query { IsOverTables cat.now q.now }
    requires base { IsBase cat.now q.now base }
    requires order { order.now ≡ keys.order_keys q.now.classes q.now.order }
    ensures base { IfOk result (λ l. IsBase cat.now q.now l.base) }
    ensures scans { IfOk result (λ l. HaveSameScans l.base base) }
{
    if range_of(q).items().len() < FEWEST_FOR_A_LIMIT {
        return Ok(Likely {
            base,
            limit: MOST_COST,
        });
    }
    let asked = Asked {
        every_key: false,
        limit: MOST_COST,
    };
    let mut table = likely_plans(alloc, cat, q, asked, base)?;
    let all = all_relations(q);
    let limit = limit_by(cat, q, whole_paths(&table, all), order);
    table.forget_joins();
    Ok(Likely { base: table, limit })
}

/// A plan of least price over the paths of single relations, where its price is below a limit. None only where no finished plan
/// is below it. The error means out of memory.
fn plan_below(
    alloc: Global,
    cat: &Catalog,
    q: &Prepared,
    limit: u64,
    base: Table,
    order: &Keys,
) -> Result<Option<Planned>, Memory>
    requires query { IsOverTables cat.now q.now }
    requires base { IsBase cat.now q.now base }
    requires scans { (r : ℕ) → r < width q.now → HaveScansOf cat.now q.now (paths_at base) r }
    requires order { order.now ≡ keys.order_keys q.now.classes q.now.order }
    ensures best { IfOk result (λ found. IfSome found (λ made. HasFinished cat.now q.now made)) }
    ensures least { IfOk result (λ found. IfSome found (λ made. HasBestPlan cat.now q.now made)) }
    ensures none { IfOk result (λ found. IfNone found (HasNoneWithin cat.now q.now limit)) }
{
    cat.lawful();
    let asked = Asked {
        every_key: false,
        limit,
    };
    let table = search(alloc, cat, q, asked, base)?;
    let all = all_relations(q);
    least_of(alloc, cat, q, asked, whole_paths(&table, all), order)
}

/// What was found, or that each plan is past the limit of costs.
fn planned_or_past(found: Option<Planned>) -> Result<Planned, PlanFault>
    ensures { MatchOption found (result ≡ Err CostLimit) (λ planned. result ≡ Ok planned) }
{
    match found {
        Some(planned) => Ok(planned),
        None => Err(PlanFault::CostLimit),
    }
}

/// A plan of least price of a query over tables: first below the price of a likely one, then, where none is found so, below
/// the limit of costs.
fn plan_over(alloc: Global, cat: &Catalog, q: &Prepared) -> Result<Planned, PlanFault>
    requires query { IsOverTables cat.now q.now }
    ensures best { IfOk result (λ made. HasFinished cat.now q.now made) }
    ensures least { IfOk result (λ made. HasBestPlan cat.now q.now made) }
    ensures limit { IfErr result (λ e. e ≡ CostLimit → HasNoAdmissiblePlan cat.now q.now) }
{
    let order = order_asked(alloc, q)?;
    let base = base_table(alloc, cat, q)?;
    let likely = likely_limit(alloc, cat, q, base, &order)?;
    if let Some(planned) = plan_below(alloc, cat, q, likely.limit, likely.base, &order)? {
        return Ok(planned);
    }
    let base = base_table(alloc, cat, q)?;
    let found = plan_below(alloc, cat, q, MOST_COST, base, &order)?;
    planned_or_past(found)
}

/// A plan of least price: its path is of a finished plan below 10^18, and no other such plan of the whole plan space is of a
/// lower price, whatever joins it is made of. The price is the total, or under a window what the rows asked for cost. A plan of
/// all relations whose keys begin with the order keys is finished; any other is sorted. `CostLimit` comes exactly where no
/// finished plan is below 10^18, and `Memory` means out of memory. With n relations some 3^n pairs of sets are joined, each by
/// what was kept of the two. What costs no less than a likely plan is left out, and is tried only where nothing is found
/// without it.
pub fn plan(alloc: Global, cat: &Catalog, q: &Prepared) -> Result<Planned, PlanFault>
    requires bound { IsWellBound cat.now q.now }
    ensures best { IfOk result (λ made. HasFinished cat.now q.now made) }
    ensures least { IfOk result (λ made. HasBestPlan cat.now q.now made) }
    ensures limit { IfErr result (λ e. e ≡ CostLimit → HasNoAdmissiblePlan cat.now q.now) }
{
    plan_over(alloc, cat, q)
}
