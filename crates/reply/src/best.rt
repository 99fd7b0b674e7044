//! The plan that a query is answered by.

ghost use Rattle.std.specs.Prelude.{◌≡◌, ◌≢◌, IfErr, IfOk};
ghost use Rattle.sql_query.specs.WellBound.{IsWellBound};
ghost use Rattle.plan_tree.specs.Least.{IsBestPlan, HasNoPlan};
ghost use Rattle.plan_tree.specs.work.Paths.{IsFinishedPath};
ghost use Rattle.plan_tree.specs.work.Views.{path};

use crate::stop::Stop;
use catalog::Catalog;
use plan_tree::Path;
use planner::{PlanFault, plan};
use sql_query::Prepared;
use std::alloc::Global;

/// Why a query that has no plan has no reply.
fn unplanned(fault: PlanFault) -> Stop
    ensures limit { fault ≡ PlanFault.CostLimit → result ≡ Stop.NoPlan }
    ensures memory { fault ≡ PlanFault.Memory → result ≡ Stop.Memory }
{
    match fault {
        PlanFault::CostLimit => Stop::NoPlan,
        PlanFault::Memory => Stop::Memory,
    }
}

/// The path of a plan of a query that no admissible one undercuts. `NoPlan` comes only where no finished plan is admissible;
/// the other error is out of memory.
pub(crate) fn best_path(alloc: Global, cat: &Catalog, q: &Prepared) -> Result<Path, Stop>
    requires bound { IsWellBound cat.now q.now }
    ensures finished { IfOk result (λ p. IsFinishedPath cat.now q.now (path p)) }
    ensures best { IfOk result (λ p. IsBestPlan cat.now q.now (path p).tree) }
    ensures no_plan { IfErr result (λ stop. stop ≡ Stop.NoPlan → HasNoPlan cat.now q.now) }
    ensures unwritten { IfErr result (λ stop. stop ≢ Stop.Write) }
{
    match plan(alloc, cat, q) {
        Ok(planned) => Ok(planned.best),
        Err(fault) => Err(unplanned(fault)),
    }
}
