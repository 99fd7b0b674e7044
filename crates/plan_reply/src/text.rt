//! The text of EXPLAIN (TABLE).

ghost use Rattle.std.specs.Prelude.{◌≡◌, ◌≢◌, IfErr, IfOk};
ghost use Rattle.plan_check.specs.work.Views.{certificate};
ghost use Rattle.planned_table.specs.certificate_text_HasText.{HasText};
ghost use Rattle.plan_tree.specs.Least.{IsAdmissible, HasNoPlan};
ghost use Rattle.plan_tree.specs.work.Paths.{IsFinishedPath};
ghost use Rattle.plan_tree.specs.work.Views.{path};
ghost use Rattle.sql_query.specs.WellBound.{IsWellBound};
ghost use Rattle.plan_reply.specs.Tabled.{IsTabledText, tabled_text};
ghost use Rattle.planned_table.specs.certificate_laws_Arms.{HasArmsInOrs};

use catalog::Catalog;
use pg_base::Memory;
use plan_check::Certificate;
use plan_tree::Path;
use planned_table::certificate_text::certificate_text;
use planned_table::plan_with_table;
use planned_table::planner::PlanFault;
use reply::{Stop, shown_text};
use sql_query::Prepared;
use std::alloc::Global;

/// The line behind a certificate, which ends one in a script too.
const END_LINE: &[u8] = b"\\.\n";

/// The text of a finished plan, then that of a table of its query, then a line `\.`.
fn whole_text(
    alloc: Global,
    cat: &Catalog,
    q: &Prepared,
    best: &Path,
    table: &Certificate,
) -> Result<Vec<u8>, Memory>
    requires bound { IsWellBound cat.now q.now }
    requires finished { IsFinishedPath cat.now q.now (path best.now) }
    requires admissible { IsAdmissible cat.now q.now (path best.now).tree }
    requires has { HasText cat.now q.now (certificate table.now) }
    ensures { IfOk result (λ text.
        text.items ≡ tabled_text cat.now q.now (path best.now).tree (certificate table.now)) }
{
    let mut text = shown_text(alloc, cat, q, best)?;
    let lines = certificate_text(alloc, cat, q, table)?;
    text.extend_from_slice(lines.items())?;
    text.extend_from_slice(END_LINE)?;
    Ok(text)
}

/// Why a query that has no plan has no reply.
fn unplanned(fault: PlanFault) -> Stop
    ensures limit { fault ≡ PlanFault.CostLimit → result ≡ Stop.NoPlan }
    ensures memory { fault ≡ PlanFault.Memory → result ≡ Stop.Memory }
{
    match fault {
        PlanFault::CostLimit => Stop::NoPlan,
        PlanFault::Memory => Stop::Memory,
    }
}

/// The text of a plan that no admissible one undercuts in price, as EXPLAIN prints it, then the certificate of a table of the
/// query whose best plan it is, then a line `\.`. Where the query has a window, the line of LIMIT and OFFSET comes first, and
/// the certificate is of version 2. `NoPlan` comes only where each finished plan costs 10^18 or more; the other error is out of
/// memory.
pub fn table_text(alloc: Global, cat: &Catalog, q: &Prepared) -> Result<Vec<u8>, Stop>
    requires bound { IsWellBound cat.now q.now }
    requires arms { HasArmsInOrs q.now }
    ensures text { IfOk result (λ text. IsTabledText cat.now q.now text.items) }
    ensures no_plan { IfErr result (λ stop. stop ≡ Stop.NoPlan → HasNoPlan cat.now q.now) }
    ensures unwritten { IfErr result (λ stop. stop ≢ Stop.Write) }
{
    let tabled = match plan_with_table(alloc, cat, q) {
        Ok(tabled) => tabled,
        Err(fault) => return Err(unplanned(fault)),
    };
    match whole_text(alloc, cat, q, &tabled.best, &tabled.table) {
        Ok(text) => Ok(text),
        Err(_) => Err(Stop::Memory),
    }
}
