//! Scans that are drawn from.

ghost use Rattle.std.specs.Prelude.{◌≡◌, ◌≤◌, ◌+◌, true, length, IfOk, IfSome, IfNone, OnOk};
ghost use Rattle.heap.specs.Tuples.{rank};
ghost use Rattle.sql_query.specs.Queries.{Query};
ghost use Rattle.plan_tree.specs.work.Views.{plan};
ghost use Rattle.scan_exec.specs.Coming.{is_given, owed};
ghost use Rattle.scan_exec.specs.work.Coming.{looks_allowed, behind};
ghost use Rattle.scan_exec.specs.work.Plans.{IsScan};
ghost use Rattle.plan_laws.specs.Closed.{is_scan};
ghost use Rattle.executor.specs.work.EState.{IsOverStore};
ghost use Rattle.executor.specs.work.Node.{IsNextScanned, IsScanning, IsSpentScanning, scanning_left, scanning_set};
ghost use Rattle.executor.specs.work.AtState.{IsDrawableAt, whole_coming, whole_fetches, whole_looks, whole_opening, whole_run};

use crate::estate::EState;
use crate::tuple::Tuple;
use heap::Counters;
use pg_base::{Memory, Steps};
use plan_tree::Plan;
use scan_exec::ScanRows;
use std::alloc::Global;

/// A plan that is one scan, and its rows.
#[derive(Drop)]
pub(crate) struct Scanning<'a, C: Counters> {
    pub(crate) plan: &'a Plan,
    pub(crate) rows: ScanRows<'a, C>,
}

/// A scan that is given no rows, before its first one. The error means out of memory.
pub(crate) fn start_scanning<'a, C: Counters>(
    at: &EState<'a, C>,
    p: &'a Plan,
    reads: &mut Steps<C::Looks>,
) -> Result<Scanning<'a, C>, Memory>
    requires over { IsOverStore at.now }
    requires plan { IsDrawableAt at.now (plan p.now) }
    requires scan { IsScan (plan p.now) }
    ensures good { IfOk result (λ s. IsScanning s) }
    ensures plan { IfOk result (λ s. s.plan.now ≡ p.now) }
    ensures one { is_scan (plan p.now) ≡ true }
    ensures opening { OnOk result (whole_opening at.now (plan p.now) ≡ 0) }
    ensures left { IfOk result (λ s. scanning_left at.now.q.now s ≡ whole_run at.now (plan p.now)) }
    ensures owed { IfOk result (λ s. owed s.rows ≡ whole_fetches at.now (plan p.now)) }
    ensures coming { IfOk result (λ s. s.rows ≡ whole_coming at.now (plan p.now)) }
    ensures reads { IfOk result (λ s. reads.new + looks_allowed s.rows ≤
        reads.old + whole_looks at.now (plan p.now)) }
    ensures most { reads.new ≤ reads.old + whole_looks at.now (plan p.now) }
{
    let rows = ScanRows::start(at.alloc, at.cat, at.q, p, at.store, &[], reads)?;
    Ok(Scanning { plan: p, rows })
}

/// The next tuple of a scan. Up to and with its row, each row that the scan comes to is fetched and each entry looked at as the
/// kind of scan does. The error means out of memory.
pub(crate) fn next_scanned<'a, C: Counters>(
    alloc: Global,
    scanning: &mut Scanning<'a, C>,
    fetches: &mut Steps<C::Fetches>,
    reads: &mut Steps<C::Looks>,
) -> Result<Option<Tuple>, Memory>
    requires good { IsScanning scanning.old }
    ensures good { IsScanning scanning.new }
    ensures plan { scanning.new.plan.now ≡ scanning.old.plan.now }
    ensures some { (q : Query) → IfOk result (λ o. IfSome o
        (IsNextScanned q scanning.old scanning.new)) }
    ensures len { IfOk result (λ o. IfSome o (λ t.
        length t ≡ rank (scanning_set scanning.old) 16)) }
    ensures none { IfOk result (λ o. IfNone o (IsSpentScanning scanning.old scanning.new)) }
    ensures rest { scanning.new.rows ≡ behind is_given scanning.old.rows }
    ensures exact { fetches.new + owed scanning.new.rows ≡ fetches.old + owed scanning.old.rows }
    ensures rise { fetches.old ≤ fetches.new }
    ensures reads { reads.new + looks_allowed scanning.new.rows ≤ reads.old + looks_allowed scanning.old.rows }
{
    match scanning.rows.next(fetches, reads) {
        Some(tid) => {
            let mut row = Vec::new(alloc);
            row.push(tid)?;
            Ok(Some(Tuple::from_vec(row)))
        }
        None => Ok(None),
    }
}
