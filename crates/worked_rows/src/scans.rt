//! One scan run.

ghost use Rattle.std.specs.Prelude.{◌≡◌, ◌<◌, IfOk, IsTrue, length};
ghost use Rattle.pg_base.specs.Sets.{has};
ghost use Rattle.heap.specs.work.Tuples.{padded_tuples};
ghost use Rattle.sql_query.specs.Queries.{width};
ghost use Rattle.sql_query.specs.Tuples.{no_rows};
ghost use Rattle.sql_query.specs.WellBound.{IsWellBound};
ghost use Rattle.sql_query.specs.Worlds.{world};
ghost use Rattle.store.specs.work.Kept.{IsStoreOf};
ghost use Rattle.plan_tree.specs.Plans as plans;
ghost use Rattle.plan_tree.specs.Run.{run};
ghost use Rattle.plan_tree.specs.Space.{IsBuilt};
ghost use Rattle.plan_tree.specs.work.Views.{plan};
ghost use Rattle.sort_rows.specs.work.Rows.{AllHaveRows};
ghost use Rattle.scan_exec.specs.work.Plans.{IsScan, param_set};

use crate::scene::{Cost, Scene, counted};
use crate::seen::Seen;
use heap::{Counters, Tuples};
use pg_base::{IndexNo, Memory, RelNo, RelSet, Steps, Tid};
use plan_space::is_index_scan;
use plan_tree::Plan;
use scan_exec::{ScanRows, scan};

/// The scan of a relation by the index of its number, without a parameterisation.
pub(crate) fn index_scan(rel: u8, backward: bool) -> Plan {
    Plan::Index {
        rel: RelNo(rel),
        index: IndexNo(rel as u16),
        backward,
        param: RelSet(0),
    }
}

/// The tuples of a scan that is given no rows.
pub(crate) fn scanned<C: Counters>(
    at: &Scene<C>,
    p: &Plan,
    fetches: &mut Steps<C::Fetches>,
    reads: &mut Steps<C::Looks>,
) -> Result<Tuples, Memory>
    requires bound { IsWellBound at.now.cat.now at.now.q.now }
    requires store { IsStoreOf at.now.cat.now at.now.store.now }
    requires scan { IsScan (plan p.now) }
    requires built { IsBuilt at.now.cat.now at.now.q.now (plan p.now) }
    requires whole { (param_set (plan p.now)).0 ≡ 0 }
    ensures set { IfOk result (λ ts. has ts.set.0 ≡ plans.set_of (plan p.now)) }
    ensures rows { IfOk result (λ ts. padded_tuples (width at.now.q.now) ts ≡ run (world at.now.cat.now at.now.store.now.stored) at.now.q.now (plan p.now) (no_rows at.now.q.now)) }
{
    scan(at.alloc, at.cat, at.q, p, at.store, &[], fetches, reads)
}

/// Whether a plan is a scan of the plan space, by an index or in turn, that is given no rows.
pub(crate) fn is_whole_scan<C: Counters>(at: &Scene<C>, p: &Plan) -> bool
    requires { IsWellBound at.now.cat.now at.now.q.now }
    ensures scan { IsTrue result → IsScan (plan p.now) }
    ensures built { IsTrue result → IsBuilt at.now.cat.now at.now.q.now (plan p.now) }
    ensures param { IsTrue result → (param_set (plan p.now)).0 ≡ 0 }
{
    match p {
        Plan::Seq { rel } => rel.0 == 0,
        Plan::Index {
            rel,
            index,
            backward,
            param,
        } => param.0 == 0 && is_index_scan(at.cat, at.q, *rel, *index, *backward, *param),
        _ => false,
    }
}

/// Sees the tuples of a scan that is given no rows.
fn see_scanned<C: Counters>(
    at: &Scene<C>,
    p: &Plan,
    seen: &mut Seen,
    fetches: &mut Steps<C::Fetches>,
    reads: &mut Steps<C::Looks>,
) -> Result<(), Memory>
    requires bound { IsWellBound at.now.cat.now at.now.q.now }
    requires store { IsStoreOf at.now.cat.now at.now.store.now }
    requires scan { IsScan (plan p.now) }
    requires built { IsBuilt at.now.cat.now at.now.q.now (plan p.now) }
    requires whole { (param_set (plan p.now)).0 ≡ 0 }
{
    let tuples = scanned(at, p, fetches, reads)?;
    seen.see_all(&tuples);
    Ok(())
}

/// Sees the tuples of a scan of the first relation, by the first index or in turn. It gives what was counted before.
pub(crate) fn see_scan<C: Counters>(
    at: &Scene<C>,
    by_index: bool,
    seen: &mut Seen,
    fetches: &mut Steps<C::Fetches>,
    reads: &mut Steps<C::Looks>,
) -> Result<Option<Cost>, Memory>
    requires bound { IsWellBound at.now.cat.now at.now.q.now }
    requires store { IsStoreOf at.now.cat.now at.now.store.now }
{
    let before = counted::<C>(fetches, reads);
    let p = if by_index {
        index_scan(0, false)
    } else {
        Plan::Seq { rel: RelNo(0) }
    };
    if !is_whole_scan(at, &p) {
        return Ok(None);
    }
    see_scanned(at, &p, seen, fetches, reads)?;
    Ok(Some(before))
}

/// Sees the rows that a scan has still to give, 100 at most, each behind the number of the outer row.
fn see_rows<'a, C: Counters>(
    rows: &mut ScanRows<'a, C>,
    outer: u32,
    seen: &mut Seen,
    fetches: &mut Steps<C::Fetches>,
    reads: &mut Steps<C::Looks>,
) {
    for _ in 0..100 {
        match rows.next(fetches, reads) {
            Some(row) => seen.see_tuple(&[Tid(outer), row]),
            None => return,
        }
    }
}

/// Sees the rows of a scan that is started at the first outer tuple, drawn from once, and restarted at each in turn.
fn see_each<C: Counters>(
    at: &Scene<C>,
    p: &Plan,
    outer: &Tuples,
    seen: &mut Seen,
    fetches: &mut Steps<C::Fetches>,
    reads: &mut Steps<C::Looks>,
) -> Result<(), Memory>
    requires bound { IsWellBound at.now.cat.now at.now.q.now }
    requires store { IsStoreOf at.now.cat.now at.now.store.now }
    requires scan { IsScan (plan p.now) }
    requires built { IsBuilt at.now.cat.now at.now.q.now (plan p.now) }
    requires set { outer.now.set ≡ param_set (plan p.now) }
    requires some { 0 < length outer.now.rows }
    requires held { AllHaveRows (world at.now.cat.now at.now.store.now.stored) at.now.q.now outer.now }
{
    let first = outer.get(0);
    let mut rows = ScanRows::start(at.alloc, at.cat, at.q, p, at.store, first, reads)?;
    let _ = rows.next(fetches, reads);
    for n in 0..outer.len() {
        let tuple = outer.get(n);
        rows.restart(at.alloc, at.cat, at.q, p, at.store, tuple, reads)?;
        see_rows(&mut rows, n, seen, fetches, reads);
    }
    Ok(())
}

/// Sees the rows of a scan of the second relation by the second index, which is given the rows of the first one in turn. The
/// result is what was counted before.
pub(crate) fn see_restarts<C: Counters>(
    at: &Scene<C>,
    seen: &mut Seen,
    fetches: &mut Steps<C::Fetches>,
    reads: &mut Steps<C::Looks>,
) -> Result<Option<Cost>, Memory>
    requires bound { IsWellBound at.now.cat.now at.now.q.now }
    requires store { IsStoreOf at.now.cat.now at.now.store.now }
{
    let outer = scanned(at, &Plan::Seq { rel: RelNo(0) }, fetches, reads)?;
    let before = counted::<C>(fetches, reads);
    let (rel, index, param) = (RelNo(1), IndexNo(1), RelSet(1));
    if outer.set() != param || outer.len() == 0 {
        return Ok(None);
    }
    if !is_index_scan(at.cat, at.q, rel, index, false, param) {
        return Ok(None);
    }
    let p = Plan::Index {
        rel,
        index,
        backward: false,
        param,
    };
    see_each(at, &p, &outer, seen, fetches, reads)?;
    Ok(Some(before))
}
