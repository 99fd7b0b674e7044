//! Whole plans run, at once and tuple by tuple.

ghost use Rattle.sql_query.specs.WellBound.{IsWellBound};
ghost use Rattle.store.specs.work.Kept.{IsStoreOf};
ghost use Rattle.plan_tree.specs.Space.{IsFinished};
ghost use Rattle.plan_tree.specs.work.Views.{plan};

use crate::scans::index_scan;
use crate::scene::{Cost, Scene, counted};
use crate::seen::Seen;
use eq_classes::ClassNo;
use executor::{Rows, execute};
use heap::Counters;
use pathkeys::Keys;
use pg_base::{Memory, Steps};
use plan_space::validate;
use plan_tree::Plan;
use std::alloc::Global;

/// How the tuples of a plan are drawn.
#[derive(Clone, Copy)]
pub(crate) enum Drawn {
    /// All at once.
    All,
    /// One by one, asked for so often at most.
    Each(u32),
}

/// The scan of the first relation by the first index from its end, or under a sort by the second class.
fn plan_of(alloc: Global, is_sorted: bool) -> Result<Plan, Memory> {
    if !is_sorted {
        return Ok(index_scan(0, true));
    }
    let keys = Keys::from_slice(alloc, &[ClassNo(1)])?;
    let input = Box::new(alloc, index_scan(0, false))?;
    Ok(Plan::Sort { keys, input })
}

/// Sees all tuples of a plan, drawn at once.
fn see_plan<C: Counters>(
    at: &Scene<C>,
    p: &Plan,
    seen: &mut Seen,
    fetches: &mut Steps<C::Fetches>,
    reads: &mut Steps<C::Looks>,
) -> Result<(), Memory>
    requires bound { IsWellBound at.now.cat.now at.now.q.now }
    requires store { IsStoreOf at.now.cat.now at.now.store.now }
    requires plan { IsFinished at.now.cat.now at.now.q.now (plan p.now) }
{
    let tuples = execute(at.alloc, at.cat, at.q, p, at.store, fetches, reads)?;
    seen.see_all(&tuples);
    Ok(())
}

/// Sees the tuples of a plan that are given when it is asked so often, or until none is left.
fn see_each<C: Counters>(
    at: &Scene<C>,
    p: &Plan,
    most: u32,
    seen: &mut Seen,
    fetches: &mut Steps<C::Fetches>,
    reads: &mut Steps<C::Looks>,
) -> Result<(), Memory>
    requires bound { IsWellBound at.now.cat.now at.now.q.now }
    requires store { IsStoreOf at.now.cat.now at.now.store.now }
    requires plan { IsFinished at.now.cat.now at.now.q.now (plan p.now) }
{
    let mut rows = Rows::start(at.alloc, at.cat, at.q, p, at.store)?;
    for _ in 0..most {
        match rows.next(fetches, reads)? {
            Some(tuple) => seen.see_tuple(tuple.items()),
            None => return Ok(()),
        }
    }
    Ok(())
}

/// Sees the tuples of a plan by the first index, sorted or not. It gives what was counted before.
pub(crate) fn see_tuples<C: Counters>(
    at: &Scene<C>,
    is_sorted: bool,
    drawn: Drawn,
    seen: &mut Seen,
    fetches: &mut Steps<C::Fetches>,
    reads: &mut Steps<C::Looks>,
) -> Result<Option<Cost>, Memory>
    requires bound { IsWellBound at.now.cat.now at.now.q.now }
    requires store { IsStoreOf at.now.cat.now at.now.store.now }
{
    let before = counted::<C>(fetches, reads);
    let p = plan_of(at.alloc, is_sorted)?;
    if !validate(at.cat, at.q, &p) {
        return Ok(None);
    }
    match drawn {
        Drawn::All => see_plan(at, &p, seen, fetches, reads)?,
        Drawn::Each(most) => see_each(at, &p, most, seen, fetches, reads)?,
    }
    Ok(Some(before))
}
