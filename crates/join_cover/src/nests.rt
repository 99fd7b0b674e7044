//! Nested loops of the entries of two sets.

ghost use Rattle.std.specs.Prelude.{◌≡◌, ◌<◌, ◌≤◌, MatchOption, length};
ghost use Rattle.plan_tree.specs.work.Reads.{IsOverTables};
ghost use Rattle.plan_check.specs.work.Views.{certificate};
ghost use Rattle.entry_check.specs.work.Working.{IsNestWork};
ghost use Rattle.plan_check.specs.work.Placing.{ArePlaced, order_of};
ghost use Rattle.plan_check.specs.Reasons.{AllRight};
ghost use Rattle.join_cover.specs.work.Covering.{CoversNest, CoversNestsBy, CoversNestsIn, CoversNestsOf, MissesNest, MissesNestAt, MissesNestWith};

use crate::uncovered::Uncovered;
use entry_check::{NestWork, nest_with, nest_work_given};
use pg_base::RelSet;
use plan_check::{Judged, counted, is_covered};

/// The numbers of the nested loop of the entries at two places, where these are of the two sets, where no entry dominates it
/// and one must.
fn open_at(j: &Judged, work: &NestWork, k: usize, l: usize, noted: &mut usize) -> Option<Uncovered>
    requires query { IsOverTables j.now.cat.now j.now.q.now }
    requires right { AllRight j.now.cat.now j.now.q.now (certificate j.now.t.now) }
    requires placed { ArePlaced (certificate j.now.t.now).entries j.now.places.now }
    requires work { IsNestWork j.now.cat.now j.now.q.now work.now }
    requires outer { k < length (certificate j.now.t.now).entries }
    requires inner { l < length (certificate j.now.t.now).entries }
    ensures { MatchOption result (CoversNest j.now work.now k l) (λ x. MissesNestAt j.now work.now k l x) }
{
    let entries = j.t.entries.items();
    let a = &entries[k];
    let b = &entries[l];
    if a.set.0 != work.outer.0 {
        return None;
    }
    if b.set.0 != work.inner.0 {
        return None;
    }
    match nest_with(j.cat, j.q, work, a, b) {
        Some(x) => {
            let covered = is_covered(j.q, entries, j.places, &x, noted);
            if covered {
                return None;
            }
            Some(Uncovered {
                startup: counted(j.q, x.startup),
                cost: x.cost,
                rows: x.rows,
            })
        }
        None => None,
    }
}

/// The place of an inner entry, among some, whose nested loop with an outer one no entry dominates, with its numbers.
fn open_inner(
    j: &Judged,
    work: &NestWork,
    k: usize,
    within: (usize, usize),
) -> Option<(usize, Uncovered)>
    requires query { IsOverTables j.now.cat.now j.now.q.now }
    requires right { AllRight j.now.cat.now j.now.q.now (certificate j.now.t.now) }
    requires placed { ArePlaced (certificate j.now.t.now).entries j.now.places.now }
    requires work { IsNestWork j.now.cat.now j.now.q.now work.now }
    requires outer { k < length (certificate j.now.t.now).entries }
    requires inner { within.1 ≤ length (order_of j.now.places.now) }
    ensures { MatchOption result (CoversNestsIn j.now work.now k within)
        (λ r. MissesNestWith j.now work.now k r) }
{
    let mut noted = k;
    for i in within.0..within.1 {
        let l = j.places.at(i);
        if let Some(x) = open_at(j, work, k, l, &mut noted) {
            return Some((l, x));
        }
    }
    None
}

/// The numbers of an outer entry and an inner one, each among some, whose nested loop no entry dominates, with its numbers.
fn open_outer(
    j: &Judged,
    work: &NestWork,
    outer: (usize, usize),
    inner: (usize, usize),
) -> Option<(u32, u32, Uncovered)>
    requires query { IsOverTables j.now.cat.now j.now.q.now }
    requires right { AllRight j.now.cat.now j.now.q.now (certificate j.now.t.now) }
    requires placed { ArePlaced (certificate j.now.t.now).entries j.now.places.now }
    requires work { IsNestWork j.now.cat.now j.now.q.now work.now }
    requires outer { outer.1 ≤ length (order_of j.now.places.now) }
    requires inner { inner.1 ≤ length (order_of j.now.places.now) }
    ensures { MatchOption result (CoversNestsBy j.now work.now outer inner)
        (λ r. MissesNest j.now work.now.outer work.now.inner r) }
{
    let _few = j.t.entries.items();
    for i in outer.0..outer.1 {
        let k = j.places.at(i);
        if let Some((l, x)) = open_inner(j, work, k, inner) {
            return Some((k as u32 + 1, l as u32 + 1, x));
        }
    }
    None
}

/// The numbers of two entries, one of each of two sets, whose nested loop is an admissible one of the plan space that no entry
/// dominates, and the loop's own numbers. None exactly where each such nested loop is dominated. The conditions are that each
/// entry is right, and that the places are those of the entries. It takes no memory.
pub fn open_nests(j: &Judged, outer: RelSet, inner: RelSet) -> Option<(u32, u32, Uncovered)>
    requires query { IsOverTables j.now.cat.now j.now.q.now }
    requires right { AllRight j.now.cat.now j.now.q.now (certificate j.now.t.now) }
    requires placed { ArePlaced (certificate j.now.t.now).entries j.now.places.now }
    ensures { MatchOption result (CoversNestsOf j.now outer inner)
        (λ r. MissesNest j.now outer inner r) }
{
    let work = nest_work_given(j.cat, j.q, outer, inner);
    let outers = j.places.range(outer);
    let inners = j.places.range(inner);
    open_outer(j, &work, outers, inners)
}
