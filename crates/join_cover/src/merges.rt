//! Merges of the entries of two sets by a list, as they stand or sorted.

ghost use Rattle.std.specs.Prelude.{◌≡◌, ◌<◌, ◌≤◌, ◌-◌, ◌^◌, MatchOption, false, length};
ghost use Rattle.plan_tree.specs.work.Reads.{IsOverTables};
ghost use Rattle.plan_check.specs.work.Views.{certificate};
ghost use Rattle.entry_check.specs.work.Working.{IsMergeWork};
ghost use Rattle.plan_check.specs.work.Placing.{ArePlaced, order_of};
ghost use Rattle.plan_check.specs.Reasons.{AllRight};
ghost use Rattle.join_cover.specs.work.Leasts.{IsLeastWhole};
ghost use Rattle.join_cover.specs.work.Covering.{CoversMerge, CoversPlain, CoversPlainIn, CoversRow, CoversRowsIn, CoversWork, HasMergeList, IsMergeNode, IsNodeOfMerge, MissesMerge, MissesWork};

use crate::least::least_whole;
use crate::uncovered::Uncovered;
use entry_check::{MergeWork, has_list, merge_with};
use eq_classes::ClassNo;
use plan_check::{Judged, Plain, Side, counted, is_covered};

/// The merge of the entries at two places by a list of at most three classes, each sorted by it or not.
fn merge_node(list: &[ClassNo], at: (usize, usize), sorts: (bool, bool)) -> Plain
    requires few { length list.now ≤ 3 }
    requires outer { at.0 < 2 ^ 32 - 1 }
    requires inner { at.1 < 2 ^ 32 - 1 }
    ensures stands { IsNodeOfMerge list.now at sorts result }
    ensures is { IsMergeNode list.now at result }
{
    Plain::Merge {
        keys: [
            list.get(0).copied(),
            list.get(1).copied(),
            list.get(2).copied(),
        ],
        outer: Side {
            sort: sorts.0,
            entry: at.0 as u32 + 1,
        },
        inner: Side {
            sort: sorts.1,
            entry: at.1 as u32 + 1,
        },
    }
}

/// The numbers of the merge of the entries at two places, where these are of the two sets, each sorted by the list or not,
/// where no entry dominates it and one must. None exactly where an entry dominates it or none must.
fn open_merge(
    j: &Judged,
    work: &MergeWork,
    at: (usize, usize),
    sorts: (bool, bool),
    noted: &mut usize,
) -> Option<Uncovered>
    requires query { IsOverTables j.now.cat.now j.now.q.now }
    requires right { AllRight j.now.cat.now j.now.q.now (certificate j.now.t.now) }
    requires placed { ArePlaced (certificate j.now.t.now).entries j.now.places.now }
    requires work { IsMergeWork j.now.cat.now j.now.q.now work.now }
    requires list { HasMergeList j.now work.now }
    requires outer { at.0 < length (certificate j.now.t.now).entries }
    requires inner { at.1 < length (certificate j.now.t.now).entries }
    ensures { MatchOption result (CoversMerge j.now work.now at sorts)
        (λ x. MissesMerge j.now work.now at sorts x) }
{
    let entries = j.t.entries.items();
    let (k, l) = at;
    let a = &entries[k];
    let b = &entries[l];
    if a.set.0 != work.outer.0 {
        return None;
    }
    if b.set.0 != work.inner.0 {
        return None;
    }
    match merge_with(j.cat, j.q, work, a, b, sorts) {
        Some(x) => {
            let covered = is_covered(j.q, entries, j.places, &x, noted);
            if covered {
                return None;
            }
            Some(Uncovered {
                startup: counted(j.q, x.startup),
                cost: x.cost,
                rows: x.rows,
            })
        }
        None => None,
    }
}

/// The merge of the entries at two places, where these are of the two sets, each sorted by the list or not, with its numbers,
/// where no entry dominates it and one must. None exactly where an entry dominates it or none must.
fn open_sides(
    j: &Judged,
    work: &MergeWork,
    at: (usize, usize),
    sorts: (bool, bool),
    noted: &mut usize,
) -> Option<(Plain, Uncovered)>
    requires query { IsOverTables j.now.cat.now j.now.q.now }
    requires right { AllRight j.now.cat.now j.now.q.now (certificate j.now.t.now) }
    requires placed { ArePlaced (certificate j.now.t.now).entries j.now.places.now }
    requires work { IsMergeWork j.now.cat.now j.now.q.now work.now }
    requires list { HasMergeList j.now work.now }
    requires outer { at.0 < length (certificate j.now.t.now).entries }
    requires inner { at.1 < length (certificate j.now.t.now).entries }
    ensures { MatchOption result (CoversMerge j.now work.now at sorts) (λ r. MissesWork j.now work.now r) }
{
    let _few = j.t.entries.items();
    match open_merge(j, work, at, sorts, noted) {
        Some(x) => Some((merge_node(work.list, at, sorts), x)),
        None => None,
    }
}

/// Whether the entry at a place may be the outer side of a merge, sorted by the list or not: whether it is of the outer set,
/// is given no rows, and has keys that begin with the list, where it is not sorted.
fn may_lead(j: &Judged, work: &MergeWork, k: usize, sort: bool) -> bool
    requires right { AllRight j.now.cat.now j.now.q.now (certificate j.now.t.now) }
    requires outer { k < length (certificate j.now.t.now).entries }
    ensures { result ≡ false → CoversPlain j.now work.now k sort }
{
    let entries = j.t.entries.items();
    let a = &entries[k];
    if a.set.0 != work.outer.0 {
        return false;
    }
    if !a.param.is_empty() {
        return false;
    }
    has_list(a, work.list, sort)
}

/// A merge by the list of the outer entry at a place, sorted by it or not, with an inner one as it stands, at one of some
/// places, that no entry dominates and one must.
fn open_plain(
    j: &Judged,
    work: &MergeWork,
    at: (usize, bool),
    within: (usize, usize),
    noted: &mut usize,
) -> Option<(Plain, Uncovered)>
    requires query { IsOverTables j.now.cat.now j.now.q.now }
    requires right { AllRight j.now.cat.now j.now.q.now (certificate j.now.t.now) }
    requires placed { ArePlaced (certificate j.now.t.now).entries j.now.places.now }
    requires work { IsMergeWork j.now.cat.now j.now.q.now work.now }
    requires list { HasMergeList j.now work.now }
    requires outer { at.0 < length (certificate j.now.t.now).entries }
    requires inner { within.1 ≤ length (order_of j.now.places.now) }
    ensures { MatchOption result (CoversPlainIn j.now work.now at within) (λ r. MissesWork j.now work.now r) }
{
    if !may_lead(j, work, at.0, at.1) {
        return None;
    }
    for i in within.0..within.1 {
        let l = j.places.at(i);
        if let Some(x) = open_sides(j, work, (at.0, l), (at.1, false), noted) {
            return Some(x);
        }
    }
    None
}

/// A merge by the list of an outer entry, sorted by it or not, with an inner one as it stands, or with the one at a place
/// sorted by it, that no entry dominates and one must.
fn open_row(
    j: &Judged,
    work: &MergeWork,
    k: usize,
    sort: bool,
    least: usize,
) -> Option<(Plain, Uncovered)>
    requires query { IsOverTables j.now.cat.now j.now.q.now }
    requires right { AllRight j.now.cat.now j.now.q.now (certificate j.now.t.now) }
    requires placed { ArePlaced (certificate j.now.t.now).entries j.now.places.now }
    requires work { IsMergeWork j.now.cat.now j.now.q.now work.now }
    requires list { HasMergeList j.now work.now }
    requires outer { k < length (certificate j.now.t.now).entries }
    requires inner { least < length (certificate j.now.t.now).entries }
    ensures { MatchOption result (CoversRow j.now work.now k sort least) (λ r. MissesWork j.now work.now r) }
{
    let mut noted = k;
    if let Some(x) = open_sides(j, work, (k, least), (sort, true), &mut noted) {
        return Some(x);
    }
    let within = j.places.range(work.inner);
    open_plain(j, work, (k, sort), within, &mut noted)
}

/// A merge by the list of an outer entry as it stands, at one of some places, with an inner one as it stands, or with the one
/// at a place sorted by the list, that no entry dominates and one must.
fn open_rows(
    j: &Judged,
    work: &MergeWork,
    within: (usize, usize),
    least: usize,
) -> Option<(Plain, Uncovered)>
    requires query { IsOverTables j.now.cat.now j.now.q.now }
    requires right { AllRight j.now.cat.now j.now.q.now (certificate j.now.t.now) }
    requires placed { ArePlaced (certificate j.now.t.now).entries j.now.places.now }
    requires work { IsMergeWork j.now.cat.now j.now.q.now work.now }
    requires list { HasMergeList j.now work.now }
    requires outer { within.1 ≤ length (order_of j.now.places.now) }
    requires inner { least < length (certificate j.now.t.now).entries }
    ensures { MatchOption result (CoversRowsIn j.now work.now within least) (λ r. MissesWork j.now work.now r) }
{
    for i in within.0..within.1 {
        let k = j.places.at(i);
        if let Some(x) = open_row(j, work, k, false, least) {
            return Some(x);
        }
    }
    None
}

/// A merge by the list of an outer entry as it stands, or of the one at a place sorted, with an inner one as it stands, or with
/// the one at a place sorted, that no entry dominates and one must. What a sorted side costs goes by its own cost in all, so
/// that the least entry of a set stands for the others.
fn open_from(j: &Judged, work: &MergeWork, least: (usize, usize)) -> Option<(Plain, Uncovered)>
    requires query { IsOverTables j.now.cat.now j.now.q.now }
    requires right { AllRight j.now.cat.now j.now.q.now (certificate j.now.t.now) }
    requires placed { ArePlaced (certificate j.now.t.now).entries j.now.places.now }
    requires work { IsMergeWork j.now.cat.now j.now.q.now work.now }
    requires list { HasMergeList j.now work.now }
    requires outer { IsLeastWhole (certificate j.now.t.now).entries work.now.outer.0 least.0 }
    requires inner { IsLeastWhole (certificate j.now.t.now).entries work.now.inner.0 least.1 }
    ensures { MatchOption result (CoversWork j.now work.now) (λ r. MissesWork j.now work.now r) }
{
    if let Some(x) = open_row(j, work, least.0, true, least.1) {
        return Some(x);
    }
    let within = j.places.range(work.outer);
    open_rows(j, work, within, least.1)
}

/// A merge of entries of two sets by a list, each as it stands or sorted by it, that no entry dominates and one must. None
/// exactly where each such merge of the plan space is dominated. The conditions are that each entry is right, that the places
/// are those of the entries, and that the list is one of a merge of the sets. It takes no memory.
pub fn open_work(j: &Judged, work: &MergeWork) -> Option<(Plain, Uncovered)>
    requires query { IsOverTables j.now.cat.now j.now.q.now }
    requires right { AllRight j.now.cat.now j.now.q.now (certificate j.now.t.now) }
    requires placed { ArePlaced (certificate j.now.t.now).entries j.now.places.now }
    requires work { IsMergeWork j.now.cat.now j.now.q.now work.now }
    requires list { HasMergeList j.now work.now }
    ensures { MatchOption result (CoversWork j.now work.now) (λ r. MissesWork j.now work.now r) }
{
    match least_whole(j, work.outer) {
        Some(k) => match least_whole(j, work.inner) {
            Some(l) => open_from(j, work, (k, l)),
            None => None,
        },
        None => None,
    }
}
