//! Scans by an index.

ghost use Rattle.std.specs.Prelude.{◌≡◌, ◌<◌, ◌≤◌, MatchOption, length};
ghost use Rattle.pg_base.specs.declared.limits.TheConstants.{MOST_COLUMNS};
ghost use Rattle.catalog.specs.Contents.{IsIndex};
ghost use Rattle.pathkeys.specs.work.Finding.{class_numbers};
ghost use Rattle.plan_tree.specs.Keys.{keys_of as list_of};
ghost use Rattle.plan_tree.specs.work.Reads.{IsOverTables};
ghost use Rattle.plan_tree.specs.Space.{IsBuilt};
ghost use Rattle.sql_query.specs.Queries.{width};
ghost use Rattle.plan_check.specs.work.Views.{certificate};
ghost use Rattle.plan_check.specs.work.Placing.{ArePlaced};
ghost use Rattle.plan_check.specs.Reasons.{AllRight};
ghost use Rattle.join_cover.specs.entry_check_Owning.{tree_of};
ghost use Rattle.scan_cover.specs.work.Covering.{CoversIndex, CoversScan, MissesPlainScan, MissesScan};

use crate::numbers::open_with;
use arrayvec::ArrayVec;
use catalog::Catalog;
use eq_classes::ClassNo;
use join_cover::Uncovered;
use join_cover::entry_check::{ByIndex, is_built, key_at, numbers_of, rows_given};
use pg_base::{IndexNo, MOST_COLUMNS, RelNo, RelSet};
use plan_check::{Judged, Plain};
use plan_tree::{index_scan_cost, kept_of};
use sql_query::Prepared;

/// The keys of a scan by an index.
fn keys_of(cat: &Catalog, q: &Prepared, s: ByIndex) -> ArrayVec<ClassNo, MOST_COLUMNS>
    requires index { IsIndex cat.now s.index }
    requires few { length (list_of cat.now q.now (tree_of s)) ≤ MOST_COLUMNS }
    ensures { class_numbers result.items ≡ list_of cat.now q.now (tree_of s) }
{
    let mut list = ArrayVec::new();
    for n in 0..MOST_COLUMNS {
        match key_at(cat, q, s, n) {
            Some(c) => list.push(c),
            None => return list,
        }
    }
    list
}

/// The numbers of a scan by an index, where it is an admissible one of the plan space that no entry dominates.
fn open_index(j: &Judged, s: ByIndex) -> Option<Uncovered>
    requires query { IsOverTables j.now.cat.now j.now.q.now }
    requires right { AllRight j.now.cat.now j.now.q.now (certificate j.now.t.now) }
    requires placed { ArePlaced (certificate j.now.t.now).entries j.now.places.now }
    requires relation { s.rel.0 < width j.now.q.now }
    ensures { MatchOption result (CoversScan j.now s) (λ x. MissesScan j.now s x) }
{
    j.cat.lawful();
    if !is_built(j.cat, j.q, s) {
        return None;
    }
    let keys = keys_of(j.cat, j.q, s);
    let cost = index_scan_cost(j.cat, j.q, s.rel, s.index, s.param, s.only);
    let rows = rows_given(j.cat, j.q, s.rel, s.param);
    match numbers_of(j.q, kept_of(j.q, cost), rows) {
        Some(own) => open_with(j, RelSet::one(s.rel), s.param, keys.as_slice(), own),
        None => None,
    }
}

/// A scan by an index, with its numbers, where it is an admissible one of the plan space that no entry dominates.
fn open_way(j: &Judged, s: ByIndex) -> Option<(Plain, Uncovered)>
    requires query { IsOverTables j.now.cat.now j.now.q.now }
    requires right { AllRight j.now.cat.now j.now.q.now (certificate j.now.t.now) }
    requires placed { ArePlaced (certificate j.now.t.now).entries j.now.places.now }
    requires relation { s.rel.0 < width j.now.q.now }
    ensures { MatchOption result (CoversScan j.now s) (λ r. MissesPlainScan j.now r) }
{
    match open_index(j, s) {
        Some(x) => Some((
            Plain::Index {
                rel: s.rel,
                index: s.index,
                backward: s.backward,
                only: s.only,
                param: s.param,
            },
            x,
        )),
        None => None,
    }
}

/// A scan by an index where the rows of `p` are given, index-only or not, forward or backward, that is an admissible one
/// of the plan space and that no entry dominates, and its numbers. None exactly where each such one is dominated.
pub(crate) fn open_by_index(
    j: &Judged,
    r: RelNo,
    p: RelSet,
    i: IndexNo,
) -> Option<(Plain, Uncovered)>
    requires query { IsOverTables j.now.cat.now j.now.q.now }
    requires right { AllRight j.now.cat.now j.now.q.now (certificate j.now.t.now) }
    requires placed { ArePlaced (certificate j.now.t.now).entries j.now.places.now }
    requires relation { r.0 < width j.now.q.now }
    ensures { MatchOption result (CoversIndex j.now r p i) (λ x. MissesPlainScan j.now x) }
{
    let fetching = ByIndex {
        rel: r,
        index: i,
        backward: false,
        param: p,
        only: false,
    };
    if let Some(x) = open_way(j, fetching) {
        return Some(x);
    }
    let back = ByIndex {
        backward: true,
        ..fetching
    };
    if let Some(x) = open_way(j, back) {
        return Some(x);
    }
    let only = ByIndex {
        only: true,
        ..fetching
    };
    if let Some(x) = open_way(j, only) {
        return Some(x);
    }
    let only_back = ByIndex { only: true, ..back };
    open_way(j, only_back)
}
