//! Scans of each relation, where the rows of each set of the others are given.

ghost use Rattle.std.specs.Prelude.{◌≡◌, ◌<◌, MatchOption};
ghost use Rattle.pg_base.specs.Sets.{has};
ghost use Rattle.catalog.specs.Contents as contents;
ghost use Rattle.catalog.specs.work.Contents as contents_work;
ghost use Rattle.plan_tree.specs.Bitmaps.{table_of_relation};
ghost use Rattle.plan_tree.specs.work.Reads.{IsOverTables};
ghost use Rattle.plan_tree.specs.Space.{IsSameSet};
ghost use Rattle.sql_query.specs.Queries.{all_of_query, width};
ghost use Rattle.plan_check.specs.work.Views.{certificate};
ghost use Rattle.plan_check.specs.work.Placing.{ArePlaced};
ghost use Rattle.plan_check.specs.Reasons.{AllRight};
ghost use Rattle.scan_cover.specs.work.Covering.{CoversIndexes, CoversPlainScans, CoversRelation, CoversSeq, MissesPlainScan, MissesSeq};

use crate::indexes::open_by_index;
use crate::numbers::open_with;
use catalog::Catalog;
use join_cover::Uncovered;
use join_cover::entry_check::{all_relations, numbers_of, set_rows};
use pg_base::{IndexNo, RelNo, RelSet};
use plan_check::{Judged, Plain};
use plan_tree::{kept_of, range_of, seq_scan_cost};
use sql_query::Prepared;

/// The numbers of the sequential scan of a relation, where it is an admissible one that no entry dominates.
fn open_seq(j: &Judged, r: RelNo) -> Option<Uncovered>
    requires query { IsOverTables j.now.cat.now j.now.q.now }
    requires right { AllRight j.now.cat.now j.now.q.now (certificate j.now.t.now) }
    requires placed { ArePlaced (certificate j.now.t.now).entries j.now.places.now }
    requires relation { r.0 < width j.now.q.now }
    ensures { MatchOption result (CoversSeq j.now r) (λ x. MissesSeq j.now r x) }
{
    j.cat.lawful();
    let set = RelSet::one(r);
    let cost = kept_of(j.q, seq_scan_cost(j.cat, j.q, r));
    match numbers_of(j.q, cost, set_rows(j.cat, j.q, set)) {
        Some(own) => open_with(j, set, RelSet(0), &[], own),
        None => None,
    }
}

/// The indexes of a relation's table, in order of making.
pub fn indexes_of<'a>(cat: &'a Catalog, q: &Prepared, r: RelNo) -> &'a [IndexNo]
    requires query { IsOverTables cat.now q.now }
    requires relation { r.0 < width q.now }
    ensures { result.now ≡ contents.indexes_of cat.now (table_of_relation q.now r.0) }
{
    cat.indexes(range_of(q).items()[r.0 as usize].0)
}

/// A scan of a relation by some index, where the rows of `p` are given, that no entry dominates and one must.
fn open_given(j: &Judged, r: RelNo, p: RelSet) -> Option<(Plain, Uncovered)>
    requires query { IsOverTables j.now.cat.now j.now.q.now }
    requires right { AllRight j.now.cat.now j.now.q.now (certificate j.now.t.now) }
    requires placed { ArePlaced (certificate j.now.t.now).entries j.now.places.now }
    requires relation { r.0 < width j.now.q.now }
    ensures { MatchOption result (CoversIndexes j.now r p) (λ x. MissesPlainScan j.now x) }
{
    let indexes = indexes_of(j.cat, j.q, r);
    for i in indexes {
        if let Some(x) = open_by_index(j, r, p, *i) {
            return Some(x);
        }
    }
    None
}

/// A scan of a relation by some index, where the rows of any others are given, that no entry dominates and one must.
fn open_relation(j: &Judged, r: RelNo, all: RelSet) -> Option<(Plain, Uncovered)>
    requires query { IsOverTables j.now.cat.now j.now.q.now }
    requires right { AllRight j.now.cat.now j.now.q.now (certificate j.now.t.now) }
    requires placed { ArePlaced (certificate j.now.t.now).entries j.now.places.now }
    requires relation { r.0 < width j.now.q.now }
    requires all { IsSameSet (has all.0) (all_of_query j.now.q.now) }
    ensures { MatchOption result (CoversRelation j.now r) (λ x. MissesPlainScan j.now x) }
{
    if let Some(x) = open_seq(j, r) {
        return Some((Plain::Seq { rel: r }, x));
    }
    for bits in 0..all.0 as u32 + 1 {
        if let Some(x) = open_given(j, r, RelSet(bits as u16)) {
            return Some(x);
        }
    }
    None
}

/// An admissible scan of the plan space, but none by a bitmap, that no entry dominates, and its numbers. None exactly where
/// each such scan is dominated. The conditions are that each entry is right, and that the places are those of the entries. It
/// takes no memory.
pub fn open_plain_scan(j: &Judged) -> Option<(Plain, Uncovered)>
    requires query { IsOverTables j.now.cat.now j.now.q.now }
    requires right { AllRight j.now.cat.now j.now.q.now (certificate j.now.t.now) }
    requires placed { ArePlaced (certificate j.now.t.now).entries j.now.places.now }
    ensures { MatchOption result (CoversPlainScans j.now) (λ x. MissesPlainScan j.now x) }
{
    let all = all_relations(j.q);
    for r in 0..range_of(j.q).items().len() {
        if let Some(x) = open_relation(j, RelNo(r as u8), all) {
            return Some(x);
        }
    }
    None
}
