//! Scans by a bitmap of each relation, where the rows of each set of the others are given.

ghost use Rattle.std.specs.Prelude.{◌<◌, MatchOption};
ghost use Rattle.pg_base.specs.Sets.{has};
ghost use Rattle.plan_tree.specs.work.Reads.{IsOverTables};
ghost use Rattle.plan_tree.specs.Space.{IsSameSet};
ghost use Rattle.sql_query.specs.Queries.{all_of_query, width};
ghost use Rattle.plan_check.specs.work.Views.{certificate};
ghost use Rattle.plan_check.specs.work.Placing.{ArePlaced};
ghost use Rattle.plan_check.specs.Reasons.{AllRight};
ghost use Rattle.scan_cover.specs.work.Limits.{HasFewAtoms};
ghost use Rattle.scan_cover.specs.work.Covering.{CoversAllBitmaps, CoversBitmaps, CoversRelationBitmaps, MissesBitmapScan};

use crate::elements::keep_all;
use crate::entry_check::all_relations;
use crate::join_cover::Uncovered;
use crate::masks::{Given, open_marks};
use pg_base::{RelNo, RelSet};
use plan_check::{Judged, Plain};
use plan_tree::{first_elements, range_of};

/// A scan of a relation by a bitmap, where the rows of some others are given, that no entry dominates and one must.
fn open_given(j: &Judged, at: Given) -> Option<(Plain, Uncovered)>
    requires query { IsOverTables j.now.cat.now j.now.q.now }
    requires atoms { HasFewAtoms j.now.q.now }
    requires right { AllRight j.now.cat.now j.now.q.now (certificate j.now.t.now) }
    requires placed { ArePlaced (certificate j.now.t.now).entries j.now.places.now }
    requires relation { at.rel.0 < width j.now.q.now }
    ensures { MatchOption result (CoversBitmaps j.now at) (λ x. MissesBitmapScan j.now x) }
{
    let elements = first_elements(j.cat, j.q, at.rel, at.param);
    let kept = keep_all(j.cat, j.q, at.rel, at.param, elements.items());
    open_marks(j, at, kept.as_slice())
}

/// A scan of a relation by a bitmap, where the rows of any others are given, that no entry dominates and one must.
fn open_relation(j: &Judged, rel: RelNo, all: RelSet) -> Option<(Plain, Uncovered)>
    requires query { IsOverTables j.now.cat.now j.now.q.now }
    requires atoms { HasFewAtoms j.now.q.now }
    requires right { AllRight j.now.cat.now j.now.q.now (certificate j.now.t.now) }
    requires placed { ArePlaced (certificate j.now.t.now).entries j.now.places.now }
    requires relation { rel.0 < width j.now.q.now }
    requires all { IsSameSet (has all.0) (all_of_query j.now.q.now) }
    ensures { MatchOption result (CoversRelationBitmaps j.now rel) (λ x. MissesBitmapScan j.now x) }
{
    for bits in 0..all.0 as u32 + 1 {
        let param = RelSet(bits as u16);
        if let Some(x) = open_given(j, Given { rel, param }) {
            return Some(x);
        }
    }
    None
}

/// An admissible scan of the plan space by a bitmap that no entry dominates, and its numbers. None exactly where each such
/// scan is dominated: over each set of the first 8 elements, whatever indexes the arms have. The conditions are that each
/// entry is right, that the places are those of the entries, and that the OR clauses together have no more atoms than a
/// statement may have. It takes no memory.
pub fn open_bitmap_scan(j: &Judged) -> Option<(Plain, Uncovered)>
    requires query { IsOverTables j.now.cat.now j.now.q.now }
    requires atoms { HasFewAtoms j.now.q.now }
    requires right { AllRight j.now.cat.now j.now.q.now (certificate j.now.t.now) }
    requires placed { ArePlaced (certificate j.now.t.now).entries j.now.places.now }
    ensures { MatchOption result (CoversAllBitmaps j.now) (λ x. MissesBitmapScan j.now x) }
{
    let all = all_relations(j.q);
    for r in 0..range_of(j.q).items().len() {
        if let Some(x) = open_relation(j, RelNo(r as u8), all) {
            return Some(x);
        }
    }
    None
}
