//! Joins of any two entries, by the pairs of their sets.

ghost use Rattle.std.specs.Prelude.{MatchOption};
ghost use Rattle.pg_base.specs.Sets.{has};
ghost use Rattle.plan_tree.specs.work.Reads.{IsOverTables};
ghost use Rattle.plan_tree.specs.Space.{IsSameSet};
ghost use Rattle.plan_check.specs.work.Views.{certificate};
ghost use Rattle.plan_check.specs.work.Placing.{ArePlaced};
ghost use Rattle.plan_check.specs.Reasons.{AllRight};
ghost use Rattle.sql_query.specs.Queries.{all_of_query};
ghost use Rattle.join_cover.specs.work.Covering.{CoversAllJoins, CoversJoins, CoversJoinsUpTo, CoversMerges, MissesJoin, MissesJoinOf, MissesMerges};

use crate::lists::open_firsts;
use crate::nests::open_nests;
use crate::uncovered::Uncovered;
use entry_check::all_relations;
use pg_base::RelSet;
use plan_check::{Judged, Plain};
use plan_tree::classes_of;

/// An admissible merge of entries of two sets, each as it stands or sorted by its list, that no entry dominates, and its
/// numbers. None exactly where each such merge of the plan space is dominated. The conditions are that each entry is right, and
/// that the places are those of the entries. It takes no memory.
pub fn open_merges(j: &Judged, outer: RelSet, inner: RelSet) -> Option<(Plain, Uncovered)>
    requires query { IsOverTables j.now.cat.now j.now.q.now }
    requires right { AllRight j.now.cat.now j.now.q.now (certificate j.now.t.now) }
    requires placed { ArePlaced (certificate j.now.t.now).entries j.now.places.now }
    ensures { MatchOption result (CoversMerges j.now outer inner)
        (λ r. MissesMerges j.now outer inner r) }
{
    let found = classes_of(j.q).joining(outer, inner);
    open_firsts(j, (outer, inner), &found)
}

/// A join of entries of two sets that no entry dominates and one must: nested loops first.
fn open_pair(j: &Judged, outer: RelSet, inner: RelSet) -> Option<(Plain, Uncovered)>
    requires query { IsOverTables j.now.cat.now j.now.q.now }
    requires right { AllRight j.now.cat.now j.now.q.now (certificate j.now.t.now) }
    requires placed { ArePlaced (certificate j.now.t.now).entries j.now.places.now }
    ensures { MatchOption result (CoversJoins j.now outer inner)
        (λ r. MissesJoinOf j.now outer inner r) }
{
    if outer.meets(inner) {
        return None;
    }
    if let Some((k, l, x)) = open_nests(j, outer, inner) {
        return Some((Plain::Nest { outer: k, inner: l }, x));
    }
    open_merges(j, outer, inner)
}

/// A join of an outer entry of one set and an inner one of any, that no entry dominates and one must.
fn open_side(j: &Judged, outer: RelSet, all: RelSet) -> Option<(Plain, Uncovered)>
    requires query { IsOverTables j.now.cat.now j.now.q.now }
    requires right { AllRight j.now.cat.now j.now.q.now (certificate j.now.t.now) }
    requires placed { ArePlaced (certificate j.now.t.now).entries j.now.places.now }
    ensures { MatchOption result (CoversJoinsUpTo j.now outer all) (λ r. MissesJoin j.now r) }
{
    for bits in 0..all.0 as u32 + 1 {
        if let Some(x) = open_pair(j, outer, RelSet(bits as u16)) {
            return Some(x);
        }
    }
    None
}

/// An admissible join of two entries, under a merge as they stand or sorted, that no entry dominates, and its numbers: by the
/// sets of its sides, for each pair of sets nested loops first. None exactly where each such join of the plan space is
/// dominated. The conditions are that each entry is right, and that the places are those of the entries. It takes no memory.
pub fn open_join(j: &Judged) -> Option<(Plain, Uncovered)>
    requires query { IsOverTables j.now.cat.now j.now.q.now }
    requires right { AllRight j.now.cat.now j.now.q.now (certificate j.now.t.now) }
    requires placed { ArePlaced (certificate j.now.t.now).entries j.now.places.now }
    ensures { MatchOption result (CoversAllJoins j.now) (λ r. MissesJoin j.now r) }
{
    let all = all_relations(j.q);
    for bits in 0..all.0 as u32 + 1 {
        if let Some(x) = open_side(j, RelSet(bits as u16), all) {
            return Some(x);
        }
    }
    None
}
