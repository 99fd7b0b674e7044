//! Plans that an entry must dominate.

ghost use Rattle.std.specs.Prelude.{MatchOption};
ghost use Rattle.plan_tree.specs.work.Reads.{IsOverTables};
ghost use Rattle.plan_check.specs.work.Views.{certificate};
ghost use Rattle.scan_cover.specs.work.Limits.{HasFewAtoms};
ghost use Rattle.plan_check.specs.work.Placing.{ArePlaced};
ghost use Rattle.plan_check.specs.Reasons.{AllRight, AreCovered};
ghost use Rattle.scan_cover.specs.join_cover_Serving.{IsOpen};

use plan_check::{Judged, Plain};
use scan_cover::join_cover::{Uncovered, open_join};
use scan_cover::{open_bitmap_scan, open_plain_scan};

/// A plan that an entry must dominate and none does, and its numbers: an admissible scan of the plan space, or an
/// admissible join of entries, under a merge as they stand or sorted. Scans come first, those by a bitmap behind the
/// others. None exactly where each such plan is dominated. The conditions are that each entry is right, and that the places
/// are those of the entries. It takes no memory.
pub fn open_candidate(j: &Judged) -> Option<(Plain, Uncovered)>
    requires query { IsOverTables j.now.cat.now j.now.q.now }
    requires atoms { HasFewAtoms j.now.q.now }
    requires right { AllRight j.now.cat.now j.now.q.now (certificate j.now.t.now) }
    requires placed { ArePlaced (certificate j.now.t.now).entries j.now.places.now }
    ensures { MatchOption result (AreCovered j.now.cat.now j.now.q.now (certificate j.now.t.now))
        (λ x. IsOpen j.now.cat.now j.now.q.now (certificate j.now.t.now) x.0 x.1) }
{
    if let Some(x) = open_plain_scan(j) {
        return Some(x);
    }
    if let Some(x) = open_bitmap_scan(j) {
        return Some(x);
    }
    open_join(j)
}
