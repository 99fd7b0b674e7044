//! Candidates by their numbers.

ghost use Rattle.std.specs.Prelude.{IfNone, IfSome};
ghost use Rattle.plan_check.specs.work.Views.{certificate};
ghost use Rattle.plan_check.specs.work.Placing.{ArePlaced};
ghost use Rattle.scan_cover.specs.work.Covering.{CoversCandidate, CoversScansWith, MissesCandidate, MissesScansWith};

use eq_classes::ClassNo;
use join_cover::Uncovered;
use join_cover::entry_check::Own;
use pg_base::RelSet;
use plan_check::{Candidate, Judged, counted, is_covered};

/// The numbers of a candidate that no entry dominates. None exactly where an entry dominates it.
fn open_candidate(j: &Judged, x: &Candidate) -> Option<Uncovered>
    requires placed { ArePlaced (certificate j.now.t.now).entries j.now.places.now }
    ensures none { IfNone result (CoversCandidate j.now x.now) }
    ensures some { IfSome result (λ u. MissesCandidate j.now x.now u) }
{
    let entries = j.t.entries.items();
    let mut noted = 0;
    let covered = is_covered(j.q, entries, j.places, x, &mut noted);
    if covered {
        return None;
    }
    Some(Uncovered {
        startup: counted(j.q, x.startup),
        cost: x.cost,
        rows: x.rows,
    })
}

/// The numbers of an admissible scan, given by its set, its parameterisation, its keys and its numbers, where no entry
/// dominates it. None exactly where one does. Contracts speak of it where each entry is right. The condition is that the
/// places are those of the entries.
pub fn open_with(
    j: &Judged,
    set: RelSet,
    param: RelSet,
    keys: &[ClassNo],
    own: Own,
) -> Option<Uncovered>
    requires placed { ArePlaced (certificate j.now.t.now).entries j.now.places.now }
    ensures none { IfNone result (CoversScansWith j.now set param keys.now own) }
    ensures some { IfSome result (λ x. MissesScansWith j.now set param keys.now own x) }
{
    let x = Candidate {
        set,
        param,
        startup: own.startup,
        cost: own.cost,
        rows: own.rows,
        keys,
    };
    open_candidate(j, &x)
}
