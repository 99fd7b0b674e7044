//! Merges of the entries of two sets by each list of theirs.

ghost use Rattle.std.specs.Prelude.{MatchOption, [], ◌∷◌};
ghost use Rattle.pathkeys.specs.work.Finding.{class_numbers};
ghost use Rattle.plan_tree.specs.work.Reads.{IsOverTables};
ghost use Rattle.plan_check.specs.work.Views.{certificate};
ghost use Rattle.plan_check.specs.work.Placing.{ArePlaced};
ghost use Rattle.plan_check.specs.Reasons.{AllRight};
ghost use Rattle.join_cover.specs.work.Serving.{AreListsOf};
ghost use Rattle.join_cover.specs.work.Covering.{CoversFirst, CoversFirsts, CoversMergesBy, CoversSecond, CoversSeconds, CoversThirds, CoversThree, IsListOfSets, MissesMerges};

use crate::merges::open_work;
use crate::uncovered::Uncovered;
use entry_check::merge_work;
use eq_classes::ClassNo;
use pg_base::RelSet;
use plan_check::{Judged, Plain};

/// A merge of entries of two sets by a list, each as it stands or sorted, that no entry dominates and one must.
fn open_list(j: &Judged, sets: (RelSet, RelSet), list: &[ClassNo]) -> Option<(Plain, Uncovered)>
    requires query { IsOverTables j.now.cat.now j.now.q.now }
    requires right { AllRight j.now.cat.now j.now.q.now (certificate j.now.t.now) }
    requires placed { ArePlaced (certificate j.now.t.now).entries j.now.places.now }
    requires list { IsListOfSets j.now sets (class_numbers list.now) }
    ensures { MatchOption result (CoversMergesBy j.now list.now sets) (λ r. MissesMerges j.now sets.0 sets.1 r) }
{
    let work = merge_work(j.cat, j.q, list, sets.0, sets.1);
    open_work(j, &work)
}

/// A merge of entries of two sets by a list of three classes, where they are different, that no entry dominates and one must.
fn open_three(
    j: &Judged,
    sets: (RelSet, RelSet),
    list: (ClassNo, ClassNo, ClassNo),
) -> Option<(Plain, Uncovered)>
    requires query { IsOverTables j.now.cat.now j.now.q.now }
    requires right { AllRight j.now.cat.now j.now.q.now (certificate j.now.t.now) }
    requires placed { ArePlaced (certificate j.now.t.now).entries j.now.places.now }
    requires two { IsListOfSets j.now sets (list.0.0 ∷ list.1.0 ∷ []) }
    requires third { IsListOfSets j.now sets (list.2.0 ∷ []) }
    ensures { MatchOption result (CoversThree j.now list sets) (λ r. MissesMerges j.now sets.0 sets.1 r) }
{
    if list.2.0 == list.0.0 {
        return None;
    }
    if list.2.0 == list.1.0 {
        return None;
    }
    open_list(j, sets, &[list.0, list.1, list.2])
}

/// A merge of entries of two sets by a list of two classes and a third one of those that were found, that no entry dominates
/// and one must.
fn open_thirds(
    j: &Judged,
    sets: (RelSet, RelSet),
    found: &[Option<ClassNo>],
    two: (ClassNo, ClassNo),
) -> Option<(Plain, Uncovered)>
    requires query { IsOverTables j.now.cat.now j.now.q.now }
    requires right { AllRight j.now.cat.now j.now.q.now (certificate j.now.t.now) }
    requires placed { ArePlaced (certificate j.now.t.now).entries j.now.places.now }
    requires found { AreListsOf j.now.cat.now j.now.q.now found.now sets.0.0 sets.1.0 }
    requires two { IsListOfSets j.now sets (two.0.0 ∷ two.1.0 ∷ []) }
    ensures { MatchOption result (CoversThirds j.now found.now two sets) (λ r. MissesMerges j.now sets.0 sets.1 r) }
{
    for n in 0..found.len() {
        if let Some(z) = found[n] {
            if let Some(x) = open_three(j, sets, (two.0, two.1, z)) {
                return Some(x);
            }
        }
    }
    None
}

/// A merge of entries of two sets by a list that begins with two classes, where they are different, that no entry dominates and
/// one must.
fn open_two(
    j: &Judged,
    sets: (RelSet, RelSet),
    found: &[Option<ClassNo>],
    two: (ClassNo, ClassNo),
) -> Option<(Plain, Uncovered)>
    requires query { IsOverTables j.now.cat.now j.now.q.now }
    requires right { AllRight j.now.cat.now j.now.q.now (certificate j.now.t.now) }
    requires placed { ArePlaced (certificate j.now.t.now).entries j.now.places.now }
    requires found { AreListsOf j.now.cat.now j.now.q.now found.now sets.0.0 sets.1.0 }
    requires first { IsListOfSets j.now sets (two.0.0 ∷ []) }
    requires second { IsListOfSets j.now sets (two.1.0 ∷ []) }
    ensures { MatchOption result (CoversSecond j.now found.now two sets) (λ r. MissesMerges j.now sets.0 sets.1 r) }
{
    if two.1.0 == two.0.0 {
        return None;
    }
    if let Some(x) = open_list(j, sets, &[two.0, two.1]) {
        return Some(x);
    }
    open_thirds(j, sets, found, two)
}

/// A merge of entries of two sets by a list that begins with a class and a second one of those that were found, that no entry
/// dominates and one must.
fn open_seconds(
    j: &Judged,
    sets: (RelSet, RelSet),
    found: &[Option<ClassNo>],
    first: ClassNo,
) -> Option<(Plain, Uncovered)>
    requires query { IsOverTables j.now.cat.now j.now.q.now }
    requires right { AllRight j.now.cat.now j.now.q.now (certificate j.now.t.now) }
    requires placed { ArePlaced (certificate j.now.t.now).entries j.now.places.now }
    requires found { AreListsOf j.now.cat.now j.now.q.now found.now sets.0.0 sets.1.0 }
    requires first { IsListOfSets j.now sets (first.0 ∷ []) }
    ensures { MatchOption result (CoversSeconds j.now found.now first sets) (λ r. MissesMerges j.now sets.0 sets.1 r) }
{
    for n in 0..found.len() {
        if let Some(y) = found[n] {
            if let Some(x) = open_two(j, sets, found, (first, y)) {
                return Some(x);
            }
        }
    }
    None
}

/// A merge of entries of two sets by a list that begins with a class, that no entry dominates and one must.
fn open_one(
    j: &Judged,
    sets: (RelSet, RelSet),
    found: &[Option<ClassNo>],
    first: ClassNo,
) -> Option<(Plain, Uncovered)>
    requires query { IsOverTables j.now.cat.now j.now.q.now }
    requires right { AllRight j.now.cat.now j.now.q.now (certificate j.now.t.now) }
    requires placed { ArePlaced (certificate j.now.t.now).entries j.now.places.now }
    requires found { AreListsOf j.now.cat.now j.now.q.now found.now sets.0.0 sets.1.0 }
    requires first { IsListOfSets j.now sets (first.0 ∷ []) }
    ensures { MatchOption result (CoversFirst j.now found.now first sets) (λ r. MissesMerges j.now sets.0 sets.1 r) }
{
    if let Some(x) = open_list(j, sets, &[first]) {
        return Some(x);
    }
    open_seconds(j, sets, found, first)
}

/// A merge of entries of two sets, by a list of 1 to 3 different ones of the classes that were found, that no entry dominates
/// and one must.
pub(crate) fn open_firsts(
    j: &Judged,
    sets: (RelSet, RelSet),
    found: &[Option<ClassNo>],
) -> Option<(Plain, Uncovered)>
    requires query { IsOverTables j.now.cat.now j.now.q.now }
    requires right { AllRight j.now.cat.now j.now.q.now (certificate j.now.t.now) }
    requires placed { ArePlaced (certificate j.now.t.now).entries j.now.places.now }
    requires found { AreListsOf j.now.cat.now j.now.q.now found.now sets.0.0 sets.1.0 }
    ensures { MatchOption result (CoversFirsts j.now found.now sets) (λ r. MissesMerges j.now sets.0 sets.1 r) }
{
    for n in 0..found.len() {
        if let Some(first) = found[n] {
            if let Some(x) = open_one(j, sets, found, first) {
                return Some(x);
            }
        }
    }
    None
}
