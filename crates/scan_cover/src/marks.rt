//! Some of the elements together, as the binary digits of a number mark them, the lowest digit the first element.

ghost use Rattle.std.specs.Prelude.{◌≡◌, ◌<◌, ◌≤◌, ◌+◌, ◌%◌, ◌&&◌, ◌||◌, cond, length, map, nat_eq};
ghost use Rattle.std.specs.List.{list_any};
ghost use Rattle.pg_expr.specs.work.AtomSets.{contains};
ghost use Rattle.cost_rules.specs.work.Costs.{capped};
ghost use Rattle.plan_tree.specs.Costs.{together};
ghost use Rattle.bitmap_scan.specs.work.Chosen.{marked};
ghost use Rattle.scan_cover.specs.work.Trees.{AddsPart, AreUsedByKept};

use crate::arms::with_part;
use crate::kept::Kept;
use eq_classes::{ClauseSet, note};
use plan_tree::classes_of;
use sql_query::Prepared;

/// Parts together and how many they are, with one more where it is marked.
fn add(sum: (u64, usize), part: u64, is: bool) -> (u64, usize)
    requires few { sum.1 ≤ 8 }
    ensures sum { AddsPart sum part is result.0 }
    ensures count { result.1 ≡ sum.1 + cond is 1 0 }
{
    if !is {
        return sum;
    }
    (with_part(sum.0, part, sum.1), sum.1 + 1)
}

/// The parts of the elements that are marked together, with 100 for each after the first, cut to at most 10^18, and how
/// many they are.
pub(crate) fn parts_of(kept: &[Kept], mask: usize) -> (u64, usize)
    requires few { length kept.now ≤ 8 }
    ensures part { result.0 ≡ capped (together (map (λ k. k.part) (marked mask kept.now))) }
    ensures count { result.1 ≡ length (marked mask kept.now) }
{
    let mut sum = (0, 0);
    let mut left = mask;
    for n in 0..kept.len() {
        sum = add(sum, kept[n].part, left % 2 == 1);
        left /= 2;
    }
    sum
}

/// Whether an element that is marked uses a clause, or an earlier one did.
fn or_uses(found: bool, k: &Kept, left: usize, n: u16) -> bool
    requires { n < 512 }
    ensures { result ≡ found || (nat_eq (left % 2) 1 && contains k.now.used n) }
{
    found || (left % 2 == 1 && k.used.has(n))
}

/// Whether some element that is marked uses the clause of a number.
fn is_used(kept: &[Kept], mask: usize, n: u16) -> bool
    requires { n < 512 }
    ensures { result ≡ list_any (λ k. contains k.used n) (marked mask kept.now) }
{
    let mut found = false;
    let mut left = mask;
    for k in 0..kept.len() {
        found = or_uses(found, &kept[k], left, n);
        left /= 2;
    }
    found
}

/// The clauses that the elements that are marked use.
#[tactic(auto, using(eq_classes::proofs::WordLemmas::grows))]
pub(crate) fn used_by(q: &Prepared, kept: &[Kept], mask: usize) -> ClauseSet
    ensures { AreUsedByKept q.now (marked mask kept.now) result }
{
    let mut set = ClauseSet::empty();
    for n in 0..classes_of(q).count() {
        let is = is_used(kept, mask, n as u16);
        note(&mut set, n as u16, is);
    }
    set
}
