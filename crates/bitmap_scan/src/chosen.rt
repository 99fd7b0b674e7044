//! Some of the elements together: what they use, their parts, and their tree.

ghost use Rattle.std.specs.Prelude.{◌≡◌, ◌<◌, ◌≤◌, ◌↔◌, ℕ, IfOk, IsTrue, length, map};
ghost use Rattle.std.specs.List.{list_any};
ghost use Rattle.pg_base.specs.Sets.{has};
ghost use Rattle.pg_expr.specs.work.AtomSets.{contains};
ghost use Rattle.cost_rules.specs.work.Costs.{capped};
ghost use Rattle.plan_tree.specs.Costs.{together};
ghost use Rattle.plan_tree.specs.work.Views.{bits};
ghost use Rattle.bitmap_scan.specs.work.Chosen.{combined, marked};
ghost use Rattle.plan_tree.specs.Space.{IsSameSet};
ghost use Rattle.bitmap_scan.specs.work.ElementTrees.{named_in, tree_in, named_with, marked_names, is_clause_used};

use crate::arms::with_part;
use crate::element_tree::{ElementTree, Marked};
use eq_classes::{ClauseSet, note};
use pg_base::{Memory, RelSet};
use plan_tree::{BitTree, BitTrees, classes_of};
use sql_query::Prepared;
use std::alloc::Global;

/// The elements that the binary digits of a number mark, the lowest digit the first element. The error means out of memory.
pub(crate) fn chosen_by<'a>(
    alloc: Global,
    kept: &'a [ElementTree],
    mask: usize,
) -> Result<Vec<&'a ElementTree>, Memory>
    ensures { IfOk result (λ v. map (λ k. k.now) v.items ≡ marked mask kept.now) }
{
    let mut chosen = Vec::new(alloc);
    let mut left = mask;
    for k in kept {
        if left % 2 == 1 {
            chosen.push(k)?;
        }
        left /= 2;
    }
    Ok(chosen)
}

/// The relations of a set, with those that an element names where the lowest digit of a number is 1.
fn with_named(named: RelSet, e: &ElementTree, left: usize) -> RelSet
    ensures { (k : ℕ) → has result.0 k ≡ named_with named e.now left k }
{
    if left % 2 == 1 {
        named.union(e.named)
    } else {
        named
    }
}

/// The relations that the elements name which the binary digits of a number mark.
fn named_by(kept: &[ElementTree], mask: usize) -> RelSet
    ensures { (k : ℕ) → has result.0 k ≡ named_in (marked mask kept.now) k }
{
    let mut named = RelSet::empty();
    let mut left = mask;
    for e in kept {
        named = with_named(named, e, left);
        left /= 2;
    }
    named
}

/// Whether the relations that the marked elements name are exactly those of `p`.
pub(crate) fn are_named(m: Marked, p: RelSet) -> bool
    ensures { IsTrue result ↔ IsSameSet (has p.0) (marked_names m.entry) }
{
    named_by(m.kept, m.mask) == p
}

/// Whether some element uses the clause of a number.
fn is_used(chosen: &[&ElementTree], n: u16) -> bool
    requires { n < 512 }
    ensures { result ≡ list_any (λ k. contains k.now.used n) chosen.now }
{
    chosen.iter().any(|k| k.used.has(n))
}

/// The clauses that some elements use.
#[tactic(auto, using(eq_classes::proofs::WordLemmas::grows))]
pub(crate) fn used_by(q: &Prepared, chosen: &[&ElementTree]) -> ClauseSet
    ensures { (n : ℕ) → contains result n ≡ is_clause_used q.now chosen.now n }
{
    let mut set = ClauseSet::empty();
    for n in 0..classes_of(q).count() {
        let is = is_used(chosen, n as u16);
        note(&mut set, n as u16, is);
    }
    set
}

/// The parts of some elements together, with 100 for each after the first, cut to at most 10^18.
pub(crate) fn parts_together(chosen: &[&ElementTree]) -> u64
    ensures { result ≡ capped (together (map (λ k. k.now.part) chosen.now)) }
{
    let mut sum = 0;
    for n in 0..chosen.len() {
        sum = with_part(sum, chosen[n].part, n);
    }
    sum
}

/// The tree of some elements: the one, or the AND of several. The error means out of memory.
pub(crate) fn combine(alloc: Global, chosen: &[&ElementTree]) -> Result<BitTree, Memory>
    requires some { 1 ≤ length chosen.now }
    ensures { IfOk result (λ b. bits b ≡ combined (map (λ k. tree_in k.now) chosen.now)) }
{
    if chosen.len() == 1 {
        return chosen[0].tree.copy(alloc);
    }
    let mut items = Vec::new(alloc);
    for k in chosen {
        items.push(k.tree.copy(alloc)?)?;
    }
    Ok(BitTree::And(BitTrees { items }))
}
