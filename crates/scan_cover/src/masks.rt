//! Scans over each set of the elements.

ghost use Rattle.std.specs.Prelude.{◌≡◌, ◌<◌, ◌≤◌, ◌^◌, ℕ, All, IfNone, IfSome, MatchOption, cond, ◌∷◌, [], length};
ghost use Rattle.plan_tree.specs.Bitmaps.{IsMatchedOr, condition_at};
ghost use Rattle.plan_tree.specs.Plans.{BitTree};
ghost use Rattle.plan_tree.specs.work.Reads.{IsOverTables};
ghost use Rattle.plan_tree.specs.declared.elements.Element.TheVariants as elements;
ghost use Rattle.sql_query.specs.Queries.{width};
ghost use Rattle.bitmap_scan.specs.work.Chosen.{marked};
ghost use Rattle.bitmap_scan.specs.work.ElementTrees.{IsMade};
ghost use Rattle.plan_check.specs.work.Views.{certificate};
ghost use Rattle.plan_check.specs.work.Placing.{ArePlaced};
ghost use Rattle.plan_check.specs.Reasons.{AllRight};
ghost use Rattle.scan_cover.specs.work.Limits.{HasFewAtoms};
ghost use Rattle.scan_cover.specs.work.Trees.{AreFirst, AreKept, IsKept, PutsAllArms, PutsArms, element_in};
ghost use Rattle.scan_cover.specs.work.Covering.{CoversBitmaps, CoversMarked, IsNodeOfMarked, IsScanByBitmap, MissesBitmapScan, MissesMarked};

use crate::arms::put_least;
use crate::entry_check::{numbers_of, rows_given};
use crate::filling::Arms;
use crate::join_cover::Uncovered;
use crate::kept::Kept;
use crate::marks::{parts_of, used_by};
use crate::open_with;
use catalog::Catalog;
use path_cost::bitmap;
use pg_base::{RelNo, RelSet};
use plan_check::{Judged, Plain};
use plan_tree::{Element, classes_of, kept_of, names_exactly, or_arms, range_of};
use sql_query::Prepared;

/// A relation and the others whose rows its scan is given.
#[derive(Clone, Copy)]
pub(crate) struct Given {
    /// The relation.
    pub(crate) rel: RelNo,
    /// The others.
    pub(crate) param: RelSet,
}

/// The numbers of the scan over the elements that a number marks, each in a tree of least part, where it is an admissible
/// one of the plan space that no entry dominates.
fn open_mask(j: &Judged, at: Given, kept: &[Kept], mask: usize) -> Option<Uncovered>
    requires query { IsOverTables j.now.cat.now j.now.q.now }
    requires right { AllRight j.now.cat.now j.now.q.now (certificate j.now.t.now) }
    requires placed { ArePlaced (certificate j.now.t.now).entries j.now.places.now }
    requires relation { at.rel.0 < width j.now.q.now }
    requires few { length kept.now ≤ 8 }
    requires first { AreFirst j.now.cat.now j.now.q.now at.rel at.param kept.now }
    ensures none { IfNone result (CoversMarked j.now at kept.now mask) }
    ensures some { IfSome result (λ x. MissesMarked j.now at kept.now mask x) }
{
    j.cat.lawful();
    let parts = parts_of(kept, mask);
    if parts.1 == 0 {
        return None;
    }
    let used = used_by(j.q, kept, mask);
    if !names_exactly(j.cat, j.q, at.rel, at.param, &used) {
        return None;
    }
    let (range, classes) = (range_of(j.q), classes_of(j.q));
    let cost = bitmap(j.cat, range, classes, at.rel, at.param, &used, parts.0);
    let rows = rows_given(j.cat, j.q, at.rel, at.param);
    match numbers_of(j.q, kept_of(j.q, cost), rows) {
        Some(own) => open_with(j, RelSet::one(at.rel), at.param, &[], own),
        None => None,
    }
}

/// Puts in the indexes of the arms of an OR clause that is an element, each of least part.
fn put_clause(cat: &Catalog, q: &Prepared, at: Given, k: &Kept, n: u16, into: &mut Arms)
    requires query { IsOverTables cat.now q.now }
    requires relation { at.rel.0 < width q.now }
    requires clause { n < length q.now.classes.clauses }
    requires matched { IsMatchedOr cat.now q.now at.rel.0 (condition_at q.now n) }
    requires element { k.now.element ≡ elements.Clause n }
    requires kept { (b : BitTree) × IsKept cat.now q.now at.rel at.param k.now b }
    ensures { PutsArms cat.now q.now at k.now into.old into.new }
{
    match or_arms(q, n) {
        Some(arms) => put_least(cat, q, at.rel, at.param, arms, into),
        None => unreachable!(),
    }
}

/// Puts in the indexes of the arms of an element.
fn put_element(cat: &Catalog, q: &Prepared, at: Given, k: &Kept, into: &mut Arms)
    requires query { IsOverTables cat.now q.now }
    requires relation { at.rel.0 < width q.now }
    requires made { IsMade cat.now q.now at.rel at.param (element_in k.now) }
    requires kept { (b : BitTree) × IsKept cat.now q.now at.rel at.param k.now b }
    ensures { PutsArms cat.now q.now at k.now into.old into.new }
{
    match k.element {
        Element::Index(_) => {}
        Element::Clause(n) => put_clause(cat, q, at, k, n, into),
    }
}

/// Puts in those of an element that is marked.
fn put_marked(cat: &Catalog, q: &Prepared, at: Given, k: &Kept, is: bool, into: &mut Arms)
    requires query { IsOverTables cat.now q.now }
    requires relation { at.rel.0 < width q.now }
    requires made { IsMade cat.now q.now at.rel at.param (element_in k.now) }
    requires kept { (b : BitTree) × IsKept cat.now q.now at.rel at.param k.now b }
    ensures { PutsAllArms cat.now q.now at (cond is (k.now ∷ []) []) into.old into.new }
{
    if is {
        put_element(cat, q, at, k, into);
    }
}

/// Puts in those of each element that is marked, in their order.
fn put_all(cat: &Catalog, q: &Prepared, at: Given, kept: &[Kept], mask: usize, into: &mut Arms)
    requires query { IsOverTables cat.now q.now }
    requires relation { at.rel.0 < width q.now }
    requires made { All (λ k. IsMade cat.now q.now at.rel at.param (element_in k)) kept.now }
    requires kept { AreKept cat.now q.now at.rel at.param kept.now }
    ensures { PutsAllArms cat.now q.now at (marked mask kept.now) into.old into.new }
{
    let mut left = mask;
    for n in 0..kept.len() {
        put_marked(cat, q, at, &kept[n], left % 2 == 1, into);
        left /= 2;
    }
}

/// The scan over the elements that a number marks, with an index of least part for each arm.
fn node_of(cat: &Catalog, q: &Prepared, at: Given, kept: &[Kept], mask: usize) -> Plain
    requires query { IsOverTables cat.now q.now }
    requires atoms { HasFewAtoms q.now }
    requires relation { at.rel.0 < width q.now }
    requires few { length kept.now ≤ 8 }
    requires mask { mask < 2 ^ length kept.now }
    requires first { AreFirst cat.now q.now at.rel at.param kept.now }
    requires kept { AreKept cat.now q.now at.rel at.param kept.now }
    ensures stands { IsNodeOfMarked cat.now q.now at (marked mask kept.now) result }
    ensures kind { IsScanByBitmap result }
{
    let mut arms = Arms::empty();
    put_all(cat, q, at, kept, mask, &mut arms);
    Plain::Bitmap {
        rel: at.rel,
        param: at.param,
        elements: mask as u8,
        arms: arms.indexes,
    }
}

/// How many sets there are of so many elements, the empty one too.
fn sets_of(n: usize) -> usize
    requires few { n ≤ 8 }
    ensures { result ≡ 2 ^ n }
{
    1 << n
}

/// A scan over some of the elements that is an admissible one of the plan space and that no entry dominates, and its
/// numbers. None exactly where each such one, whatever indexes its arms have, is dominated.
pub(crate) fn open_marks(j: &Judged, at: Given, kept: &[Kept]) -> Option<(Plain, Uncovered)>
    requires query { IsOverTables j.now.cat.now j.now.q.now }
    requires atoms { HasFewAtoms j.now.q.now }
    requires right { AllRight j.now.cat.now j.now.q.now (certificate j.now.t.now) }
    requires placed { ArePlaced (certificate j.now.t.now).entries j.now.places.now }
    requires relation { at.rel.0 < width j.now.q.now }
    requires few { length kept.now ≤ 8 }
    requires first { AreFirst j.now.cat.now j.now.q.now at.rel at.param kept.now }
    requires kept { AreKept j.now.cat.now j.now.q.now at.rel at.param kept.now }
    ensures { MatchOption result (CoversBitmaps j.now at) (λ x. MissesBitmapScan j.now x) }
{
    for mask in 0..sets_of(kept.len()) {
        if let Some(x) = open_mask(j, at, kept, mask) {
            return Some((node_of(j.cat, j.q, at, kept, mask), x));
        }
    }
    None
}
