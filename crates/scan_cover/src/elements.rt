//! The elements of bitmaps, each with the part of its tree of least part.

ghost use Rattle.std.specs.Prelude.{◌≡◌, ◌<◌, ◌≤◌, ℕ, All, length, map, nat_eq};
ghost use Rattle.pg_expr.specs.work.AtomSets.{contains};
ghost use Rattle.catalog.specs.Contents.{IsIndex};
ghost use Rattle.sql_query.specs.Queries.{width};
ghost use Rattle.plan_tree.specs.Bitmaps.{IsMatchedOr, condition_at};
ghost use Rattle.plan_tree.specs.Plans.{BitTree, leaf};
ghost use Rattle.plan_tree.specs.work.Reads.{IsOverTables};
ghost use Rattle.plan_tree.specs.work.Views.{element};
ghost use Rattle.plan_tree.specs.declared.elements.Element.TheVariants as elements;
ghost use Rattle.bitmap_scan.specs.work.ElementTrees.{IsMade};
ghost use Rattle.scan_cover.specs.work.Trees.{AreKept, IsKept, element_in};

use crate::arms::arms_part;
use crate::kept::Kept;
use arrayvec::ArrayVec;
use catalog::Catalog;
use eq_classes::ClauseSet;
use pg_base::{IndexNo, RelNo, RelSet};
use plan_tree::{Element, MOST_ELEMENTS, classes_of, conditions_found, index_part_of, or_arms};
use sql_query::Prepared;

/// An index that is an element.
fn keep_index(cat: &Catalog, q: &Prepared, r: RelNo, p: RelSet, i: IndexNo) -> Kept
    requires query { IsOverTables cat.now q.now }
    requires relation { r.0 < width q.now }
    requires index { IsIndex cat.now i }
    ensures element { result.element ≡ elements.Index i }
    ensures kept { IsKept cat.now q.now r p result (leaf i) }
{
    Kept {
        element: Element::Index(i),
        part: index_part_of(cat, q, r, p, i),
        used: conditions_found(cat, q, r, i, p),
    }
}

/// The set of one clause.
fn only(q: &Prepared, n: u16) -> ClauseSet
    requires clause { n < length q.now.classes.clauses }
    ensures { (k : ℕ) → contains result k ≡ nat_eq k n }
{
    let _ = classes_of(q).count();
    let mut set = ClauseSet::empty();
    set.insert(n);
    set
}

/// An OR clause that is an element.
fn keep_clause(cat: &Catalog, q: &Prepared, r: RelNo, p: RelSet, n: u16) -> Kept
    requires query { IsOverTables cat.now q.now }
    requires relation { r.0 < width q.now }
    requires clause { n < length q.now.classes.clauses }
    requires matched { IsMatchedOr cat.now q.now r.0 (condition_at q.now n) }
    ensures element { result.element ≡ elements.Clause n }
    ensures kept { (b : BitTree) × IsKept cat.now q.now r p result b }
{
    let arms = match or_arms(q, n) {
        Some(arms) => arms,
        None => unreachable!(),
    };
    Kept {
        element: Element::Clause(n),
        part: arms_part(cat, q, r, p, arms),
        used: only(q, n),
    }
}

/// An element.
fn keep(cat: &Catalog, q: &Prepared, r: RelNo, p: RelSet, e: Element) -> Kept
    requires query { IsOverTables cat.now q.now }
    requires relation { r.0 < width q.now }
    requires made { IsMade cat.now q.now r p (element e) }
    ensures element { result.element ≡ e }
    ensures kept { (b : BitTree) × IsKept cat.now q.now r p result b }
{
    match e {
        Element::Index(i) => keep_index(cat, q, r, p, i),
        Element::Clause(n) => keep_clause(cat, q, r, p, n),
    }
}

/// Each of at most 8 elements, in their order.
pub(crate) fn keep_all(
    cat: &Catalog,
    q: &Prepared,
    r: RelNo,
    p: RelSet,
    found: &[Element],
) -> ArrayVec<Kept, MOST_ELEMENTS>
    requires query { IsOverTables cat.now q.now }
    requires relation { r.0 < width q.now }
    requires few { length found.now ≤ 8 }
    requires made { All (λ e. IsMade cat.now q.now r p (element e)) found.now }
    ensures elements { map element_in result.items ≡ map element found.now }
    ensures kept { AreKept cat.now q.now r p result.items }
{
    let mut kept = ArrayVec::new();
    for n in 0..found.len() {
        kept.push(keep(cat, q, r, p, found[n]));
    }
    kept
}
