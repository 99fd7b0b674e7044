//! Which bitmap scans are in the plan space. Nothing is asked of the numbers that stand inside a bitmap tree.

ghost use Rattle.std.specs.Prelude.{◌≡◌, ◌<◌, ◌≤◌, ◌↔◌, Contains, All, IsTrue, false, length, map, true};
ghost use Rattle.std.specs.Option.{option_map};
ghost use Rattle.pg_base.specs.Sets.{has};
ghost use Rattle.pg_base.specs.declared.limits.TheConstants.{MOST_ATOMS};
ghost use Rattle.pg_expr.specs.Columns.{atom_count};
ghost use Rattle.pg_expr.specs.work.View as view;
ghost use Rattle.pg_expr.specs.declared.expr.Expr.{Expr};
ghost use Rattle.eq_classes.specs.Clauses.{Set};
ghost use Rattle.sql_query.specs.Queries.{width};
ghost use Rattle.plan_tree.specs.Bitmaps.{HasArms, HaveArms, IsBitTree};
ghost use Rattle.plan_tree.specs.work.Reads.{IsOverTables};
ghost use Rattle.plan_tree.specs.Space.{IsBitmapScan};
ghost use Rattle.plan_tree.specs.work.Views.{bits, bits_all, element};
ghost use Rattle.plan_space.specs.work.Elements.{AreMatched, GoOnInOrder, IsAndOverFound, IsElementOf, IsNamedByTree, IsNotTheElement, IsTheElement, IsTreeOverFound, TellsOrder, arms_of_clause};

use crate::validity::is_relation;
use catalog::Catalog;
use eq_classes::ClauseSet;
use pg_base::{IndexNo, RelNo, RelSet};
use pg_expr::Expr;
use plan_tree::{BitTree, Element, arms_at, first_elements, matches_arm, names_exactly, use_tree};
use sql_query::Prepared;

/// Whether two elements are the same.
fn is_same(a: Element, b: Element) -> bool
    ensures { IsTrue result ↔ (element a ≡ element b) }
{
    match (a, b) {
        (Element::Index(i), Element::Index(j)) => i.0 == j.0,
        (Element::Clause(m), Element::Clause(n)) => m == n,
        _ => false,
    }
}

/// Whether an element is one of some.
fn is_among(found: &[Element], e: Element) -> bool
    ensures { IsTrue result ↔ Contains (map element found.now) (element e) }
{
    for other in found {
        if is_same(*other, e) {
            return true;
        }
    }
    false
}

/// Whether each of some arms has an index that matches it.
fn all_match(cat: &Catalog, q: &Prepared, r: RelNo, arms: &[Expr], indexes: &[IndexNo]) -> bool
    requires query { IsOverTables cat.now q.now }
    requires relation { r.0 < width q.now }
    requires few { All (λ (e : Expr). atom_count (view.cond e) ≤ MOST_ATOMS) arms.now }
    requires as_many { length indexes.now ≡ length arms.now }
    ensures { IsTrue result ↔ AreMatched cat.now q.now r (map view.cond arms.now) indexes.now }
{
    for n in 0..arms.len() {
        if !matches_arm(cat, q, r, &arms[n], indexes[n]) {
            return false;
        }
    }
    true
}

/// Whether each arm of the OR clause of a number has an index that matches it, and there are no others.
fn has_arms(cat: &Catalog, q: &Prepared, r: RelNo, n: u16, indexes: &[IndexNo]) -> bool
    requires query { IsOverTables cat.now q.now }
    requires relation { r.0 < width q.now }
    ensures { IsTrue result ↔ AreMatched cat.now q.now r (arms_of_clause q.now n) indexes.now }
{
    match arms_at(q, n) {
        Some(arms) => indexes.len() == arms.len() && all_match(cat, q, r, arms, indexes),
        None => indexes.is_empty(),
    }
}

/// The element that a tree is. None where it is an AND.
fn element_of(tree: &BitTree) -> Option<Element>
    ensures { IsElementOf (bits tree.now) (option_map element result) }
{
    match tree {
        BitTree::Leaf(i) => Some(Element::Index(*i)),
        BitTree::And(_) => None,
        BitTree::Or(n, _) => Some(Element::Clause(*n)),
    }
}

/// Whether a tree is an element.
fn is_element(tree: &BitTree, e: Element) -> bool
    ensures yes { result ≡ true → IsTheElement (bits tree.now) (element e) }
    ensures no { result ≡ false → IsNotTheElement (bits tree.now) (element e) }
{
    match element_of(tree) {
        Some(own) => is_same(own, e),
        None => false,
    }
}

/// The place after a tree where it is this element, else its own: the next element that is to be found is there.
fn next(trees: &[BitTree], at: usize, e: Element) -> usize
    requires within { at ≤ length trees.now }
    ensures within { result ≤ length trees.now }
    ensures order { GoOnInOrder trees.now at (element e) result }
{
    if at < trees.len() && is_element(&trees[at], e) {
        at + 1
    } else {
        at
    }
}

/// Whether some trees are elements of a list, in its order.
fn are_in_order(trees: &[BitTree], found: &[Element]) -> bool
    ensures { TellsOrder trees.now found.now result }
{
    let mut at = 0;
    for e in found {
        at = next(trees, at, *e);
    }
    at == trees.len()
}

/// Whether a tree is no AND, and each arm of an OR has an index that matches it.
fn node_has_arms(cat: &Catalog, q: &Prepared, r: RelNo, tree: &BitTree) -> bool
    requires query { IsOverTables cat.now q.now }
    requires relation { r.0 < width q.now }
    ensures { (p : Set) → IsTrue result ↔ HasArms cat.now q.now r.0 p (bits tree.now) }
{
    match tree {
        BitTree::Leaf(_) => true,
        BitTree::And(_) => false,
        BitTree::Or(n, indexes) => has_arms(cat, q, r, *n, indexes),
    }
}

/// Whether each of some trees is such a one.
fn have_arms(cat: &Catalog, q: &Prepared, r: RelNo, trees: &[BitTree]) -> bool
    requires query { IsOverTables cat.now q.now }
    requires relation { r.0 < width q.now }
    ensures { (p : Set) → IsTrue result ↔ HaveArms cat.now q.now r.0 p (bits_all trees.now) }
{
    for tree in trees {
        if !node_has_arms(cat, q, r, tree) {
            return false;
        }
    }
    true
}

/// Whether some trees are two or more of the elements found, in their order.
fn are_over(cat: &Catalog, q: &Prepared, r: RelNo, trees: &[BitTree], found: &[Element]) -> bool
    requires query { IsOverTables cat.now q.now }
    requires relation { r.0 < width q.now }
    ensures { (p : Set) → IsTrue result ↔ IsAndOverFound cat.now q.now r p found.now trees.now }
{
    if trees.len() < 2 {
        return false;
    }
    if !are_in_order(trees, found) {
        return false;
    }
    have_arms(cat, q, r, trees)
}

/// Whether a tree is one over the elements found: one of them, or an AND of two or more of them in their order.
fn is_over(cat: &Catalog, q: &Prepared, r: RelNo, tree: &BitTree, found: &[Element]) -> bool
    requires query { IsOverTables cat.now q.now }
    requires relation { r.0 < width q.now }
    ensures { (p : Set) → IsTrue result ↔ IsTreeOverFound cat.now q.now r p found.now tree.now }
{
    match tree {
        BitTree::Leaf(i) => is_among(found, Element::Index(*i)),
        BitTree::And(parts) => are_over(cat, q, r, &parts.items, found),
        BitTree::Or(n, indexes) => {
            is_among(found, Element::Clause(*n)) && has_arms(cat, q, r, *n, indexes)
        }
    }
}

/// Whether a tree is a bitmap tree of a relation where the rows of `p` are given: over the first 8 elements there.
fn is_bit_tree(cat: &Catalog, q: &Prepared, r: RelNo, p: RelSet, tree: &BitTree) -> bool
    requires query { IsOverTables cat.now q.now }
    requires relation { r.0 < width q.now }
    ensures { IsTrue result ↔ IsBitTree cat.now q.now r.0 (has p.0) (bits tree.now) }
{
    let found = first_elements(cat, q, r, p);
    is_over(cat, q, r, tree, found.items())
}

/// Whether a parameterisation is exactly the other relations that the clauses used by a bitmap tree name.
fn is_named_by_tree(cat: &Catalog, q: &Prepared, r: RelNo, p: RelSet, tree: &BitTree) -> bool
    requires query { IsOverTables cat.now q.now }
    requires relation { r.0 < width q.now }
    requires tree { IsBitTree cat.now q.now r.0 (has p.0) (bits tree.now) }
    ensures { IsTrue result ↔ IsNamedByTree cat.now q.now r p (bits tree.now) }
{
    let mut used = ClauseSet::empty();
    use_tree(cat, q, r, p, tree, &mut used);
    names_exactly(cat, q, r, p, &used)
}

/// Whether a bitmap scan is in the plan space: of a relation of the query by a bitmap tree over the first 8 elements of
/// the relation and its parameterisation, which is exactly the other relations that the clauses used name. The numbers
/// may be any. It takes no memory.
pub fn is_bitmap_scan(cat: &Catalog, q: &Prepared, r: RelNo, p: RelSet, tree: &BitTree) -> bool
    requires query { IsOverTables cat.now q.now }
    ensures valid { IsTrue result ↔ IsBitmapScan cat.now q.now r p (bits tree.now) }
{
    is_relation(q, r) && is_bit_tree(cat, q, r, p, tree) && is_named_by_tree(cat, q, r, p, tree)
}
