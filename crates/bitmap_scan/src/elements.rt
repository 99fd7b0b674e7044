//! The elements of bitmaps, each in its tree of least part.

ghost use Rattle.std.specs.Prelude.{◌≡◌, ◌<◌, ℕ, All, IfOk, length, nat_eq};
ghost use Rattle.pg_base.specs.Sets.{has};
ghost use Rattle.pg_expr.specs.work.AtomSets.{contains};
ghost use Rattle.catalog.specs.Contents.{IsIndex};
ghost use Rattle.index_match.specs.work.Slots.{AreLocal};
ghost use Rattle.sql_query.specs.Queries.{width};
ghost use Rattle.plan_tree.specs.Bitmaps.{IsMatchedOr, by_clause, by_index, condition_at};
ghost use Rattle.plan_tree.specs.work.Reads.{IsOverTables};
ghost use Rattle.plan_tree.specs.work.Views.{element};
ghost use Rattle.bitmap_scan.specs.work.Chosen.{IsLeastTree};
ghost use Rattle.bitmap_scan.specs.work.ElementTrees.{IsKept, IsMade, tree_in, HasLeastTree, HaveLeastTrees, AreKeptAt};

use crate::arms::least_matches;
use crate::element_tree::{ElementTree, Place};
use catalog::Catalog;
use eq_classes::ClauseSet;
use pg_base::{IndexNo, Memory, RelNo, RelSet};
use plan_tree::{BitTree, Element, classes_of, index_served, or_arms, others_named};
use sql_query::Prepared;
use std::alloc::Global;

/// An index that is an element.
fn keep_index(cat: &Catalog, q: &Prepared, at: Place, i: IndexNo) -> ElementTree
    requires query { IsOverTables cat.now q.now }
    requires relation { at.rel.0 < width q.now }
    requires local { AreLocal q.now.classes at.rel.0 (has at.param.0) (contains at.local.now) }
    requires index { IsIndex cat.now i }
    ensures least { HasLeastTree cat.now q.now at.entry (by_index i) result }
    ensures kept { IsKept cat.now q.now at.entry.rel at.entry.param result }
{
    let found = index_served(cat, q, at.rel, at.param, i, at.local);
    let named = others_named(cat, q, at.rel, &found.conditions);
    ElementTree {
        tree: BitTree::Leaf(i),
        part: found.part,
        used: found.conditions,
        named,
    }
}

/// The set of one clause.
fn only(q: &Prepared, n: u16) -> ClauseSet
    requires clause { n < length q.now.classes.clauses }
    ensures { (k : ℕ) → contains result k ≡ nat_eq k n }
{
    let _ = classes_of(q).count();
    let mut set = ClauseSet::empty();
    set.insert(n);
    set
}

/// An OR clause that is an element. The error means out of memory.
fn keep_clause(
    alloc: Global,
    cat: &Catalog,
    q: &Prepared,
    r: RelNo,
    p: RelSet,
    n: u16,
) -> Result<ElementTree, Memory>
    requires query { IsOverTables cat.now q.now }
    requires relation { r.0 < width q.now }
    requires clause { n < length q.now.classes.clauses }
    requires matched { IsMatchedOr cat.now q.now r.0 (condition_at q.now n) }
    ensures least { IfOk result (λ k. IsLeastTree cat.now q.now r p (by_clause n) (tree_in k)) }
    ensures kept { IfOk result (λ k. IsKept cat.now q.now r p k) }
{
    let arms = match or_arms(q, n) {
        Some(arms) => arms,
        None => unreachable!(),
    };
    let (indexes, part) = least_matches(alloc, cat, q, r, p, arms)?;
    let used = only(q, n);
    let named = others_named(cat, q, r, &used);
    Ok(ElementTree {
        tree: BitTree::Or(n, indexes),
        part,
        used,
        named,
    })
}

/// An element. The error means out of memory.
fn keep(
    alloc: Global,
    cat: &Catalog,
    q: &Prepared,
    at: Place,
    e: Element,
) -> Result<ElementTree, Memory>
    requires query { IsOverTables cat.now q.now }
    requires relation { at.rel.0 < width q.now }
    requires local { AreLocal q.now.classes at.rel.0 (has at.param.0) (contains at.local.now) }
    requires made { IsMade cat.now q.now at.rel at.param (element e) }
    ensures least { IfOk result (λ k. HasLeastTree cat.now q.now at.entry (element e) k) }
    ensures kept { IfOk result (λ k. IsKept cat.now q.now at.entry.rel at.entry.param k) }
{
    match e {
        Element::Index(i) => Ok(keep_index(cat, q, at, i)),
        Element::Clause(n) => keep_clause(alloc, cat, q, at.rel, at.param, n),
    }
}

/// Each of some elements, in their order. The error means out of memory.
pub(crate) fn keep_all(
    alloc: Global,
    cat: &Catalog,
    q: &Prepared,
    at: Place,
    elements: &[Element],
) -> Result<Vec<ElementTree>, Memory>
    requires query { IsOverTables cat.now q.now }
    requires relation { at.rel.0 < width q.now }
    requires local { AreLocal q.now.classes at.rel.0 (has at.param.0) (contains at.local.now) }
    requires made { All (λ e. IsMade cat.now q.now at.rel at.param (element e)) elements.now }
    ensures least { IfOk result (λ v. HaveLeastTrees cat.now q.now at.entry elements.now v.items) }
    ensures kept { IfOk result (λ v. AreKeptAt cat.now q.now at.entry v.items) }
{
    let mut kept = Vec::new(alloc);
    for e in elements {
        kept.push(keep(alloc, cat, q, at, *e)?)?;
    }
    Ok(kept)
}
