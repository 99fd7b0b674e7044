//! The bitmap trees of candidates.

ghost use Rattle.std.specs.Prelude.{◌≡◌, IfOk, drop, map, take};
ghost use Rattle.bitmap_scan.specs.work.Chosen.{combined};
ghost use Rattle.check_reply.specs.work.Telling as telling;
ghost use Rattle.plan_tree.specs.work.Views.{bits, element};

use pg_base::{IndexNo, Memory};
use plan_tree::{BitTree, BitTrees, Element, arms_at};
use sql_query::Prepared;
use std::alloc::Global;

/// How many indexes the arms of an element take.
fn arms_taken(q: &Prepared, e: Element) -> usize
    ensures { result ≡ telling.arms_taken q.now (element e) }
{
    match e {
        Element::Index(_) => 0,
        Element::Clause(n) => match arms_at(q, n) {
            Some(arms) => arms.len(),
            None => 0,
        },
    }
}

/// The first of some indexes, and the others.
fn parted(indexes: &[IndexNo], n: usize) -> (&[IndexNo], &[IndexNo])
    ensures first { (result.0).now ≡ take n indexes.now }
    ensures others { (result.1).now ≡ drop n indexes.now }
{
    let n = n.min(indexes.len());
    (&indexes[..n], &indexes[n..])
}

/// The tree of an element with these indexes for its arms. The error means out of memory.
fn tree_by(alloc: Global, e: Element, indexes: &[IndexNo]) -> Result<BitTree, Memory>
    ensures { IfOk result (λ b. bits b ≡ telling.tree_by (element e) indexes.now) }
{
    match e {
        Element::Index(i) => Ok(BitTree::Leaf(i)),
        Element::Clause(n) => {
            let own = Vec::from_slice(alloc, indexes)?;
            Ok(BitTree::Or(n, own))
        }
    }
}

/// The trees of the elements that a number marks, with the indexes of all their arms in order. The error means out of memory.
pub(crate) fn trees_by(
    alloc: Global,
    q: &Prepared,
    mask: u8,
    elements: &[Element],
    indexes: &[IndexNo],
) -> Result<Vec<BitTree>, Memory>
    ensures { IfOk result (λ trees.
        map bits trees.items ≡ telling.trees_by q.now mask (map element elements.now) indexes.now) }
{
    let mut trees = Vec::new(alloc);
    let mut left = mask;
    let mut rest = indexes;
    for n in 0..elements.len() {
        if left % 2 == 1 {
            let (own, others) = parted(rest, arms_taken(q, elements[n]));
            trees.push(tree_by(alloc, elements[n], own)?)?;
            rest = others;
        }
        left /= 2;
    }
    Ok(trees)
}

/// The one tree, or the AND of several.
pub(crate) fn combine(trees: Vec<BitTree>) -> BitTree
    ensures { bits result ≡ combined (map bits trees.items) }
{
    let mut trees = trees;
    if trees.len() != 1 {
        return BitTree::And(BitTrees { items: trees });
    }
    match trees.pop() {
        Some(tree) => tree,
        None => unreachable!(),
    }
}
