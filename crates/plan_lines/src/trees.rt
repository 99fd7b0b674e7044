//! Bitmap trees, read line by line.

ghost use Rattle.std.specs.Prelude.{◌≤◌, IfOk, IfSome, length};
ghost use Rattle.plan_tree.specs.work.Views.{bits};
ghost use Rattle.sql_query.specs.WellBound.{IsWellBound};
ghost use Rattle.plan_lines.specs.HasText.{IsConjunct, IsIndexOfQuery};
ghost use Rattle.plan_lines.specs.work.Finding.{FindsLeafAt};
ghost use Rattle.plan_lines.specs.work.Trees.{HasBitsAt, ReadsAll, ReadsArms, ReadsTreeAt};

use crate::Lines;
use crate::bitmap_lines::{TreeLine, read_leaf, read_line};
use catalog::Catalog;
use pg_base::{IndexNo, Memory};
use plan_tree::{BitTree, BitTrees};
use sql_query::Prepared;
use std::alloc::Global;

/// The index whose entries a line at a depth scans.
fn read_leaf_at(line: &[u8], cat: &Catalog, q: &Prepared, depth: u8) -> Option<IndexNo>
    ensures has { IfSome result (λ i. IsIndexOfQuery cat.now q.now i × (depth ≤ 64)) }
    ensures only { FindsLeafAt cat.now q.now depth line.now result }
{
    if depth > 64 {
        return None;
    }
    read_leaf(line, cat, q)
}

/// The scans of the entries of indexes that stand beneath the line of an OR at a depth, with the OR.
fn read_arms(
    alloc: Global,
    at: &mut Lines,
    cat: &Catalog,
    q: &Prepared,
    depth: u8,
    clause: u16,
) -> Result<Option<BitTree>, Memory>
    requires deep { depth ≤ 64 }
    requires clause { IsConjunct cat.now q.now clause }
    ensures has { IfOk result (λ o. IfSome o (λ b. HasBitsAt cat.now q.now depth (bits b))) }
    ensures only { IfOk result (λ o. ReadsArms cat.now q.now depth clause at.old at.new o) }
    ensures shorter { length at.new ≤ length at.old }
{
    cat.lawful();
    let mut indexes = Vec::new(alloc);
    'arms: while let Some(line) = at.next_at(depth + 1) {
        match read_leaf_at(line, cat, q, depth + 1) {
            Some(index) => indexes.push(index)?,
            None => return Ok(None),
        }
    }
    Ok(Some(BitTree::Or(clause, indexes)))
}

/// The bitmap tree whose first line, at a depth, says this; the lines beneath come next. None where they are those of no such
/// tree. The error means out of memory.
#[cycle(read_tree)]
pub fn read_tree(
    alloc: Global,
    at: &mut Lines,
    cat: &Catalog,
    q: &Prepared,
    depth: u8,
    line: &[u8],
) -> Result<Option<BitTree>, Memory>
    requires bound { IsWellBound cat.now q.now }
    requires deep { depth ≤ 65 }
    ensures has { IfOk result (λ o. IfSome o (λ b. HasBitsAt cat.now q.now depth (bits b))) }
    ensures only { IfOk result (λ o. ReadsTreeAt cat.now q.now depth line.now at.old at.new o) }
    ensures shorter { length at.new ≤ length at.old }
{
    if depth > 64 {
        return Ok(None);
    }
    match read_line(line, cat, q) {
        Some(TreeLine::Leaf(index)) => Ok(Some(BitTree::Leaf(index))),
        Some(TreeLine::All) => read_all(alloc, at, cat, q, depth),
        Some(TreeLine::Arm(clause)) => read_arms(alloc, at, cat, q, depth, clause),
        None => Ok(None),
    }
}

/// The bitmap trees that stand beneath the line of an AND at a depth, with the AND.
#[cycle(read_tree)]
fn read_all(
    alloc: Global,
    at: &mut Lines,
    cat: &Catalog,
    q: &Prepared,
    depth: u8,
) -> Result<Option<BitTree>, Memory>
    requires bound { IsWellBound cat.now q.now }
    requires deep { depth ≤ 64 }
    ensures has { IfOk result (λ o. IfSome o (λ b. HasBitsAt cat.now q.now depth (bits b))) }
    ensures only { IfOk result (λ o. ReadsAll cat.now q.now depth at.old at.new o) }
    ensures shorter { length at.new ≤ length at.old }
{
    cat.lawful();
    let mut items = Vec::new(alloc);
    'trees: while let Some(line) = at.next_at(depth + 1) {
        match read_tree(alloc, at, cat, q, depth + 1, line)? {
            Some(tree) => items.push(tree)?,
            None => return Ok(None),
        }
    }
    Ok(Some(BitTree::And(BitTrees { items })))
}
