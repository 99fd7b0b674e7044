//! Bitmap trees compared with a text.

ghost use Rattle.std.specs.Prelude.{◌≡◌, ◌↔◌, ◌≤◌, ◌+◌, ◌++◌, All, IfSome, IsTrue, Some, codes};
ghost use Rattle.catalog.specs.Contents.{IsIndex, index_name_at};
ghost use Rattle.certificate_entries.specs.explain_Texts.{and_line, leaf_line, leaf_lines, leaf_title, or_line};
ghost use Rattle.certificate_entries.specs.explain_work_Texts.{part_lines, tree_lines};
ghost use Rattle.plan_tree.specs.work.Views.{bits, bits_all};
ghost use Rattle.sql_query.specs.WellBound.{IsWellBound};
ghost use Rattle.plan_lines.specs.HasText.{HasBits, HaveBits, IsConjunct, IsIndexOfQuery};
ghost use Rattle.plan_lines.specs.work.Lines.{or_ending};
ghost use Rattle.plan_lines.specs.Stands.{Stand, Stands};
ghost use Rattle.plan_lines.specs.work.Behind.{GivesBehind};

use crate::behind;
use crate::certificate_entries::find_clause;
use crate::leads::behind_lead;
use crate::numbers::read_number;
use catalog::Catalog;
use pg_base::IndexNo;
use plan_tree::BitTree;
use sql_query::Prepared;

/// What stands behind a scan of an index's entries.
fn behind_leaf_title<'a>(text: &'a [u8], cat: &Catalog, i: IndexNo) -> Option<&'a [u8]>
    requires index { IsIndex cat.now i }
    ensures is { IfSome result (λ l. text.now ≡ leaf_title cat.now i ++ l.now) }
    ensures only { GivesBehind (leaf_title cat.now i) text.now result }
{
    let left = behind(text, b"Bitmap Index Scan on ")?;
    behind(left, cat.index_name(i))
}

/// What stands behind a scan of an index's entries and the end of its line.
fn behind_ended<'a>(text: &'a [u8], cat: &Catalog, i: IndexNo) -> Option<&'a [u8]>
    requires index { IsIndex cat.now i }
    ensures is { IfSome result (λ l. text.now ≡ (leaf_title cat.now i ++ codes "\n") ++ l.now) }
    ensures only { GivesBehind (leaf_title cat.now i ++ codes "\n") text.now result }
{
    let left = behind_leaf_title(text, cat, i)?;
    behind(left, b"\n")
}

/// What stands behind the line of a scan of an index's entries.
fn behind_leaf<'a>(text: &'a [u8], cat: &Catalog, depth: u8, i: IndexNo) -> Option<&'a [u8]>
    requires index { IsIndex cat.now i }
    ensures is { IfSome result (λ l. text.now ≡ leaf_line cat.now depth i ++ l.now) }
    ensures only { GivesBehind (leaf_line cat.now depth i) text.now result }
{
    let left = behind_lead(text, depth)?;
    behind_ended(left, cat, i)
}

/// What stands behind the lines of scans of the entries of some indexes.
fn behind_leaves<'a>(
    text: &'a [u8],
    cat: &Catalog,
    q: &Prepared,
    depth: u8,
    indexes: &[IndexNo],
) -> Option<&'a [u8]>
    requires indexes { All (IsIndexOfQuery cat.now q.now) indexes.now }
    ensures is { IfSome result (λ l. text.now ≡ leaf_lines cat.now depth indexes.now ++ l.now) }
    ensures only { GivesBehind (leaf_lines cat.now depth indexes.now) text.now result }
{
    let mut left = text;
    for i in indexes {
        left = behind_leaf(left, cat, depth, *i)?;
    }
    Some(left)
}

/// Whether a clause, where there is one, is this one.
fn is_clause(found: Option<u16>, n: u16) -> bool
    ensures { IsTrue result ↔ (found ≡ Some n) }
{
    match found {
        Some(clause) => clause == n,
        None => false,
    }
}

/// What stands behind the number of the conjunct that a clause is.
fn behind_conjunct<'a>(text: &'a [u8], cat: &Catalog, q: &Prepared, n: u16) -> Option<&'a [u8]>
    requires bound { IsWellBound cat.now q.now }
    requires clause { IsConjunct cat.now q.now n }
    ensures is { IfSome result (λ l. text.now ≡ or_ending q.now n ++ l.now) }
    ensures only { GivesBehind (or_ending q.now n) text.now result }
{
    let (number, left) = read_number(text)?;
    if is_clause(find_clause(cat, q, number), n) {
        behind(left, b"\n")
    } else {
        None
    }
}

/// What stands behind the line of an OR, by the number of its conjunct.
fn behind_or<'a>(text: &'a [u8], cat: &Catalog, q: &Prepared, depth: u8, n: u16) -> Option<&'a [u8]>
    requires bound { IsWellBound cat.now q.now }
    requires clause { IsConjunct cat.now q.now n }
    ensures is { IfSome result (λ l. text.now ≡ or_line q.now depth n ++ l.now) }
    ensures only { GivesBehind (or_line q.now depth n) text.now result }
{
    let left = behind_lead(text, depth)?;
    behind_conjunct(behind(left, b"BitmapOr ")?, cat, q, n)
}

/// What stands behind the line of an AND.
fn behind_and(text: &[u8], depth: u8) -> Option<&[u8]>
    ensures is { IfSome result (λ l. text.now ≡ and_line depth ++ l.now) }
    ensures only { GivesBehind (and_line depth) text.now result }
{
    let left = behind_lead(text, depth)?;
    behind(left, b"BitmapAnd\n")
}

/// What stands behind the lines of a bitmap tree whose first stands at a depth. None where a text does not begin with them.
#[cycle(behind_bits)]
pub fn behind_bits<'a>(
    text: &'a [u8],
    cat: &Catalog,
    q: &Prepared,
    depth: u8,
    tree: &BitTree,
) -> Option<&'a [u8]>
    requires bound { IsWellBound cat.now q.now }
    requires has { HasBits cat.now q.now (bits tree.now) }
    requires stands { Stands depth (bits tree.now) }
    ensures is { IfSome result (λ l. text.now ≡ tree_lines cat.now q.now depth tree.now ++ l.now) }
    ensures only { GivesBehind (tree_lines cat.now q.now depth tree.now) text.now result }
{
    match tree {
        BitTree::Leaf(i) => behind_leaf(text, cat, depth, *i),
        BitTree::And(parts) => {
            let left = behind_and(text, depth)?;
            behind_trees(left, cat, q, depth + 1, &parts.items)
        }
        BitTree::Or(n, indexes) => {
            let left = behind_or(text, cat, q, depth, *n)?;
            behind_leaves(left, cat, q, depth + 1, indexes)
        }
    }
}

/// What stands behind the lines of some bitmap trees.
#[cycle(behind_bits)]
fn behind_trees<'a>(
    text: &'a [u8],
    cat: &Catalog,
    q: &Prepared,
    depth: u8,
    trees: &[BitTree],
) -> Option<&'a [u8]>
    requires bound { IsWellBound cat.now q.now }
    requires has { HaveBits cat.now q.now (bits_all trees.now) }
    requires stand { Stand depth (bits_all trees.now) }
    ensures is { IfSome result (λ l. text.now ≡ part_lines cat.now q.now depth trees.now ++ l.now) }
    ensures only { GivesBehind (part_lines cat.now q.now depth trees.now) text.now result }
{
    let mut left = text;
    for tree in trees {
        left = behind_bits(left, cat, q, depth, tree)?;
    }
    Some(left)
}
