//! Bitmap trees.

ghost use Rattle.std.specs.Prelude.{◌≡◌, ◌++◌, All, OnOk};
ghost use Rattle.catalog.specs.Contents.{IsIndex};
ghost use Rattle.explain.specs.work.Lines.{HasIndexes, HaveIndexes};
ghost use Rattle.plan_tree.specs.work.Views.{bits, bits_all};
ghost use Rattle.explain.specs.Texts.{and_line, conjunct_in, leaf_line, leaf_lines, leaf_title, number_text, or_line};
ghost use Rattle.explain.specs.work.Texts.{Gets, part_lines, tree_lines};

use crate::lead::Lead;
use catalog::Catalog;
use pg_base::{IndexNo, Memory};
use plan_tree::{BitTree, classes_of};
use sql_query::Prepared;
use std::alloc::Global;

/// Appends what a scan of an index's entries is.
fn put_leaf_title(text: &mut Vec<u8>, cat: &Catalog, i: IndexNo) -> Result<(), Memory>
    requires index { IsIndex cat.now i }
    ensures { OnOk result (text.new.items ≡ text.old.items ++ leaf_title cat.now i) }
{
    text.extend_from_slice(b"Bitmap Index Scan on ")?;
    text.extend_from_slice(cat.index_name(i))?;
    Ok(())
}

/// Appends the line of a scan of an index's entries.
fn put_leaf(text: &mut Vec<u8>, cat: &Catalog, lead: &Lead, i: IndexNo) -> Result<(), Memory>
    requires index { IsIndex cat.now i }
    ensures { OnOk result (text.new.items ≡ text.old.items ++ leaf_line cat.now lead.now i) }
{
    lead.put(text)?;
    put_leaf_title(text, cat, i)?;
    text.extend_from_slice(b"\n")
}

/// Appends the lines of scans of the entries of some indexes.
fn put_leaves(
    text: &mut Vec<u8>,
    cat: &Catalog,
    lead: &Lead,
    indexes: &[IndexNo],
) -> Result<(), Memory>
    requires indexes { All (IsIndex cat.now) indexes.now }
    ensures { OnOk result (Gets text.old text.new (leaf_lines cat.now lead.now indexes.now)) }
{
    for i in indexes {
        put_leaf(text, cat, lead, *i)?;
    }
    Ok(())
}

/// The number, from 1, of the conjunct that the clause of a number is. None where there is no such clause, or a class makes it.
pub fn conjunct_of(q: &Prepared, n: u16) -> Option<u16>
    ensures { result ≡ conjunct_in q.now n }
{
    let classes = classes_of(q);
    if (n as usize) < classes.count() {
        classes.conjunct(n)
    } else {
        None
    }
}

/// Appends the number of a conjunct to a text, where there is one. The error means out of memory.
pub fn put_conjunct(alloc: Global, text: &mut Vec<u8>, number: Option<u16>) -> Result<(), Memory>
    ensures { OnOk result (text.new.items ≡ text.old.items ++ number_text number) }
{
    match number {
        Some(n) => {
            let digits = format!(in alloc; "{n}")?;
            text.extend_from_slice(digits.as_bytes())
        }
        None => Ok(()),
    }
}

/// Appends the line of an OR, by the number of its conjunct.
fn put_or(
    alloc: Global,
    text: &mut Vec<u8>,
    q: &Prepared,
    lead: &Lead,
    n: u16,
) -> Result<(), Memory>
    ensures { OnOk result (text.new.items ≡ text.old.items ++ or_line q.now lead.now n) }
{
    lead.put(text)?;
    text.extend_from_slice(b"BitmapOr ")?;
    put_conjunct(alloc, text, conjunct_of(q, n))?;
    text.extend_from_slice(b"\n")
}

/// Appends the line of an AND.
fn put_and(text: &mut Vec<u8>, lead: &Lead) -> Result<(), Memory>
    ensures { OnOk result (text.new.items ≡ text.old.items ++ and_line lead.now) }
{
    lead.put(text)?;
    text.extend_from_slice(b"BitmapAnd\n")
}

/// Appends the lines of a bitmap tree.
#[cycle(put_bits)]
pub(crate) fn put_bits(
    alloc: Global,
    text: &mut Vec<u8>,
    cat: &Catalog,
    q: &Prepared,
    lead: &Lead,
    tree: &BitTree,
) -> Result<(), Memory>
    requires tree { HasIndexes cat.now (bits tree.now) }
    ensures { OnOk result (Gets text.old text.new (tree_lines cat.now q.now lead.now tree.now)) }
{
    match tree {
        BitTree::Leaf(i) => put_leaf(text, cat, lead, *i),
        BitTree::And(parts) => {
            put_and(text, lead)?;
            let below = lead.deeper(alloc)?;
            put_trees(alloc, text, cat, q, &below, &parts.items)
        }
        BitTree::Or(n, indexes) => {
            put_or(alloc, text, q, lead, *n)?;
            let below = lead.deeper(alloc)?;
            put_leaves(text, cat, &below, indexes)
        }
    }
}

/// Appends the lines of some bitmap trees.
#[cycle(put_bits)]
fn put_trees(
    alloc: Global,
    text: &mut Vec<u8>,
    cat: &Catalog,
    q: &Prepared,
    lead: &Lead,
    trees: &[BitTree],
) -> Result<(), Memory>
    requires trees { HaveIndexes cat.now (bits_all trees.now) }
    ensures { OnOk result (Gets text.old text.new (part_lines cat.now q.now lead.now trees.now)) }
{
    for tree in trees {
        put_bits(alloc, text, cat, q, lead, tree)?;
    }
    Ok(())
}
