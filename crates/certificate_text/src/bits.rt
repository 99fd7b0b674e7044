//! Bitmap trees in one line.

ghost use Rattle.std.specs.Prelude.{◌≡◌, ◌++◌, [], All, OnOk, codes, cond};
ghost use Rattle.catalog.specs.Contents.{IsIndex};
ghost use Rattle.explain.specs.work.Texts.{Gets};
ghost use Rattle.plan_tree.specs.work.Views.{bits, bits_all};
ghost use Rattle.certificate_text.specs.HasText.{HasBitsText, HasElementText, HaveElementTexts};
ghost use Rattle.certificate_text.specs.Texts.{leaf_text, leaf_texts, or_text, tree_text};
ghost use Rattle.certificate_text.specs.work.Texts.{tree_list};

use catalog::Catalog;
use explain::{conjunct_of, put_conjunct};
use pg_base::{IndexNo, Memory};
use plan_tree::BitTree;
use sql_query::Prepared;
use std::alloc::Global;

/// Appends a comma and a space, where something stands before.
fn put_comma(text: &mut Vec<u8>, first: bool) -> Result<(), Memory>
    ensures { OnOk result (text.new.items ≡ text.old.items ++ cond first [] (codes ", ")) }
{
    if !first {
        text.extend_from_slice(b", ")?;
    }
    Ok(())
}

/// Appends the entries of an index.
fn put_leaf(text: &mut Vec<u8>, cat: &Catalog, i: IndexNo) -> Result<(), Memory>
    requires index { IsIndex cat.now i }
    ensures { OnOk result (text.new.items ≡ text.old.items ++ leaf_text cat.now i) }
{
    text.extend_from_slice(b"Index ")?;
    text.extend_from_slice(cat.index_name(i))?;
    Ok(())
}

/// Appends the entries of some indexes.
fn put_leaves(text: &mut Vec<u8>, cat: &Catalog, indexes: &[IndexNo]) -> Result<(), Memory>
    requires indexes { All (IsIndex cat.now) indexes.now }
    ensures { OnOk result (text.new.items ≡ text.old.items ++ leaf_texts cat.now indexes.now) }
{
    let mut first = true;
    for i in indexes {
        put_comma(text, first)?;
        put_leaf(text, cat, *i)?;
        first = false;
    }
    Ok(())
}

/// Appends an OR by the number of its conjunct, with an index for each arm.
fn put_or(
    alloc: Global,
    text: &mut Vec<u8>,
    cat: &Catalog,
    q: &Prepared,
    n: u16,
    indexes: &[IndexNo],
) -> Result<(), Memory>
    requires indexes { All (IsIndex cat.now) indexes.now }
    ensures { OnOk result (text.new.items ≡ text.old.items ++ or_text cat.now q.now n indexes.now) }
{
    text.extend_from_slice(b"Or ")?;
    put_conjunct(alloc, text, conjunct_of(q, n))?;
    text.extend_from_slice(b"(")?;
    put_leaves(text, cat, indexes)?;
    text.extend_from_slice(b")")
}

/// Appends an element: the entries of an index, or an OR.
fn put_element(
    alloc: Global,
    text: &mut Vec<u8>,
    cat: &Catalog,
    q: &Prepared,
    tree: &BitTree,
) -> Result<(), Memory>
    requires element { HasElementText cat.now q.now (bits tree.now) }
    ensures { OnOk result (Gets text.old text.new (tree_text cat.now q.now (bits tree.now))) }
{
    match tree {
        BitTree::Leaf(i) => put_leaf(text, cat, *i),
        BitTree::And(_) => unreachable!(),
        BitTree::Or(n, indexes) => put_or(alloc, text, cat, q, *n, indexes),
    }
}

/// Appends elements.
fn put_elements(
    alloc: Global,
    text: &mut Vec<u8>,
    cat: &Catalog,
    q: &Prepared,
    trees: &[BitTree],
) -> Result<(), Memory>
    requires elements { HaveElementTexts cat.now q.now (bits_all trees.now) }
    ensures { OnOk result (Gets text.old text.new (tree_list cat.now q.now (bits_all trees.now))) }
{
    let mut first = true;
    for tree in trees {
        put_comma(text, first)?;
        put_element(alloc, text, cat, q, tree)?;
        first = false;
    }
    Ok(())
}

/// Appends a bitmap tree: an element, or several in parentheses.
pub(crate) fn put_bits(
    alloc: Global,
    text: &mut Vec<u8>,
    cat: &Catalog,
    q: &Prepared,
    tree: &BitTree,
) -> Result<(), Memory>
    requires tree { HasBitsText cat.now q.now (bits tree.now) }
    ensures { OnOk result (Gets text.old text.new (tree_text cat.now q.now (bits tree.now))) }
{
    match tree {
        BitTree::Leaf(i) => put_leaf(text, cat, *i),
        BitTree::And(parts) => {
            text.extend_from_slice(b"And(")?;
            put_elements(alloc, text, cat, q, &parts.items)?;
            text.extend_from_slice(b")")
        }
        BitTree::Or(n, indexes) => put_or(alloc, text, cat, q, *n, indexes),
    }
}
