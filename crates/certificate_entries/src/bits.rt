//! Bitmap trees.

ghost use Rattle.std.specs.Prelude.{◌≤◌, IfOk, IfSome, length, option_map};
ghost use Rattle.plan_tree.specs.Plans as trees;
ghost use Rattle.plan_tree.specs.work.Views.{bits};
ghost use Rattle.sql_query.specs.WellBound.{IsWellBound};
ghost use Rattle.certificate_text.specs.HasText.{HasBitsText};
ghost use Rattle.certificate_entries.specs.work.Trees.{ReadsParts, ReadsTree};

use crate::elements::{read_element, read_elements};
use catalog::Catalog;
use certificate_text::LineCursor;
use pg_base::Memory;
use plan_tree::{BitTree, BitTrees};
use sql_query::Prepared;
use std::alloc::Global;

/// Several elements, behind their word and a parenthesis.
fn read_and(
    alloc: Global,
    at: &mut LineCursor,
    cat: &Catalog,
    q: &Prepared,
) -> Result<Option<BitTree>, Memory>
    requires bound { IsWellBound cat.now q.now }
    ensures has { IfOk result (λ o. IfSome o (λ b. HasBitsText cat.now q.now (bits b))) }
    ensures only { IfOk result (λ o. ReadsParts cat.now q.now at.old at.new (option_map bits o)) }
{
    let items = match read_elements(alloc, at, cat, q)? {
        Some(items) => items,
        None => return Ok(None),
    };
    if items.len() < 2 {
        return Ok(None);
    }
    if at.eat(b")") {
        Ok(Some(BitTree::And(BitTrees { items })))
    } else {
        Ok(None)
    }
}

/// A bitmap tree: an element, or several in parentheses. None where none comes next. The error means out of memory.
pub fn read_bits(
    alloc: Global,
    at: &mut LineCursor,
    cat: &Catalog,
    q: &Prepared,
) -> Result<Option<BitTree>, Memory>
    requires bound { IsWellBound cat.now q.now }
    ensures has { IfOk result (λ o. IfSome o (λ b. HasBitsText cat.now q.now (bits b))) }
    ensures only { IfOk result (λ o. ReadsTree cat.now q.now at.old at.new (option_map bits o)) }
{
    if at.eat(b"And(") {
        read_and(alloc, at, cat, q)
    } else {
        read_element(alloc, at, cat, q)
    }
}
