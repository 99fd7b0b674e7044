//! Lists of indexes, in a bitmap tree.

ghost use Rattle.std.specs.Prelude.{◌≤◌, All, IfOk, IfSome, length};
ghost use Rattle.catalog.specs.Contents.{IsIndex};
ghost use Rattle.certificate_entries.specs.work.Trees.{ReadsLeaves};

use crate::indexes::read_leaf;
use catalog::Catalog;
use certificate_text::LineCursor;
use pg_base::{IndexNo, Memory};
use std::alloc::Global;

/// The entries of indexes, one or more, each behind a comma and a space but the first. None where no such list comes next. The
/// error means out of memory.
pub fn read_leaves(
    alloc: Global,
    at: &mut LineCursor,
    cat: &Catalog,
) -> Result<Option<Vec<IndexNo>>, Memory>
    ensures has { IfOk result (λ o. IfSome o (λ is. All (IsIndex cat.now) is.items)) }
    ensures some { IfOk result (λ o. IfSome o (λ is. 1 ≤ length is.items)) }
    ensures only { IfOk result (λ o. ReadsLeaves cat.now at.old at.new o) }
    ensures shorter { length at.new ≤ length at.old }
{
    let mut indexes = Vec::new(alloc);
    match read_leaf(at, cat) {
        Some(index) => indexes.push(index)?,
        None => return Ok(None),
    }
    'list: while at.eat(b", ") {
        match read_leaf(at, cat) {
            Some(index) => indexes.push(index)?,
            None => return Ok(None),
        }
    }
    Ok(Some(indexes))
}
