//! Elements of bitmap trees.

ghost use Rattle.std.specs.Prelude.{◌≡◌, ◌≤◌, IfOk, IfSome, None, length, option_map, slice_get};
ghost use Rattle.certificate_text.specs.explain_Texts.{conjunct_by};
ghost use Rattle.plan_tree.specs.Plans as trees;
ghost use Rattle.plan_tree.specs.work.Views.{bits};
ghost use Rattle.sql_query.specs.WellBound.{IsWellBound};
ghost use Rattle.certificate_text.specs.HasText.{HasElementText};
ghost use Rattle.certificate_entries.specs.work.Trees.{HaveElements, ReadsClause, ReadsElement, ReadsElements, ReadsLeaf, ReadsOr};

use crate::clauses::find_clause;
use crate::{read_leaf, read_leaves};
use catalog::Catalog;
use certificate_text::LineCursor;
use pg_base::Memory;
use plan_tree::BitTree;
use sql_query::Prepared;
use std::alloc::Global;

/// The clause of an OR by the number of its conjunct, and the parenthesis behind it.
fn read_clause(at: &mut LineCursor, cat: &Catalog, q: &Prepared) -> Option<u16>
    requires bound { IsWellBound cat.now q.now }
    ensures has { IfSome result (λ n. ¬ (conjunct_by (slice_get q.now.classes.clauses n) ≡ None)) }
    ensures only { ReadsClause q.now at.old at.new result }
    ensures shorter { length at.new ≤ length at.old }
{
    let number = at.number()?;
    let clause = find_clause(cat, q, number)?;
    if at.eat(b"(") { Some(clause) } else { None }
}

/// An OR behind its word: the number of a conjunct, and an index or more in parentheses.
fn read_or(
    alloc: Global,
    at: &mut LineCursor,
    cat: &Catalog,
    q: &Prepared,
) -> Result<Option<BitTree>, Memory>
    requires bound { IsWellBound cat.now q.now }
    ensures has { IfOk result (λ o. IfSome o (λ b. HasElementText cat.now q.now (bits b))) }
    ensures only { IfOk result (λ o. ReadsOr cat.now q.now at.old at.new (option_map bits o)) }
    ensures shorter { length at.new ≤ length at.old }
{
    let Some(clause) = read_clause(at, cat, q) else {
        return Ok(None);
    };
    let Some(indexes) = read_leaves(alloc, at, cat)? else {
        return Ok(None);
    };
    if at.eat(b")") {
        Ok(Some(BitTree::Or(clause, indexes)))
    } else {
        Ok(None)
    }
}

/// The entries of an index as an element.
fn leaf_of(at: &mut LineCursor, cat: &Catalog, q: &Prepared) -> Option<BitTree>
    ensures has { IfSome result (λ b. HasElementText cat.now q.now (bits b)) }
    ensures only { ReadsLeaf cat.now q.now at.old at.new (option_map bits result) }
    ensures shorter { length at.new ≤ length at.old }
{
    let _ = q;
    let index = read_leaf(at, cat)?;
    Some(BitTree::Leaf(index))
}

/// An element: the entries of an index, or an OR.
pub(crate) fn read_element(
    alloc: Global,
    at: &mut LineCursor,
    cat: &Catalog,
    q: &Prepared,
) -> Result<Option<BitTree>, Memory>
    requires bound { IsWellBound cat.now q.now }
    ensures has { IfOk result (λ o. IfSome o (λ b. HasElementText cat.now q.now (bits b))) }
    ensures only { IfOk result (λ o. ReadsElement cat.now q.now at.old at.new (option_map bits o)) }
    ensures shorter { length at.new ≤ length at.old }
{
    if at.eat(b"Or ") {
        read_or(alloc, at, cat, q)
    } else {
        Ok(leaf_of(at, cat, q))
    }
}

/// Elements, one or more, each behind a comma and a space but the first. None where no such list comes next. The error means
/// out of memory.
pub(crate) fn read_elements(
    alloc: Global,
    at: &mut LineCursor,
    cat: &Catalog,
    q: &Prepared,
) -> Result<Option<Vec<BitTree>>, Memory>
    requires bound { IsWellBound cat.now q.now }
    ensures has { IfOk result (λ o. IfSome o (λ bs. HaveElements cat.now q.now bs.items)) }
    ensures only { IfOk result (λ o. ReadsElements cat.now q.now at.old at.new o) }
    ensures shorter { length at.new ≤ length at.old }
{
    let mut elements = Vec::new(alloc);
    match read_element(alloc, at, cat, q)? {
        Some(element) => elements.push(element)?,
        None => return Ok(None),
    }
    'list: while at.eat(b", ") {
        match read_element(alloc, at, cat, q)? {
            Some(element) => elements.push(element)?,
            None => return Ok(None),
        }
    }
    Ok(Some(elements))
}
