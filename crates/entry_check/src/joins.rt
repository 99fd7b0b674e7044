//! Joins that entries say they are.

ghost use Rattle.std.specs.Prelude.{◌≡◌, ◌↔◌, IfNone, IfSome, IsTrue};
ghost use Rattle.pathkeys.specs.work.Finding.{class_numbers};
ghost use Rattle.plan_tree.specs.work.Reads.{IsOverTables};
ghost use Rattle.plan_check.specs.work.Views.{entry};
ghost use Rattle.entry_check.specs.work.Owning.{HasRight};
ghost use Rattle.entry_check.specs.work.Making.{HasCandidate, HasNoMerge, HasNoNest, HasOther, HasOwnMerge, HasOwnNest};

use crate::merges::merge_of;
use crate::nests::nest_of;
use crate::numbers::Own;
use catalog::Catalog;
use eq_classes::ClassNo;
use pathkeys::Keys;
use plan_check::{Candidate, Entry, Side};
use plan_space::is_merge_list;
use plan_tree::classes_of;
use sql_query::Prepared;

/// Whether two lists of classes are equal.
fn are_equal(a: &[ClassNo], b: &[ClassNo]) -> bool
    ensures { IsTrue result ↔ (class_numbers a.now ≡ class_numbers b.now) }
{
    a == b
}

/// The numbers of a candidate, where an entry has its set, its parameterisation and its keys. None exactly where it has
/// not.
fn own_of(e: &Entry, x: &Candidate) -> Option<Own>
    ensures some { IfSome result (λ own. HasCandidate e.now x.now own) }
    ensures none { IfNone result (HasOther e.now x.now) }
{
    if e.set.0 != x.set.0 {
        return None;
    }
    if e.param.0 != x.param.0 {
        return None;
    }
    if !are_equal(e.keys.items(), x.keys) {
        return None;
    }
    Some(Own {
        startup: x.startup,
        cost: x.cost,
        rows: x.rows,
    })
}

/// The numbers of the nested loop of two right entries, where an entry is it but for its numbers. None exactly where it is
/// not.
pub(crate) fn own_nest(cat: &Catalog, q: &Prepared, e: &Entry, a: &Entry, b: &Entry) -> Option<Own>
    requires query { IsOverTables cat.now q.now }
    requires outer { HasRight cat.now q.now (entry a.now) }
    requires inner { HasRight cat.now q.now (entry b.now) }
    ensures some { IfSome result (λ own. HasOwnNest cat.now q.now e.now a.now b.now own) }
    ensures none { IfNone result (HasNoNest cat.now q.now e.now a.now b.now) }
{
    match nest_of(cat, q, a, b) {
        Some(x) => own_of(e, &x),
        None => None,
    }
}

/// A merge of two entries by their numbers.
#[derive(Clone, Copy)]
pub(crate) struct Merging<'a> {
    /// The list by which it is.
    pub(crate) list: &'a Keys,
    /// The outer side.
    pub(crate) outer: Side,
    /// The inner side.
    pub(crate) inner: Side,
}

/// The numbers of the merge of two right entries by a list, each sorted by the list or not, where an entry is it but for
/// its numbers. None exactly where it is not. The list may be any.
pub(crate) fn own_merge(
    cat: &Catalog,
    q: &Prepared,
    e: &Entry,
    m: &Merging,
    a: &Entry,
    b: &Entry,
) -> Option<Own>
    requires query { IsOverTables cat.now q.now }
    requires outer { HasRight cat.now q.now (entry a.now) }
    requires inner { HasRight cat.now q.now (entry b.now) }
    ensures some { IfSome result (λ own. HasOwnMerge cat.now q.now m.now e.now a.now b.now own) }
    ensures none { IfNone result (HasNoMerge cat.now q.now m.now e.now a.now b.now) }
{
    if !is_merge_list(classes_of(q), a.set, b.set, m.list) {
        return None;
    }
    match merge_of(cat, q, m.list.items(), a, b, (m.outer.sort, m.inner.sort)) {
        Some(x) => own_of(e, &x),
        None => None,
    }
}
