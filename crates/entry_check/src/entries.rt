//! Nodes of entries over the entries before them.

ghost use Rattle.std.specs.Prelude.{◌≡◌, ◌≤◌, IfNone, IfSome, None, length};
ghost use Rattle.plan_tree.specs.work.Reads.{IsOverTables};
ghost use Rattle.plan_check.specs.work.Views.{certificate};
ghost use Rattle.plan_check.specs.Reasons.{AreRight};
ghost use Rattle.entry_check.specs.work.Making.{FindsOwn, HasPlanBefore, made_at, made_bitmap, made_index, made_index_only, made_merge, made_nest, made_seq, plan_before};

use crate::joins::{Merging, own_merge, own_nest};
use crate::numbers::Own;
use crate::scans::{ByIndex, own_bitmap, own_index, own_seq, relation_of};
use catalog::Catalog;
use pg_base::IndexNo;
use plan_check::{Certificate, Entry, Node};
use plan_tree::BitTree;
use sql_query::Prepared;

/// The entry of a number, where it stands before place `n`. None exactly where no entry before it has the number.
pub(crate) fn entry_before<'a>(
    cat: &Catalog,
    q: &Prepared,
    t: &'a Certificate,
    n: usize,
    number: u32,
) -> Option<&'a Entry>
    requires within { n ≤ length (certificate t.now).entries }
    requires right { AreRight cat.now q.now (certificate t.now) n }
    ensures some { IfSome result (λ e. HasPlanBefore cat.now q.now t.now n number e.now) }
    ensures none { IfNone result (plan_before q.now t.now n number ≡ None) }
{
    let number = number as usize;
    if number < 1 {
        return None;
    }
    if number > n {
        return None;
    }
    Some(&t.entries.items()[number - 1])
}

/// What an entry is as a sequential scan. None exactly where it is none, but for its numbers.
fn seq_own(cat: &Catalog, q: &Prepared, e: &Entry) -> Option<Own>
    requires query { IsOverTables cat.now q.now }
    ensures { FindsOwn cat.now q.now (made_seq q.now e.now) e.now result }
{
    match relation_of(q, e.set) {
        Some(r) => own_seq(cat, q, e, r),
        None => None,
    }
}

/// What an entry is as a scan by an index. None exactly where it is none, but for its numbers.
fn index_own(cat: &Catalog, q: &Prepared, e: &Entry, i: IndexNo, backward: bool) -> Option<Own>
    requires query { IsOverTables cat.now q.now }
    ensures { FindsOwn cat.now q.now (made_index q.now e.now i backward) e.now result }
{
    match relation_of(q, e.set) {
        Some(rel) => own_index(
            cat,
            q,
            e,
            ByIndex {
                rel,
                index: i,
                backward,
                param: e.param,
                only: false,
            },
        ),
        None => None,
    }
}

/// What an entry is as an index-only scan. None exactly where it is none, but for its numbers.
fn index_only_own(cat: &Catalog, q: &Prepared, e: &Entry, i: IndexNo, backward: bool) -> Option<Own>
    requires query { IsOverTables cat.now q.now }
    ensures { FindsOwn cat.now q.now (made_index_only q.now e.now i backward) e.now result }
{
    match relation_of(q, e.set) {
        Some(rel) => own_index(
            cat,
            q,
            e,
            ByIndex {
                rel,
                index: i,
                backward,
                param: e.param,
                only: true,
            },
        ),
        None => None,
    }
}

/// What an entry is as a scan by a bitmap tree. None exactly where it is none, but for its numbers.
fn bitmap_own(cat: &Catalog, q: &Prepared, e: &Entry, tree: &BitTree) -> Option<Own>
    requires query { IsOverTables cat.now q.now }
    ensures { FindsOwn cat.now q.now (made_bitmap q.now e.now tree.now) e.now result }
{
    match relation_of(q, e.set) {
        Some(r) => own_bitmap(cat, q, e, r, tree),
        None => None,
    }
}

/// What an entry at place `n` is as a nested loop of the entries of two numbers. None exactly where it is none, but for
/// its numbers.
fn nest_own(
    cat: &Catalog,
    q: &Prepared,
    t: &Certificate,
    n: usize,
    e: &Entry,
    sides: (u32, u32),
) -> Option<Own>
    requires query { IsOverTables cat.now q.now }
    requires within { n ≤ length (certificate t.now).entries }
    requires right { AreRight cat.now q.now (certificate t.now) n }
    ensures { FindsOwn cat.now q.now (made_nest q.now t.now n sides.0 sides.1) e.now result }
{
    match entry_before(cat, q, t, n, sides.0) {
        Some(a) => match entry_before(cat, q, t, n, sides.1) {
            Some(b) => own_nest(cat, q, e, a, b),
            None => None,
        },
        None => None,
    }
}

/// What an entry at place `n` is as a merge by a list of the entries of two sides. None exactly where it is none, but for
/// its numbers.
fn merge_own(
    cat: &Catalog,
    q: &Prepared,
    t: &Certificate,
    n: usize,
    e: &Entry,
    m: &Merging,
) -> Option<Own>
    requires query { IsOverTables cat.now q.now }
    requires within { n ≤ length (certificate t.now).entries }
    requires right { AreRight cat.now q.now (certificate t.now) n }
    ensures { FindsOwn cat.now q.now (made_merge q.now t.now n m.now) e.now result }
{
    match entry_before(cat, q, t, n, m.outer.entry) {
        Some(a) => match entry_before(cat, q, t, n, m.inner.entry) {
            Some(b) => own_merge(cat, q, e, m, a, b),
            None => None,
        },
        None => None,
    }
}

/// The numbers of what an entry at place `n` is. None exactly where its node makes no plan over the entries before it
/// that the entry is but for its numbers.
pub(crate) fn own_at(
    cat: &Catalog,
    q: &Prepared,
    t: &Certificate,
    n: usize,
    e: &Entry,
) -> Option<Own>
    requires query { IsOverTables cat.now q.now }
    requires within { n ≤ length (certificate t.now).entries }
    requires right { AreRight cat.now q.now (certificate t.now) n }
    ensures { FindsOwn cat.now q.now (made_at q.now t.now n e.now) e.now result }
{
    match &e.node {
        Node::Seq => seq_own(cat, q, e),
        Node::Index(i, backward) => index_own(cat, q, e, *i, *backward),
        Node::IndexOnly(i, backward) => index_only_own(cat, q, e, *i, *backward),
        Node::Bitmap(tree) => bitmap_own(cat, q, e, tree),
        Node::Nest(outer, inner) => nest_own(cat, q, t, n, e, (*outer, *inner)),
        Node::Merge(list, outer, inner) => {
            let m = Merging {
                list,
                outer: *outer,
                inner: *inner,
            };
            merge_own(cat, q, t, n, e, &m)
        }
    }
}
