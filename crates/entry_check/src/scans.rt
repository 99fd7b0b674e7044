//! Scans that entries say they are.

ghost use Rattle.std.specs.Prelude.{◌≡◌, ◌<◌, ◌≤◌, ◌↔◌, ℕ, IfNone, IfSome, IsTrue, cond, false, length, slice_get, true};
ghost use Rattle.std.specs.Option.{option_map};
ghost use Rattle.pg_base.specs.Sets.{has};
ghost use Rattle.pg_base.specs.declared.limits.TheConstants.{MOST_COLUMNS};
ghost use Rattle.catalog.specs.Contents.{IsIndex};
ghost use Rattle.cost_rules.specs.work.Costs.{IsEstimate};
ghost use Rattle.eq_classes.specs.Clauses.{one};
ghost use Rattle.eq_classes.specs.declared.classes.ClassNo.{ClassNo as Numbered};
ghost use Rattle.pathkeys.specs.work.Finding.{class_numbers};
ghost use Rattle.plan_tree.specs.Costs as costs;
ghost use Rattle.plan_tree.specs.work.Costs as costs_work;
ghost use Rattle.plan_tree.specs.Keys as keys;
ghost use Rattle.plan_tree.specs.Plans as plans;
ghost use Rattle.plan_tree.specs.work.Reads.{IsOverTables};
ghost use Rattle.plan_tree.specs.Space.{IsBuilt, IsSameSet};
ghost use Rattle.plan_tree.specs.work.Views.{bits};
ghost use Rattle.sql_query.specs.Queries.{width};
ghost use Rattle.plan_check.specs.Certificates.{relation_in};
ghost use Rattle.entry_check.specs.work.Owning.{keys_by_index, tree_of};
ghost use Rattle.entry_check.specs.work.Making.{FindsOwnOf};

use crate::numbers::{Own, numbers_of};
use crate::set_rows;
use catalog::Catalog;
use eq_classes::ClassNo;
use path_cost::rows_param;
use pathkeys::index_key;
use pg_base::{IndexNo, MOST_COLUMNS, RelNo, RelSet};
use plan_check::Entry;
use plan_space::{is_bitmap_scan, is_index_only_scan, is_index_scan};
use plan_tree::{
    BitTree, bitmap_scan_cost, classes_of, index_scan_cost, kept_of, range_of, seq_scan_cost,
};
use sql_query::Prepared;

/// A scan of a relation by an index.
#[derive(Clone, Copy)]
pub struct ByIndex {
    /// The relation.
    pub rel: RelNo,
    /// The index.
    pub index: IndexNo,
    /// From the last entry to the first.
    pub backward: bool,
    /// The relations whose rows it is given.
    pub param: RelSet,
    /// With the columns taken from the index's entries.
    pub only: bool,
}

/// The relation of a scan of a set: its first one. None exactly where the query has none of the set.
pub(crate) fn relation_of(q: &Prepared, set: RelSet) -> Option<RelNo>
    ensures relation { result ≡ relation_in (width q.now) set }
    ensures within { IfSome result (λ r. r.0 < width q.now) }
{
    match set.first() {
        Some(r) => {
            if (r.0 as usize) < range_of(q).items().len() {
                return Some(r);
            }
            None
        }
        None => None,
    }
}

/// Whether a set is that of one relation alone.
fn is_alone(set: RelSet, r: RelNo) -> bool
    requires few { r.0 < 16 }
    ensures { IsTrue result ↔ IsSameSet (one r.0) (has set.0) }
{
    set.0 == RelSet::one(r).0
}

/// The rows of a scan of a relation where the rows of `p` are given.
pub fn rows_given(cat: &Catalog, q: &Prepared, r: RelNo, p: RelSet) -> u64
    requires query { IsOverTables cat.now q.now }
    requires relation { r.0 < width q.now }
    ensures rows { result ≡ costs.rows_given cat.now q.now (one r.0) (plans.scan_given r p) }
{
    if p.0 == 0 {
        set_rows(cat, q, RelSet::one(r))
    } else {
        rows_param(cat, range_of(q), classes_of(q), r, p)
    }
}

/// The class at place `n`, from 0, of the keys of a scan by an index. None exactly where they are not so many.
pub fn key_at(cat: &Catalog, q: &Prepared, s: ByIndex, n: usize) -> Option<ClassNo>
    requires index { IsIndex cat.now s.index }
    requires few { n ≤ MOST_COLUMNS }
    ensures class { option_map (λ c. c.0) result ≡ slice_get (keys_by_index cat.now q.now s) n }
{
    if s.param.0 == 0 {
        index_key(
            cat,
            range_of(q),
            classes_of(q),
            s.index,
            s.rel,
            s.backward,
            n as u8,
        )
    } else {
        None
    }
}

/// Whether a class was found, and is this one.
fn is_key(found: Option<ClassNo>, c: ClassNo) -> bool
    ensures { IsTrue result ↔ (option_map (λ (k : Numbered). k.0) found ≡ Some c.0) }
{
    match found {
        Some(k) => k.0 == c.0,
        None => false,
    }
}

/// Whether the keys of a scan by an index are a list, place by place.
fn keys_are(cat: &Catalog, q: &Prepared, s: ByIndex, list: &[ClassNo]) -> bool
    requires built { IsBuilt cat.now q.now (tree_of s) }
    ensures { IsTrue result ↔ (class_numbers list.now ≡ keys.keys_of cat.now q.now (tree_of s)) }
{
    cat.lawful();
    if list.len() > MOST_COLUMNS {
        return false;
    }
    for n in 0..list.len() {
        if !is_key(key_at(cat, q, s, n), list[n]) {
            return false;
        }
    }
    match key_at(cat, q, s, list.len()) {
        Some(_) => false,
        None => true,
    }
}

/// Whether the plan space has a scan by an index. The numbers may be any.
pub fn is_built(cat: &Catalog, q: &Prepared, s: ByIndex) -> bool
    requires query { IsOverTables cat.now q.now }
    ensures { IsTrue result ↔ IsBuilt cat.now q.now (tree_of s) }
{
    if s.only {
        is_index_only_scan(cat, q, s.rel, s.index, s.backward, s.param)
    } else {
        is_index_scan(cat, q, s.rel, s.index, s.backward, s.param)
    }
}

/// The numbers of a sequential scan of a relation, where an entry is one but for its numbers. None exactly where it is
/// not.
pub(crate) fn own_seq(cat: &Catalog, q: &Prepared, e: &Entry, r: RelNo) -> Option<Own>
    requires query { IsOverTables cat.now q.now }
    requires relation { r.0 < width q.now }
    ensures { FindsOwnOf cat.now q.now e.now (plans.seq r) result }
{
    cat.lawful();
    if !is_alone(e.set, r) {
        return None;
    }
    if e.param.0 != 0 {
        return None;
    }
    if e.keys.items().len() != 0 {
        return None;
    }
    let cost = kept_of(q, seq_scan_cost(cat, q, r));
    numbers_of(q, cost, set_rows(cat, q, RelSet::one(r)))
}

/// The numbers of a scan by an index, where an entry is one but for its numbers. None exactly where it is not. The
/// condition is that the entry has the scan's parameterisation.
pub(crate) fn own_index(cat: &Catalog, q: &Prepared, e: &Entry, s: ByIndex) -> Option<Own>
    requires query { IsOverTables cat.now q.now }
    requires relation { s.rel.0 < width q.now }
    requires param { s.param ≡ e.now.param }
    ensures { FindsOwnOf cat.now q.now e.now (tree_of s) result }
{
    cat.lawful();
    if !is_alone(e.set, s.rel) {
        return None;
    }
    if !is_built(cat, q, s) {
        return None;
    }
    if !keys_are(cat, q, s, e.keys.items()) {
        return None;
    }
    let cost = index_scan_cost(cat, q, s.rel, s.index, s.param, s.only);
    let rows = rows_given(cat, q, s.rel, s.param);
    numbers_of(q, kept_of(q, cost), rows)
}

/// The numbers of a scan of a relation by a bitmap tree, where an entry is one but for its numbers. None exactly where it
/// is not.
pub(crate) fn own_bitmap(
    cat: &Catalog,
    q: &Prepared,
    e: &Entry,
    r: RelNo,
    tree: &BitTree,
) -> Option<Own>
    requires query { IsOverTables cat.now q.now }
    requires relation { r.0 < width q.now }
    ensures { FindsOwnOf cat.now q.now e.now (plans.bitmap r e.now.param (bits tree.now)) result }
{
    cat.lawful();
    if !is_alone(e.set, r) {
        return None;
    }
    if e.keys.items().len() != 0 {
        return None;
    }
    if !is_bitmap_scan(cat, q, r, e.param, tree) {
        return None;
    }
    let cost = bitmap_scan_cost(cat, q, r, e.param, tree);
    numbers_of(q, kept_of(q, cost), rows_given(cat, q, r, e.param))
}
