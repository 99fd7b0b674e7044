//! The entries of candidates without their numbers.

ghost use Rattle.std.specs.Prelude.{◌≡◌, ◌<◌, ◌≤◌, ◌-◌, ℕ, IfOk, Some, cond, length, slice_get};
ghost use Rattle.catalog.specs.Contents.{Contents, IsIndex};
ghost use Rattle.pathkeys.specs.work.Finding.{class_numbers};
ghost use Rattle.pathkeys.specs.Keys.{AreDifferent};
ghost use Rattle.plan_tree.specs.Keys as lists;
ghost use Rattle.plan_tree.specs.work.Reads.{IsOverTables};
ghost use Rattle.sql_query.specs.Queries.{Query, width};
ghost use Rattle.plan_check.specs.Certificates as forms;
ghost use Rattle.plan_check.specs.work.Views.{certificate, entry, node};
ghost use Rattle.check_reply.specs.work.Telling.{IsShapeOf};
ghost use Rattle.plan_check.specs.Plains.{keys_in};
ghost use Rattle.plan_check.specs.Reasons.{AllRight};
ghost use Rattle.plan_check.specs.declared.verdict.Plain.TheVariants as plain;

use crate::shape::Shape;
use crate::trees::{combine, trees_by};
use catalog::Catalog;
use certificate_check::entry_check::ByIndex;
use eq_classes::ClassNo;
use pathkeys::{Keys, index_keys};
use pg_base::{IndexNo, Memory, RelNo, RelSet};
use plan_check::{Certificate, Entry, Node, Side};
use plan_tree::{classes_of, first_elements, range_of};
use sql_query::Prepared;
use std::alloc::Global;

/// A sequential scan. The error means out of memory.
pub(crate) fn seq_shape(alloc: Global, rel: RelNo) -> Result<Shape, Memory>
    requires relation { rel.0 < 16 }
    ensures { IfOk result (λ s.
        (c : Contents) (q : Query) (t : forms.Certificate) → IsShapeOf c q t (plain.Seq rel) s) }
{
    Ok(Shape {
        set: RelSet::one(rel),
        param: RelSet(0),
        node: Node::Seq,
        keys: Keys::from_slice(alloc, &[])?,
    })
}

/// The keys of a scan by an index. The error means out of memory.
fn scan_keys(alloc: Global, cat: &Catalog, q: &Prepared, s: ByIndex) -> Result<Keys, Memory>
    requires index { IsIndex cat.now s.index }
    ensures { IfOk result (λ ks.
        ks ≡ lists.scan_keys cat.now q.now s.rel s.index s.backward s.param) }
{
    if s.param.0 == 0 {
        let (range, classes) = (range_of(q), classes_of(q));
        return index_keys(alloc, cat, range, classes, s.index, s.rel, s.backward);
    }
    Keys::from_slice(alloc, &[])
}

/// What a scan by an index is.
fn index_node(s: ByIndex) -> Node
    ensures { node result ≡
        cond s.only (forms.by_index_only s.index s.backward) (forms.by_index s.index s.backward) }
{
    if s.only {
        Node::IndexOnly(s.index, s.backward)
    } else {
        Node::Index(s.index, s.backward)
    }
}

/// A scan by an index. The error means out of memory.
pub(crate) fn index_shape(
    alloc: Global,
    cat: &Catalog,
    q: &Prepared,
    s: ByIndex,
) -> Result<Shape, Memory>
    requires relation { s.rel.0 < 16 }
    requires index { IsIndex cat.now s.index }
    ensures { IfOk result (λ x. (t : forms.Certificate) →
        IsShapeOf cat.now q.now t (plain.Index s.rel s.index s.backward s.only s.param) x) }
{
    let keys = scan_keys(alloc, cat, q, s)?;
    Ok(Shape {
        set: RelSet::one(s.rel),
        param: s.param,
        node: index_node(s),
        keys,
    })
}

/// A scan by a bitmap of the elements that a number marks, with the indexes of their arms. The error means out of memory.
pub(crate) fn bitmap_shape(
    alloc: Global,
    cat: &Catalog,
    q: &Prepared,
    at: (RelNo, RelSet),
    elements: u8,
    arms: &[IndexNo],
) -> Result<Shape, Memory>
    requires query { IsOverTables cat.now q.now }
    requires relation { at.0.0 < width q.now }
    ensures { IfOk result (λ x. (t : forms.Certificate) →
        IsShapeOf cat.now q.now t (plain.Bitmap at.0 at.1 elements arms.now) x) }
{
    let found = first_elements(cat, q, at.0, at.1);
    let trees = trees_by(alloc, q, elements, found.items(), arms)?;
    let keys = Keys::from_slice(alloc, &[])?;
    Ok(Shape {
        set: RelSet::one(at.0),
        param: at.1,
        node: Node::Bitmap(combine(trees)),
        keys,
    })
}

/// The entry of a number.
fn entry_at(t: &Certificate, n: u32) -> &Entry
    requires some { 1 ≤ n }
    requires within { n ≤ length (certificate t.now).entries }
    ensures { slice_get (certificate t.now).entries (n - 1) ≡ Some (entry result.now) }
{
    &t.entries.items()[n as usize - 1]
}

/// A nested loop of entries. The error means out of memory.
pub(crate) fn nest_shape(
    alloc: Global,
    t: &Certificate,
    outer: u32,
    inner: u32,
) -> Result<Shape, Memory>
    requires some { (1 ≤ outer) × (1 ≤ inner) }
    requires within { (outer ≤ length (certificate t.now).entries) ×
        (inner ≤ length (certificate t.now).entries) }
    ensures { IfOk result (λ x. (c : Contents) (q : Query) →
        AllRight c q (certificate t.now) →
        IsShapeOf c q (certificate t.now) (plain.Nest outer inner) x) }
{
    let a = entry_at(t, outer);
    let b = entry_at(t, inner);
    let keys = a.keys.copy(alloc)?;
    Ok(Shape {
        set: a.set.union(b.set),
        param: RelSet(0),
        node: Node::Nest(outer, inner),
        keys,
    })
}

/// The classes of a list of places. The error means out of memory.
fn classes_in(alloc: Global, places: &[Option<ClassNo>]) -> Result<Vec<ClassNo>, Memory>
    ensures { IfOk result (λ cs. class_numbers cs.items ≡ keys_in places.now) }
{
    let mut classes = Vec::new(alloc);
    for place in places {
        if let Some(c) = place {
            classes.push(*c)?;
        }
    }
    Ok(classes)
}

/// The keys of a side of a merge by a list. The error means out of memory.
fn side_keys(alloc: Global, a: &Entry, list: &Keys, sort: bool) -> Result<Keys, Memory>
    ensures { IfOk result (λ keys. keys ≡ cond sort list.now a.now.keys) }
{
    if sort {
        list.copy(alloc)
    } else {
        a.keys.copy(alloc)
    }
}

/// A merge of entries, as they stand or sorted. The error means out of memory.
pub(crate) fn merge_shape(
    alloc: Global,
    t: &Certificate,
    places: &[Option<ClassNo>],
    outer: Side,
    inner: Side,
) -> Result<Shape, Memory>
    requires different { AreDifferent (keys_in places.now) }
    requires some { (1 ≤ outer.entry) × (1 ≤ inner.entry) }
    requires within { (outer.entry ≤ length (certificate t.now).entries) ×
        (inner.entry ≤ length (certificate t.now).entries) }
    ensures { IfOk result (λ x. (c : Contents) (q : Query) →
        AllRight c q (certificate t.now) →
        IsShapeOf c q (certificate t.now) (plain.Merge places.now outer inner) x) }
{
    let a = entry_at(t, outer.entry);
    let b = entry_at(t, inner.entry);
    let classes = classes_in(alloc, places)?;
    let list = Keys::from_slice(alloc, &classes)?;
    let keys = side_keys(alloc, a, &list, outer.sort)?;
    Ok(Shape {
        set: a.set.union(b.set),
        param: RelSet(0),
        node: Node::Merge(list, outer, inner),
        keys,
    })
}
