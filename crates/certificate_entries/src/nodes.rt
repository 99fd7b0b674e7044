//! What entries are.

ghost use Rattle.std.specs.Prelude.{◌≤◌, IfOk, IfSome, length};
ghost use Rattle.pg_base.specs.Sets.{has};
ghost use Rattle.sql_query.specs.WellBound.{IsWellBound};
ghost use Rattle.certificate_text.specs.plan_check_Certificates as certs;
ghost use Rattle.certificate_text.specs.HasText.{HasKeysText, IsEntryNumber};
ghost use Rattle.certificate_entries.specs.work.Nodes.{HasTextAnywhere, HasTextInCatalog, HasTextInQuery, HasTextInSet, ReadsBehind, ReadsBitmap, ReadsMerge, ReadsNest, ReadsNode, ReadsScanNode, ReadsSides};

use crate::bits::read_bits;
use crate::figures::read_two;
use crate::keys::read_key_list;
use crate::kinds::{Kind, read_kind};
use crate::plan_check::{Node, Side};
use crate::{read_scan, read_side};
use catalog::Catalog;
use certificate_text::LineCursor;
use pg_base::{Memory, RelSet};
use sql_query::Prepared;
use std::alloc::Global;

/// The sides of a merge, each behind a space.
fn read_sides(at: &mut LineCursor) -> Option<(Side, Side)>
    ensures has { IfSome result (λ p. IsEntryNumber p.0.entry × IsEntryNumber p.1.entry) }
    ensures only { ReadsSides at.old at.new result }
{
    if !at.eat(b" ") {
        return None;
    }
    let outer = read_side(at)?;
    if !at.eat(b" ") {
        return None;
    }
    let inner = read_side(at)?;
    Some((outer, inner))
}

/// A scan by an index, behind its words.
fn index_node(at: &mut LineCursor, cat: &Catalog) -> Option<Node>
    ensures has { IfSome result (λ n. HasTextInCatalog cat.now n) }
    ensures only { ReadsScanNode cat.now certs.by_index at.old at.new result }
{
    let (index, backward) = read_scan(at, cat)?;
    Some(Node::Index(index, backward))
}

/// An index-only scan, behind its words.
fn index_only_node(at: &mut LineCursor, cat: &Catalog) -> Option<Node>
    ensures has { IfSome result (λ n. HasTextInCatalog cat.now n) }
    ensures only { ReadsScanNode cat.now certs.by_index_only at.old at.new result }
{
    let (index, backward) = read_scan(at, cat)?;
    Some(Node::IndexOnly(index, backward))
}

/// A scan by a bitmap tree, behind its words.
fn bitmap_node(
    alloc: Global,
    at: &mut LineCursor,
    cat: &Catalog,
    q: &Prepared,
) -> Result<Option<Node>, Memory>
    requires bound { IsWellBound cat.now q.now }
    ensures has { IfOk result (λ o. IfSome o (λ n. HasTextInQuery cat.now q.now n)) }
    ensures only { IfOk result (λ o. ReadsBitmap cat.now q.now at.old at.new o) }
{
    match read_bits(alloc, at, cat, q)? {
        Some(tree) => Ok(Some(Node::Bitmap(tree))),
        None => Ok(None),
    }
}

/// A nested loop, behind its words.
fn nest_node(at: &mut LineCursor) -> Option<Node>
    ensures has { IfSome result (λ n. HasTextAnywhere n) }
    ensures only { ReadsNest at.old at.new result }
{
    let (outer, inner) = read_two(at)?;
    Some(Node::Nest(outer, inner))
}

/// A merge, behind its words.
fn merge_node(
    alloc: Global,
    at: &mut LineCursor,
    cat: &Catalog,
    q: &Prepared,
    set: RelSet,
) -> Result<Option<Node>, Memory>
    requires bound { IsWellBound cat.now q.now }
    ensures has { IfOk result (λ o. IfSome o (λ n. HasTextInSet cat.now q.now (has set.0) n)) }
    ensures only { IfOk result (λ o. ReadsMerge cat.now q.now (has set.0) at.old at.new o) }
{
    let keys = match read_key_list(alloc, at, cat, q, set)? {
        Some(keys) => keys,
        None => return Ok(None),
    };
    match read_sides(at) {
        Some((outer, inner)) => Ok(Some(Node::Merge(keys, outer, inner))),
        None => Ok(None),
    }
}

/// What stands behind the words of a kind.
fn read_behind(
    alloc: Global,
    at: &mut LineCursor,
    cat: &Catalog,
    q: &Prepared,
    set: RelSet,
    kind: Kind,
) -> Result<Option<Node>, Memory>
    requires bound { IsWellBound cat.now q.now }
    ensures has { IfOk result (λ o. IfSome o (λ n. HasTextInSet cat.now q.now (has set.0) n)) }
    ensures only { IfOk result (λ o. ReadsBehind cat.now q.now set kind at.old at.new o) }
{
    match kind {
        Kind::Seq => Ok(Some(Node::Seq)),
        Kind::Index => Ok(index_node(at, cat)),
        Kind::IndexOnly => Ok(index_only_node(at, cat)),
        Kind::Bitmap => bitmap_node(alloc, at, cat, q),
        Kind::Nest => Ok(nest_node(at)),
        Kind::Merge => merge_node(alloc, at, cat, q, set),
    }
}

/// What an entry of a set is. None where that of none comes next. The error means out of memory.
pub fn read_node(
    alloc: Global,
    at: &mut LineCursor,
    cat: &Catalog,
    q: &Prepared,
    set: RelSet,
) -> Result<Option<Node>, Memory>
    requires bound { IsWellBound cat.now q.now }
    ensures has { IfOk result (λ o. IfSome o (λ n. HasTextInSet cat.now q.now (has set.0) n)) }
    ensures only { IfOk result (λ o. ReadsNode cat.now q.now set at.old at.new o) }
{
    match read_kind(at) {
        Some(kind) => read_behind(alloc, at, cat, q, set, kind),
        None => Ok(None),
    }
}
