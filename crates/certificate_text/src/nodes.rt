//! What entries are.

ghost use Rattle.std.specs.Prelude.{◌≡◌, ◌++◌, [], IfOk, OnOk, codes, cond};
ghost use Rattle.std.specs.Fmt.{decimal};
ghost use Rattle.std.specs.String.{string_bytes};
ghost use Rattle.pg_base.specs.Sets.{has};
ghost use Rattle.catalog.specs.Contents.{IsIndex};
ghost use Rattle.explain.specs.work.Texts.{Gets};
ghost use Rattle.sql_query.specs.WellBound.{IsWellBound};
ghost use Rattle.plan_check.specs.Views as views;
ghost use Rattle.plan_check.specs.work.Views as views_work;
ghost use Rattle.plan_check.specs.Views.{side};
ghost use Rattle.certificate_text.specs.HasText.{HasNodeText};
ghost use Rattle.certificate_text.specs.Texts.{by_index_text, nest_text, side_text, sides_text, two_numbers};
ghost use Rattle.certificate_text.specs.work.Texts.{node_words};

use crate::bits::put_bits;
use catalog::Catalog;
use explain::{put_keys, put_scan_name};
use pathkeys::Keys;
use pg_base::{IndexNo, Memory, RelSet};
use plan_check::{Node, Side};
use sql_query::Prepared;
use std::alloc::Global;

/// Appends a number.
pub(crate) fn put_number(alloc: Global, text: &mut Vec<u8>, n: u64) -> Result<(), Memory>
    ensures { OnOk result (text.new.items ≡ text.old.items ++ decimal n) }
{
    let digits = format!(in alloc; "{n}")?;
    text.extend_from_slice(digits.as_bytes())
}

/// Appends the word before a number that is sorted.
fn put_sort(text: &mut Vec<u8>, sort: bool) -> Result<(), Memory>
    ensures { OnOk result (text.new.items ≡ text.old.items ++ cond sort (codes "sort ") []) }
{
    if sort {
        text.extend_from_slice(b"sort ")?;
    }
    Ok(())
}

/// Appends an entry by its number, as it stands or sorted.
pub(crate) fn put_side(alloc: Global, text: &mut Vec<u8>, s: Side) -> Result<(), Memory>
    ensures { OnOk result (text.new.items ≡ text.old.items ++ side_text (side s)) }
{
    put_sort(text, s.sort)?;
    put_number(alloc, text, u64::from(s.entry))
}

/// Appends a scan by an index.
fn put_index(
    text: &mut Vec<u8>,
    cat: &Catalog,
    only: bool,
    i: IndexNo,
    backward: bool,
) -> Result<(), Memory>
    requires index { IsIndex cat.now i }
    ensures { OnOk result (Gets text.old text.new (by_index_text cat.now only i backward)) }
{
    put_scan_name(text, only, backward)?;
    text.extend_from_slice(b" using ")?;
    text.extend_from_slice(cat.index_name(i))?;
    Ok(())
}

/// Appends two numbers.
fn put_two(alloc: Global, text: &mut Vec<u8>, first: u32, second: u32) -> Result<(), Memory>
    ensures { OnOk result (text.new.items ≡ text.old.items ++ two_numbers first second) }
{
    put_number(alloc, text, u64::from(first))?;
    text.extend_from_slice(b" ")?;
    put_number(alloc, text, u64::from(second))
}

/// Appends a nested loop.
fn put_nest(alloc: Global, text: &mut Vec<u8>, outer: u32, inner: u32) -> Result<(), Memory>
    ensures { OnOk result (text.new.items ≡ text.old.items ++ nest_text outer inner) }
{
    text.extend_from_slice(b"Nested Loop ")?;
    put_two(alloc, text, outer, inner)
}

/// Appends the sides of a merge.
fn put_sides(alloc: Global, text: &mut Vec<u8>, outer: Side, inner: Side) -> Result<(), Memory>
    ensures { OnOk result (Gets text.old text.new (sides_text (side outer) (side inner))) }
{
    text.extend_from_slice(b" ")?;
    put_side(alloc, text, outer)?;
    text.extend_from_slice(b" ")?;
    put_side(alloc, text, inner)
}

/// Appends what an entry of a set is.
pub(crate) fn put_node(
    alloc: Global,
    text: &mut Vec<u8>,
    cat: &Catalog,
    q: &Prepared,
    set: RelSet,
    node: &Node,
) -> Result<(), Memory>
    requires bound { IsWellBound cat.now q.now }
    requires node { HasNodeText cat.now q.now (has set.0) (views_work.node node.now) }
    ensures { OnOk result (Gets text.old text.new (node_words cat.now q.now set node.now)) }
{
    match node {
        Node::Seq => text.extend_from_slice(b"Seq Scan"),
        Node::Index(i, backward) => put_index(text, cat, false, *i, *backward),
        Node::IndexOnly(i, backward) => put_index(text, cat, true, *i, *backward),
        Node::Bitmap(tree) => {
            text.extend_from_slice(b"Bitmap Heap Scan ")?;
            put_bits(alloc, text, cat, q, tree)
        }
        Node::Nest(outer, inner) => put_nest(alloc, text, *outer, *inner),
        Node::Merge(keys, outer, inner) => {
            text.extend_from_slice(b"Merge Join by ")?;
            put_keys(text, cat, q, set, keys.items())?;
            put_sides(alloc, text, *outer, *inner)
        }
    }
}
