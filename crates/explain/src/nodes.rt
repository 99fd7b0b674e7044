//! Whole plans.

ghost use Rattle.std.specs.Prelude.{◌≡◌, ◌<◌, ◌++◌, ℕ, All, IfOk, OnOk, length};
ghost use Rattle.catalog.specs.Contents.{IsIndex};
ghost use Rattle.plan_tree.specs.work.Costable.{IsCostable};
ghost use Rattle.plan_tree.specs.Least.{IsAdmissible};
ghost use Rattle.plan_tree.specs.work.Views.{path, plan};
ghost use Rattle.sql_query.specs.Queries.{width};
ghost use Rattle.sql_query.specs.WellBound.{IsWellBound};
ghost use Rattle.explain.specs.work.Lines.{HasLine, HasLines, IsShown};
ghost use Rattle.explain.specs.Texts as texts;
ghost use Rattle.explain.specs.work.Texts as texts_work;
ghost use Rattle.explain.specs.Texts.{backward_text, first_depth, node_line, node_numbers, scan_name, text_at, title, using_text};
ghost use Rattle.explain.specs.work.Texts.{Gets, node_keys};

use crate::bits::put_bits;
use crate::figures::numbers;
use crate::keys::put_keys;
use crate::lead::Lead;
use crate::relations::{put_relation, put_scanned};
use catalog::Catalog;
use pathkeys::Keys;
use pg_base::{IndexNo, Memory, RelNo, RelSet};
use pg_value::Bytes;
use plan_tree::{Path, Plan, cost, estimate, set_of};
use sql_query::Prepared;
use std::alloc::Global;

/// Appends what a plan costs, and its estimated rows.
fn put_numbers(
    alloc: Global,
    text: &mut Vec<u8>,
    cat: &Catalog,
    q: &Prepared,
    p: &Plan,
) -> Result<(), Memory>
    requires bound { IsWellBound cat.now q.now }
    requires costable { IsCostable cat.now q.now (plan p.now) }
    requires admissible { IsAdmissible cat.now q.now (plan p.now) }
    ensures { OnOk result (Gets text.old text.new (node_numbers cat.now q.now (plan p.now))) }
{
    let pair = cost(cat, q, p);
    let rows = estimate(cat, q, p);
    let numbers = numbers(alloc, q.window, pair, rows)?;
    text.extend_from_slice(numbers.as_bytes())
}

/// Appends the index and the relation of a scan by an index.
fn put_using(
    text: &mut Vec<u8>,
    cat: &Catalog,
    q: &Prepared,
    r: RelNo,
    i: IndexNo,
    p: RelSet,
) -> Result<(), Memory>
    requires bound { IsWellBound cat.now q.now }
    requires relation { r.0 < width q.now }
    requires index { IsIndex cat.now i }
    ensures { OnOk result (text.new.items ≡ text.old.items ++ using_text cat.now q.now r i p) }
{
    text.extend_from_slice(b" using ")?;
    text.extend_from_slice(cat.index_name(i))?;
    text.extend_from_slice(b" on ")?;
    put_scanned(text, cat, q, r, p)
}

/// Appends to a text the kind of a scan by an index, of that alone or not, and its direction. The error means out of memory.
pub fn put_scan_name(text: &mut Vec<u8>, only: bool, backward: bool) -> Result<(), Memory>
    ensures { OnOk result (Gets text.old text.new (scan_name only ++ backward_text backward)) }
{
    if only {
        text.extend_from_slice(b"Index Only Scan")?;
    } else {
        text.extend_from_slice(b"Index Scan")?;
    }
    if backward {
        text.extend_from_slice(b" Backward")?;
    }
    Ok(())
}

/// Appends the keys of a node, by their first members inside the relations of its plan.
fn put_node_keys(
    text: &mut Vec<u8>,
    cat: &Catalog,
    q: &Prepared,
    p: &Plan,
    keys: &Keys,
) -> Result<(), Memory>
    requires bound { IsWellBound cat.now q.now }
    requires costable { IsCostable cat.now q.now (plan p.now) }
    requires classes { All (λ n. n < length q.now.classes.classes) keys.now }
    ensures { OnOk result (Gets text.old text.new (node_keys cat.now q.now (plan p.now) keys.now)) }
{
    put_keys(text, cat, q, set_of(p), keys.items())
}

/// Appends what a node is.
fn put_title(text: &mut Vec<u8>, cat: &Catalog, q: &Prepared, p: &Plan) -> Result<(), Memory>
    requires bound { IsWellBound cat.now q.now }
    requires line { HasLine cat.now q.now (plan p.now) }
    ensures { OnOk result (text.new.items ≡ text.old.items ++ title cat.now q.now (plan p.now)) }
{
    match p {
        Plan::Seq { rel } => {
            text.extend_from_slice(b"Seq Scan on ")?;
            put_relation(text, cat, q, *rel)
        }
        Plan::Index {
            rel,
            index,
            backward,
            param,
        } => {
            put_scan_name(text, false, *backward)?;
            put_using(text, cat, q, *rel, *index, *param)
        }
        Plan::IndexOnly {
            rel,
            index,
            backward,
            param,
        } => {
            put_scan_name(text, true, *backward)?;
            put_using(text, cat, q, *rel, *index, *param)
        }
        Plan::Bitmap { rel, param, .. } => {
            text.extend_from_slice(b"Bitmap Heap Scan on ")?;
            put_scanned(text, cat, q, *rel, *param)
        }
        Plan::Sort { keys, .. } => {
            text.extend_from_slice(b"Sort by ")?;
            put_node_keys(text, cat, q, p, keys)
        }
        Plan::Nest { .. } => text.extend_from_slice(b"Nested Loop"),
        Plan::Merge { keys, .. } => {
            text.extend_from_slice(b"Merge Join by ")?;
            put_node_keys(text, cat, q, p, keys)
        }
    }
}

/// Appends the line of a node.
fn put_line(
    alloc: Global,
    text: &mut Vec<u8>,
    cat: &Catalog,
    q: &Prepared,
    lead: &Lead,
    p: &Plan,
) -> Result<(), Memory>
    requires bound { IsWellBound cat.now q.now }
    requires line { HasLine cat.now q.now (plan p.now) }
    ensures { OnOk result (Gets text.old text.new (node_line cat.now q.now lead.now (plan p.now))) }
{
    lead.put(text)?;
    put_title(text, cat, q, p)?;
    put_numbers(alloc, text, cat, q, p)
}

/// Appends the lines of a plan.
fn put_plan(
    alloc: Global,
    text: &mut Vec<u8>,
    cat: &Catalog,
    q: &Prepared,
    lead: &Lead,
    p: &Plan,
) -> Result<(), Memory>
    requires bound { IsWellBound cat.now q.now }
    requires lines { HasLines cat.now q.now (plan p.now) }
    ensures { OnOk result (Gets text.old text.new (text_at cat.now q.now lead.now (plan p.now))) }
{
    put_line(alloc, text, cat, q, lead, p)?;
    let below = lead.deeper(alloc)?;
    match p {
        Plan::Seq { .. } => Ok(()),
        Plan::Index { .. } => Ok(()),
        Plan::IndexOnly { .. } => Ok(()),
        Plan::Bitmap { bits, .. } => put_bits(alloc, text, cat, q, &below, bits),
        Plan::Sort { input, .. } => put_plan(alloc, text, cat, q, &below, input),
        Plan::Nest { outer, inner } => {
            put_plan(alloc, text, cat, q, &below, outer)?;
            put_plan(alloc, text, cat, q, &below, inner)
        }
        Plan::Merge { outer, inner, .. } => {
            put_plan(alloc, text, cat, q, &below, outer)?;
            put_plan(alloc, text, cat, q, &below, inner)
        }
    }
}

/// What stands before the first line of a plan.
fn first_lead(alloc: Global, q: &Prepared) -> Result<Lead, Memory>
    ensures { IfOk result (λ first. first ≡ first_depth q.now.window) }
{
    let top = Lead::top(alloc);
    match q.window {
        None => Ok(top),
        Some(_) => top.deeper(alloc),
    }
}

/// The lead of a line that is so deep.
fn lead_at(alloc: Global, depth: u8) -> Result<Lead, Memory>
    ensures { IfOk result (λ lead. lead ≡ depth) }
{
    if depth == 0 {
        return Ok(Lead::top(alloc));
    }
    let above = lead_at(alloc, depth - 1)?;
    above.deeper(alloc)
}

/// The text of a plan whose first line stands so deep below other lines: else as `plan_text` gives it. The plan is one of the
/// space for its set and parameterisation, or a finished one, and costs below 10^18. The error means out of memory.
pub fn plan_text_at(
    alloc: Global,
    cat: &Catalog,
    q: &Prepared,
    p: &Path,
    depth: u8,
) -> Result<Bytes, Memory>
    requires bound { IsWellBound cat.now q.now }
    requires plan { IsShown cat.now q.now (path p.now).tree }
    requires admissible { IsAdmissible cat.now q.now (path p.now).tree }
    ensures text { IfOk result (λ text. text ≡ text_at cat.now q.now depth (path p.now).tree) }
{
    cat.lawful();
    let mut text = Vec::new(alloc);
    let first = lead_at(alloc, depth)?;
    put_plan(alloc, &mut text, cat, q, &first, &p.plan)?;
    Ok(Bytes::from_vec(text))
}

/// The text of a plan: a line for each of its nodes, with what the node's plan costs in all, in 1/400 of a sequential page, and
/// its estimated rows; under it those of its children, deeper, the outer one first. Where the query has a window, each line
/// also has what its plan costs before its first row, and the first one is as deep as below the line of LIMIT and OFFSET, which
/// `limit_text` gives. The plan is one of the space for its set and parameterisation, or a finished one, and costs below 10^18.
/// The error means out of memory.
pub fn plan_text(alloc: Global, cat: &Catalog, q: &Prepared, p: &Path) -> Result<Bytes, Memory>
    requires bound { IsWellBound cat.now q.now }
    requires plan { IsShown cat.now q.now (path p.now).tree }
    requires admissible { IsAdmissible cat.now q.now (path p.now).tree }
    ensures text { IfOk result (λ text. text ≡ texts.plan_text cat.now q.now (path p.now).tree) }
{
    cat.lawful();
    let mut text = Vec::new(alloc);
    let first = first_lead(alloc, q)?;
    put_plan(alloc, &mut text, cat, q, &first, &p.plan)?;
    Ok(Bytes::from_vec(text))
}
