//! Entries from the parts of their lines.

ghost use Rattle.std.specs.Prelude.{◌≡◌, IfNone, IfOk, IfSome, IsTrue, ◌↔◌};
ghost use Rattle.sql_query.specs.WellBound.{IsWellBound};
ghost use Rattle.plan_check.specs.Views as views;
ghost use Rattle.plan_check.specs.work.Views as views_work;
ghost use Rattle.plan_check.specs.work.Views.{entry};
ghost use Rattle.certificate_entries.specs.certificate_text_HasText.{HasEntryLine};
ghost use Rattle.certificate_reader.specs.work.Parts.{AreSets, FindsEntry, ReadsHead, ReadsSome, entry_by};
ghost use Rattle.certificate_entries.specs.certificate_text_Texts.{entry_line};

use crate::measures::{Measures, read_measures};
use catalog::Catalog;
use certificate_entries::certificate_text::entry_line;
use certificate_entries::{eat_number, read_node, read_sets};
use certificate_text::LineCursor;
use pg_base::{Memory, RelSet};
use plan_check::{Entry, Node};
use sql_query::Prepared;
use std::alloc::Global;

/// A set of one relation or more, a parameterisation and the space behind them. None where no such sets come next.
fn read_some(at: &mut LineCursor, cat: &Catalog, q: &Prepared) -> Option<(RelSet, RelSet)>
    requires bound { IsWellBound cat.now q.now }
    ensures has { IfSome result (λ p. AreSets q.now p.0 p.1) }
    ensures only { ReadsSome q.now at.old at.new result }
{
    let (set, param) = read_sets(at, cat, q)?;
    set.first()?;
    Some((set, param))
}

/// The number of an entry, its set and its parameterisation, each with the space behind it. None where this number does not
/// come next, or no sets behind it. The error means out of memory.
fn read_head(
    alloc: Global,
    at: &mut LineCursor,
    cat: &Catalog,
    q: &Prepared,
    n: u64,
) -> Result<Option<(RelSet, RelSet)>, Memory>
    requires bound { IsWellBound cat.now q.now }
    ensures has { IfOk result (λ o. IfSome o (λ p. AreSets q.now p.0 p.1)) }
    ensures only { IfOk result (λ o. ReadsHead q.now n at.old at.new o) }
{
    if !eat_number(alloc, at, n)? {
        return Ok(None);
    }
    if at.eat(b" ") {
        Ok(read_some(at, cat, q))
    } else {
        Ok(None)
    }
}

/// The entry of these parts.
fn entry_of(set: RelSet, param: RelSet, node: Node, measures: Measures) -> Entry
    ensures { entry result ≡ entry_by set param (views_work.node node) measures }
{
    Entry {
        set,
        param,
        node,
        startup: measures.startup,
        cost: measures.cost,
        rows: measures.rows,
        keys: measures.keys,
    }
}

/// The entry of a number, from its line without LF. None where no entry has this line; what is read of another line may be any
/// entry that has one. The error means out of memory.
pub(crate) fn read_entry(
    alloc: Global,
    at: &mut LineCursor,
    cat: &Catalog,
    q: &Prepared,
    n: u64,
) -> Result<Option<Entry>, Memory>
    requires bound { IsWellBound cat.now q.now }
    ensures has { IfOk result (λ o. IfSome o (λ e. HasEntryLine cat.now q.now (entry e))) }
    ensures only { IfOk result (λ o. FindsEntry cat.now q.now n at.old o) }
{
    let (set, param) = match read_head(alloc, at, cat, q, n)? {
        Some(sets) => sets,
        None => return Ok(None),
    };
    let node = match read_node(alloc, at, cat, q, set)? {
        Some(node) => node,
        None => return Ok(None),
    };
    match read_measures(alloc, at, cat, q, set)? {
        Some(measures) => Ok(Some(entry_of(set, param, node, measures))),
        None => Ok(None),
    }
}

/// Whether this is the line of the entry of a number. The condition is that the entry has a line. The error means out of
/// memory.
pub(crate) fn is_entry_line(
    alloc: Global,
    cat: &Catalog,
    q: &Prepared,
    n: u64,
    line: &[u8],
    e: &Entry,
) -> Result<bool, Memory>
    requires bound { IsWellBound cat.now q.now }
    requires has { HasEntryLine cat.now q.now (entry e.now) }
    ensures { IfOk result (λ b. IsTrue b ↔ (line.now ≡ entry_line cat.now q.now n (entry e.now))) }
{
    let text = entry_line(alloc, cat, q, n, e)?;
    Ok(line == text.items())
}
