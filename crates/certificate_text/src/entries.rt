//! Entries, and the whole text.

ghost use Rattle.std.specs.Prelude.{◌≡◌, ◌≤◌, ◌++◌, All, IfOk, OnOk, codes, length, map};
ghost use Rattle.std.specs.Fmt.{decimal};
ghost use Rattle.pg_base.specs.Sets.{has};
ghost use Rattle.cost_rules.specs.Costs.{pair};
ghost use Rattle.explain.specs.Texts.{cost_text};
ghost use Rattle.explain.specs.work.Texts.{Gets};
ghost use Rattle.sql_query.specs.Queries.{width};
ghost use Rattle.sql_query.specs.WellBound.{IsWellBound};
ghost use Rattle.plan_check.specs.Limit.{MOST_ENTRIES};
ghost use Rattle.plan_check.specs.Views.{side};
ghost use Rattle.plan_check.specs.work.Views.{certificate, entry};
ghost use Rattle.certificate_text.specs.HasText.{HasEntryLine, HasText};
ghost use Rattle.certificate_text.specs.Texts.{best_line, certificate_text, ended, ended_line, entry_line, head_text, made_text, measures_text};
ghost use Rattle.certificate_text.specs.work.Texts.{written_entries};

use crate::nodes::{put_node, put_number, put_side};
use crate::sets::{put_param, put_set};
use catalog::Catalog;
use explain::put_keys;
use pg_base::Memory;
use pg_value::Bytes;
use plan_check::{Certificate, Entry, Side};
use sql_query::Prepared;
use std::alloc::Global;

/// Appends what an entry costs: in all, or where the query has a window before its first row and in all.
fn put_cost(
    alloc: Global,
    text: &mut Vec<u8>,
    q: &Prepared,
    startup: u64,
    total: u64,
) -> Result<(), Memory>
    ensures { OnOk result (Gets text.old text.new (cost_text q.now.window (pair startup total))) }
{
    match q.window {
        None => put_number(alloc, text, total),
        Some(_) => {
            put_number(alloc, text, startup)?;
            text.extend_from_slice(b"..")?;
            put_number(alloc, text, total)
        }
    }
}

/// Appends an entry's set, its parameterisation and what it is.
fn put_plan(
    alloc: Global,
    text: &mut Vec<u8>,
    cat: &Catalog,
    q: &Prepared,
    e: &Entry,
) -> Result<(), Memory>
    requires bound { IsWellBound cat.now q.now }
    requires few { width q.now ≤ 16 }
    requires line { HasEntryLine cat.now q.now (entry e.now) }
    ensures { OnOk result (Gets text.old text.new (made_text cat.now q.now (entry e.now))) }
{
    put_set(text, q, e.set)?;
    put_param(text, q, e.param)?;
    text.extend_from_slice(b" ")?;
    put_node(alloc, text, cat, q, e.set, &e.node)
}

/// Appends an entry's costs, rows and keys.
fn put_numbers(
    alloc: Global,
    text: &mut Vec<u8>,
    cat: &Catalog,
    q: &Prepared,
    e: &Entry,
) -> Result<(), Memory>
    requires bound { IsWellBound cat.now q.now }
    requires line { HasEntryLine cat.now q.now (entry e.now) }
    ensures { OnOk result (Gets text.old text.new (measures_text cat.now q.now (entry e.now))) }
{
    text.extend_from_slice(b" cost=")?;
    put_cost(alloc, text, q, e.startup, e.cost)?;
    text.extend_from_slice(b" rows=")?;
    put_number(alloc, text, e.rows)?;
    text.extend_from_slice(b" keys=(")?;
    put_keys(text, cat, q, e.set, e.keys.items())?;
    text.extend_from_slice(b")")
}

/// Appends the line of the entry of a number, without its LF.
fn put_line(
    alloc: Global,
    text: &mut Vec<u8>,
    cat: &Catalog,
    q: &Prepared,
    n: u64,
    e: &Entry,
) -> Result<(), Memory>
    requires bound { IsWellBound cat.now q.now }
    requires few { width q.now ≤ 16 }
    requires line { HasEntryLine cat.now q.now (entry e.now) }
    ensures { OnOk result (Gets text.old text.new (entry_line cat.now q.now n (entry e.now))) }
{
    put_number(alloc, text, n)?;
    text.extend_from_slice(b" ")?;
    put_plan(alloc, text, cat, q, e)?;
    put_numbers(alloc, text, cat, q, e)
}

/// Appends the line of the entry of a number, with its LF.
fn put_entry(
    alloc: Global,
    text: &mut Vec<u8>,
    cat: &Catalog,
    q: &Prepared,
    n: u64,
    e: &Entry,
) -> Result<(), Memory>
    requires bound { IsWellBound cat.now q.now }
    requires few { width q.now ≤ 16 }
    requires line { HasEntryLine cat.now q.now (entry e.now) }
    ensures { OnOk result (Gets text.old text.new (ended_line cat.now q.now n (entry e.now))) }
{
    put_line(alloc, text, cat, q, n, e)?;
    text.extend_from_slice(b"\n")
}

/// Appends the lines of entries, which are numbered from 1.
fn put_entries(
    alloc: Global,
    text: &mut Vec<u8>,
    cat: &Catalog,
    q: &Prepared,
    entries: &[Entry],
) -> Result<(), Memory>
    requires bound { IsWellBound cat.now q.now }
    requires few { width q.now ≤ 16 }
    requires numbers { length entries.now ≤ MOST_ENTRIES }
    requires lines { All (HasEntryLine cat.now q.now) (map entry entries.now) }
    ensures { OnOk result (Gets text.old text.new (written_entries cat.now q.now entries.now)) }
{
    for n in 0..entries.len() {
        put_entry(alloc, text, cat, q, n as u64 + 1, &entries[n])?;
    }
    Ok(())
}

/// Appends the line of the best plan, without its LF.
fn put_best(alloc: Global, text: &mut Vec<u8>, best: Side) -> Result<(), Memory>
    ensures { OnOk result (text.new.items ≡ text.old.items ++ best_line (side best)) }
{
    text.extend_from_slice(b"best ")?;
    put_side(alloc, text, best)
}

/// Appends the line of the best plan, with its LF.
fn put_last(alloc: Global, text: &mut Vec<u8>, best: Side) -> Result<(), Memory>
    ensures { OnOk result (text.new.items ≡ text.old.items ++ ended (best_line (side best))) }
{
    put_best(alloc, text, best)?;
    text.extend_from_slice(b"\n")
}

/// The line of the entry of a number in the text of a certificate, without its LF. The condition is that the entry has a line.
/// The error means out of memory.
pub fn entry_line(
    alloc: Global,
    cat: &Catalog,
    q: &Prepared,
    n: u64,
    e: &Entry,
) -> Result<Bytes, Memory>
    requires bound { IsWellBound cat.now q.now }
    requires line { HasEntryLine cat.now q.now (entry e.now) }
    ensures line { IfOk result (λ text. text ≡ entry_line cat.now q.now n (entry e.now)) }
{
    let mut text = Vec::new(alloc);
    put_line(alloc, &mut text, cat, q, n, e)?;
    Ok(Bytes::from_vec(text))
}

/// The line of the best plan, without its LF. The error means out of memory.
pub fn best_line(alloc: Global, best: Side) -> Result<Bytes, Memory>
    ensures line { IfOk result (λ text. text ≡ best_line (side best)) }
{
    let mut text = Vec::new(alloc);
    put_best(alloc, &mut text, best)?;
    Ok(Bytes::from_vec(text))
}

/// Appends the first line of a certificate of a query with a window.
fn put_head(text: &mut Vec<u8>, q: &Prepared) -> Result<(), Memory>
    ensures { OnOk result (text.new.items ≡ text.old.items ++ head_text q.now.window) }
{
    match q.window {
        None => Ok(()),
        Some(_) => text.extend_from_slice(b"certificate 2\n"),
    }
}

/// The text of a certificate of a query: a line for each entry, with its number from 1, its relations, what it is, what it
/// costs in 1/400 of a sequential page, its estimated rows and its keys; then one for the best plan. Where the query has a
/// window, a line stands before them that says so, and each entry also has what it costs before its first row. The condition is
/// that the certificate has a text. The error means out of memory.
pub fn certificate_text(
    alloc: Global,
    cat: &Catalog,
    q: &Prepared,
    t: &Certificate,
) -> Result<Bytes, Memory>
    requires bound { IsWellBound cat.now q.now }
    requires has { HasText cat.now q.now (certificate t.now) }
    ensures text { IfOk result (λ text. text ≡ certificate_text cat.now q.now (certificate t.now)) }
{
    let mut text = Vec::new(alloc);
    put_head(&mut text, q)?;
    put_entries(alloc, &mut text, cat, q, t.entries.items())?;
    put_last(alloc, &mut text, t.best)?;
    Ok(Bytes::from_vec(text))
}
