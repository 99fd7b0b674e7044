//! A reader of one line.

ghost use Rattle.std.specs.Prelude.{IfNone, IfOk, IfSome};
ghost use Rattle.sql_query.specs.WellBound.{IsWellBound};
ghost use Rattle.plan_check.specs.Views.{side};
ghost use Rattle.plan_check.specs.work.Views.{entry};
ghost use Rattle.certificate_entries.specs.work.Reading.{IsBestRead, IsEntryRead, IsNoBestLine, IsNoEntryLine, IsRead};

use crate::entry::{is_entry_line, read_entry};
use catalog::Catalog;
use certificate_entries::{Line, LineFault, ReadLine, is_best_line, read_best};
use certificate_text::LineCursor;
use pg_base::Memory;
use plan_check::{Entry, Side};
use sql_query::Prepared;
use std::alloc::Global;

/// The best plan whose line this is. None where it is that of none. The error means out of memory.
fn best_of(alloc: Global, line: &[u8]) -> Result<Option<Side>, Memory>
    ensures is { IfOk result (λ o. IfSome o (λ s. IsBestRead line.now (side s))) }
    ensures none { IfOk result (λ o. IfNone o (IsNoBestLine line.now)) }
{
    let mut at = LineCursor::new(line);
    let best = match read_best(&mut at) {
        Some(best) => best,
        None => return Ok(None),
    };
    if is_best_line(alloc, line, best)? {
        Ok(Some(best))
    } else {
        Ok(None)
    }
}

/// The entry that has this line with this number, where it was read for one. None where it has another. The error means out of
/// memory.
fn entry_with(
    alloc: Global,
    cat: &Catalog,
    q: &Prepared,
    n: u64,
    line: &[u8],
) -> Result<Option<Entry>, Memory>
    requires bound { IsWellBound cat.now q.now }
    ensures is { IfOk result (λ o. IfSome o (λ e. IsEntryRead cat.now q.now n line.now (entry e))) }
    ensures none { IfOk result (λ o. IfNone o (IsNoEntryLine cat.now q.now n line.now)) }
{
    let mut at = LineCursor::new(line);
    let made = match read_entry(alloc, &mut at, cat, q, n)? {
        Some(made) => made,
        None => return Ok(None),
    };
    if is_entry_line(alloc, cat, q, n, line, &made)? {
        Ok(Some(made))
    } else {
        Ok(None)
    }
}

/// Reads the lines of a certificate's text: those of entries and of best plans.
#[derive(Clone, Copy, Debug)]
pub struct LineReader;

impl ReadLine for LineReader {
    fn read(
        &self,
        alloc: Global,
        cat: &Catalog,
        q: &Prepared,
        n: u64,
        line: &[u8],
    ) -> Result<Line, LineFault> {
        match best_of(alloc, line) {
            Ok(Some(best)) => return Ok(Line::Best(best)),
            Ok(None) => {}
            Err(_) => return Err(LineFault::Memory),
        }
        match entry_with(alloc, cat, q, n, line) {
            Ok(Some(made)) => Ok(Line::Entry(made)),
            Ok(None) => Err(LineFault::Bad),
            Err(_) => Err(LineFault::Memory),
        }
    }
}
