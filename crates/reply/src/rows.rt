//! The rows of an answer, printed as they are drawn.

ghost use Rattle.std.specs.Prelude.{◌≡◌, ◌+◌, ◌*◌, ◌≤◌, All, IfOk, OnOk, Some, length, map};
ghost use Rattle.reply_text.specs.Texts.{row_line};
ghost use Rattle.reply_text.specs.work.Printed.{ArePrintable};
ghost use Rattle.sql_query.specs.Queries.{width};
ghost use Rattle.plan_tree.specs.Counts.{MOST_READS};
ghost use Rattle.executor.specs.work.Numbers.{IsTupleOf, numbers};
ghost use Rattle.reply.specs.work.Drawing.{Draws, drawn_behind, drawn_by};
ghost use Rattle.reply.specs.Effort.{HasRisen, limit_in, offset_in};
ghost use Rattle.reply.specs.Putting.{HasWriteCause};
ghost use Rattle.reply.specs.work.Putting.{Puts};
ghost use Rattle.reply.specs.work.Settings.{IsSetting, let_through, line_shown, lines_shown, types_shown, up_to_limit, window_fetches, window_looks, world_of};
ghost use Rattle.reply.specs.work.Showing.{HasColumn, cell_of, rows_at};
ghost use Rattle.reply.specs.declared.stop.Broken.TheVariants.{Write};

use crate::pass::{is_wanted, offset_of, pass_over};
use crate::pending::{Page, put};
use crate::setting::Setting;
use crate::stop::Broken;
use executor::Rows;
use executor::plan_laws::values_fit_their_types;
use heap::{Counters, Row, value_in};
use pg_base::{Memory, Sink, Steps, Tid};
use pg_expr::ColRef;
use pg_value::SqlType;
use reply_text::Lines;
use sql_query::{Prepared, selected_columns};
use std::alloc::{AllocError, Global};

/// Passes over the first tuples as OFFSET says, and puts a line for each one behind them that LIMIT lets through; gives the
/// number of these. None is drawn behind the last one.
pub(crate) fn put_window<C: Counters, K: Sink>(
    at: &Setting<C>,
    rows: &mut Rows<C>,
    out: &mut K,
    page: &mut Page,
    fetches: &mut Steps<C::Fetches>,
    reads: &mut Steps<C::Looks>,
) -> Result<u64, Broken>
    requires setting { IsSetting at.now }
    requires tuples { All (IsTupleOf (world_of at.now) at.now.q.now) rows.old.left }
    requires types { page.old.types.items ≡ types_shown at.now }
    ensures puts { Puts (K.held out.old) (K.held out.new)
        page.old.pending.items page.new.pending.items result
        (lines_shown at.now (let_through at.now rows.old.left)) }
    ensures count { IfOk result (λ n. n ≡ length (let_through at.now rows.old.left)) }
    ensures cause { HasWriteCause Write (K.faults out.old) (K.faults out.new) result }
    ensures drawn { let window = at.now.q.now.window in OnOk result
        (Draws (drawn_behind (offset_in window) (limit_in window) rows.old.left)
        rows.old rows.new fetches.old fetches.new) }
    ensures fetches { OnOk result
        (HasRisen (window_fetches at.now rows.old) fetches.old fetches.new) }
    ensures fewer { fetches.new ≤ fetches.old + (window_fetches at.now rows.old).most }
    ensures reads { reads.new ≤ reads.old + window_looks at.now rows.old }
{
    pass_over(rows, offset_of(at.q), fetches, reads)?;
    put_rows(at, rows, out, page, fetches, reads)
}

/// Puts a line for each tuple that is still to be drawn, up to LIMIT, with the values that it shows, and gives their number.
/// Each is put before the next one is drawn. More than 2^64 - 1 of them count as out of memory.
fn put_rows<C: Counters, K: Sink>(
    at: &Setting<C>,
    rows: &mut Rows<C>,
    out: &mut K,
    page: &mut Page,
    fetches: &mut Steps<C::Fetches>,
    reads: &mut Steps<C::Looks>,
) -> Result<u64, Broken>
    requires setting { IsSetting at.now }
    requires tuples { All (IsTupleOf (world_of at.now) at.now.q.now) rows.old.left }
    requires types { page.old.types.items ≡ types_shown at.now }
    ensures puts { Puts (K.held out.old) (K.held out.new)
        page.old.pending.items page.new.pending.items result
        (lines_shown at.now (up_to_limit at.now rows.old.left)) }
    ensures count { IfOk result (λ n. n ≡ length (up_to_limit at.now rows.old.left)) }
    ensures cause { HasWriteCause Write (K.faults out.old) (K.faults out.new) result }
    ensures drawn { OnOk result (Draws (drawn_by (limit_in at.now.q.now.window) rows.old.left)
        rows.old rows.new fetches.old fetches.new) }
    ensures fewer { fetches.new ≤ fetches.old + rows.old.owed }
    ensures reads { reads.new ≤ reads.old +
        (rows.old.allowed + MOST_READS * length (up_to_limit at.now rows.old.left)) }
    ensures idle { limit_in at.now.q.now.window ≡ Some 0 →
        (fetches.new ≡ fetches.old) × (reads.new ≡ reads.old) }
{
    let mut count: u64 = 0;
    'drawn: while is_wanted(at.q, count) {
        match rows.next(fetches, reads)? {
            None => return Ok(count),
            Some(tuple) => {
                count = one_more(count)?;
                put_row(at, tuple.items(), out, page, reads)?;
            }
        }
    }
    Ok(count)
}

/// One more; out of memory where a u64 does not count so far.
pub(crate) fn one_more(count: u64) -> Result<u64, Memory>
    ensures { IfOk result (λ n. n ≡ count + 1) }
{
    match count.checked_add(1) {
        Some(more) => Ok(more),
        None => Err(AllocError),
    }
}

/// Puts the line of the values that a tuple shows. Each relation's row is looked at once.
fn put_row<C: Counters, K: Sink>(
    at: &Setting<C>,
    tuple: &[Tid],
    out: &mut K,
    page: &mut Page,
    reads: &mut Steps<C::Looks>,
) -> Result<(), Broken>
    requires setting { IsSetting at.now }
    requires tuple { IsTupleOf (world_of at.now) at.now.q.now (numbers tuple.now) }
    requires types { page.old.types.items ≡ types_shown at.now }
    ensures puts { Puts (K.held out.old) (K.held out.new)
        page.old.pending.items page.new.pending.items result
        (line_shown at.now (numbers tuple.now)) }
    ensures cause { HasWriteCause Write (K.faults out.old) (K.faults out.new) result }
    ensures kept { page.new.types.items ≡ page.old.types.items }
    ensures reads { reads.new ≤ reads.old + MOST_READS }
{
    let line = tuple_line(at, tuple, &page.types, &mut page.lines, reads)?;
    put(out, &mut page.pending, line)
}

/// The line of the values that a tuple shows, of these types. Each relation's row is looked at once.
fn tuple_line<'a, C: Counters>(
    at: &Setting<C>,
    tuple: &[Tid],
    types: &[SqlType],
    lines: &'a mut Lines,
    reads: &mut Steps<C::Looks>,
) -> Result<&'a [u8], Memory>
    requires setting { IsSetting at.now }
    requires tuple { IsTupleOf (world_of at.now) at.now.q.now (numbers tuple.now) }
    requires types { types.now ≡ types_shown at.now }
    ensures line { IfOk result (λ line. line.now ≡ line_shown at.now (numbers tuple.now)) }
    ensures reads { reads.new ≤ reads.old + MOST_READS }
{
    selected_columns();
    values_fit_their_types();
    let rows = rows_at(at, tuple, reads)?;
    let q: &Prepared = at.q;
    shown_line(at.alloc, q.select.items(), types, &rows, lines)
}

/// The rows of all relations at a tuple of row numbers, in FROM order, each looked at once. The error means out of memory.
pub fn rows_at<'a, C: Counters>(
    at: &Setting<'a, C>,
    tuple: &[Tid],
    reads: &mut Steps<C::Looks>,
) -> Result<Vec<Row<'a>>, Memory>
    requires setting { IsSetting at.now }
    requires tuple { IsTupleOf (world_of at.now) at.now.q.now (numbers tuple.now) }
    ensures rows { IfOk result (λ rows.
        map (λ r. r.now) rows.items ≡ rows_at (world_of at.now) at.now.q.now (numbers tuple.now)) }
    ensures reads { reads.new ≤ reads.old + width at.now.q.now }
{
    let mut rows = Vec::new(at.alloc);
    let q: &Prepared = at.q;
    let range = q.range.items();
    for n in 0..range.len() {
        let heap = at.store.heap(range[n].0);
        rows.push(heap.look(tuple[n], reads))?;
    }
    Ok(rows)
}

/// The line of the values of these columns, of these types, in rows of all relations.
fn shown_line<'a>(
    alloc: Global,
    columns: &[ColRef],
    types: &[SqlType],
    rows: &[Row],
    lines: &'a mut Lines,
) -> Result<&'a [u8], Memory>
    requires there { All (HasColumn (map (λ r. r.now) rows.now)) columns.now }
    requires printable { ArePrintable types.now
        (map (cell_of (map (λ r. r.now) rows.now)) columns.now) }
    ensures { IfOk result (λ line.
        line.now ≡ row_line types.now (map (cell_of (map (λ r. r.now) rows.now)) columns.now)) }
{
    let mut values = Vec::new(alloc);
    for column in columns {
        let row = rows[column.rel.0 as usize];
        values.push(value_in(row, column.col))?;
    }
    lines.line(types, &values)
}
