//! Costs and rows.

ghost use Rattle.std.specs.Prelude.{◌≡◌, ◌≤◌, IfOk};
ghost use Rattle.std.specs.Option.{IsSome};
ghost use Rattle.std.specs.String.{string_bytes};
ghost use Rattle.sql_query.specs.declared.window.Window as windows;
ghost use Rattle.explain.specs.Texts as texts;
ghost use Rattle.explain.specs.work.Texts as texts_work;
ghost use Rattle.explain.specs.Texts.{numbers_text, rows_behind, window_text};

use cost_rules::Pair;
use pg_base::Memory;
use pg_value::Bytes;
use sql_query::{Prepared, Window};
use std::alloc::Global;

/// What a node's line says of its cost, in 1/400 of a sequential page, and of its estimated rows, ended by LF. Where there is a
/// window, the cost is shown with what comes before the first row. The error means out of memory.
pub fn numbers(
    alloc: Global,
    window: Option<Window>,
    cost: Pair,
    rows: u64,
) -> Result<String, Memory>
    ensures { IfOk result (λ text. string_bytes text ≡ numbers_text window cost rows) }
{
    let Pair { startup, total } = cost;
    match window {
        None => format!(in alloc; "  (cost={total} rows={rows})\n"),
        Some(_) => format!(in alloc; "  (cost={startup}..{total} rows={rows})\n"),
    }
}

/// LIMIT and OFFSET.
fn window_words(alloc: Global, w: Window) -> Result<String, Memory>
    ensures { IfOk result (λ text. string_bytes text ≡ window_text w) }
{
    let offset = w.offset;
    match w.limit {
        None => format!(in alloc; "Limit all offset {offset}"),
        Some(limit) => format!(in alloc; "Limit {limit} offset {offset}"),
    }
}

/// How many of the rows asked for stand behind the offset, and 1 where there are none.
fn behind(offset: u64, asked: u64) -> u64
    ensures { result ≡ rows_behind offset asked }
{
    (asked - offset.min(asked)).max(1)
}

/// The line of LIMIT and OFFSET, of a window.
fn line_of(alloc: Global, w: Window, price: u64, asked: u64) -> Result<Bytes, Memory>
    ensures { IfOk result (λ text. text ≡ texts.rows_limit_text w price asked) }
{
    let words = window_words(alloc, w)?;
    let pair = Pair {
        startup: 0,
        total: price,
    };
    let figures = numbers(alloc, None, pair, behind(w.offset, asked))?;
    let mut text = Vec::from_slice(alloc, words.as_bytes())?;
    text.extend_from_slice(figures.as_bytes())?;
    Ok(Bytes::from_vec(text))
}

/// The line of LIMIT and OFFSET that stands above the text of a plan, ended by LF: LIMIT, or `all` where there is none, OFFSET,
/// the price of the plan, and how many of the rows asked for stand behind the offset, at least 1. `price` is what the plan
/// costs up to the last row asked for, in 1/400 of a sequential page, `rows` how many rows the query is taken to give in all,
/// and `asked` how many of these LIMIT and OFFSET ask for. The query has a window. The error means out of memory.
pub fn limit_text(
    alloc: Global,
    q: &Prepared,
    price: u64,
    rows: u64,
    asked: u64,
) -> Result<Bytes, Memory>
    requires window { IsSome q.now.window }
    requires asked { asked ≤ rows }
    ensures text { (w : windows.Window) → q.now.window ≡ Some w →
        IfOk result (λ text. text ≡ texts.rows_limit_text w price asked) }
{
    match q.window {
        None => unreachable!(),
        Some(w) => line_of(alloc, w, price, asked),
    }
}
