//! LIMIT and OFFSET: their numbers read.

ghost use Rattle.std.specs.Prelude.{◌≡◌, List, ◌∷◌, OnOk};
ghost use Rattle.sql_grammar.specs.Terminals.{Terminal, Said, t_number};
ghost use Rattle.sql_grammar.specs.Words.{words_of_limit, words_of_offset, words_of_window};
ghost use Rattle.query_reader.specs.work.Ends.{ends_limit, ends_window};
ghost use Rattle.query_reader.specs.Windows.{most_of, rows_written, skipped_of, window_by, window_of};
ghost use Rattle.expr_reader.specs.work.Reading.{StandsFirst, IfFirst, Yields, YieldsNext};

use expr_reader::Cursor;
use pg_base::{Code, Fault};
use sql_grammar::{Word, fault_at};
use sql_query::Window;

/// The number of rows that is next, or its fault.
fn rows(from: &mut Cursor) -> Result<u64, Fault>
    requires { (n : Said) × (rest : List Terminal) × (from.old ≡ t_number n ∷ rest) }
    ensures { YieldsNext t_number rows_written from.old result from.new }
{
    let Some(number) = from.number() else {
        unreachable!();
    };
    if number.value > i64::MAX as u64 {
        return Err(fault_at(Code::S11, number.token));
    }
    Ok(number.value)
}

/// The number of LIMIT, where it is next.
fn most_rows(from: &mut Cursor) -> Result<Option<u64>, Fault>
    requires { StandsFirst words_of_limit ends_limit from.old }
    ensures { Yields words_of_limit ends_limit most_of from.old result from.new }
{
    if !from.takes(Word::Limit) {
        return Ok(None);
    }
    Ok(Some(rows(from)?))
}

/// The number of OFFSET, where it is next.
fn skipped_rows(from: &mut Cursor) -> Result<Option<u64>, Fault>
    requires { StandsFirst words_of_offset ends_window from.old }
    ensures { Yields words_of_offset ends_window skipped_of from.old result from.new }
{
    if !from.takes(Word::Offset) {
        return Ok(None);
    }
    Ok(Some(rows(from)?))
}

/// The window of a limit and an offset, where one is written.
fn window_by(limit: Option<u64>, offset: Option<u64>) -> Option<Window>
    ensures { result ≡ window_by limit offset }
{
    match offset {
        Some(offset) => Some(Window { limit, offset }),
        None => match limit {
            Some(most) => Some(Window {
                limit: Some(most),
                offset: 0,
            }),
            None => None,
        },
    }
}

/// The window that LIMIT and OFFSET, which are next, ask for, or the first fault of their numbers.
pub fn window(from: &mut Cursor) -> Result<Option<Window>, Fault>
    requires { StandsFirst words_of_window ends_window from.old }
    ensures { IfFirst words_of_window ends_window from.old (λ v rest.
        (result ≡ window_of v) × OnOk result (from.new ≡ rest)) }
{
    let limit = most_rows(from)?;
    let offset = skipped_rows(from)?;
    Ok(window_by(limit, offset))
}
