//! What the words before a SELECT ask of it.

ghost use Rattle.std.specs.Prelude.{◌≡◌, ℕ, ◌^◌, ◌≤◌, length};
ghost use Rattle.sql_lex.specs.Words.{AreWords};
ghost use Rattle.sql_grammar.specs.Faults.{terminals};
ghost use Rattle.query_reader.specs.Wanted as asked;
ghost use Rattle.query_reader.specs.work.Wanted as asked_work;

use expr_reader::Cursor;
use sql_grammar::{Free, Symbol};
use sql_lex::Tokens;

/// What is asked of a SELECT (PostgreSQL manual, EXPLAIN; the table is own).
#[derive(Clone, Copy)]
pub enum Wanted {
    /// Its rows, with its plan: nothing stands before it.
    Rows,
    /// Its plan alone: EXPLAIN stands before it.
    Plan,
    /// Its plan with the table of it: EXPLAIN (TABLE) stands before it.
    Table,
}

/// What the first words of a statement ask, where it is a SELECT.
pub fn wants(text: &[u8], tokens: &Tokens) -> Wanted
    requires short { length text.now ≤ 2 ^ 31 }
    requires words { (from : ℕ) × AreWords text.now from tokens.now }
    ensures { result ≡ asked.wanted_by (terminals text.now tokens.now) }
{
    let mut from = Cursor::new(text, tokens, 0);
    if !from.takes_free(Free::Explain) {
        return Wanted::Rows;
    }
    if from.takes_mark(Symbol::Open) {
        Wanted::Table
    } else {
        Wanted::Plan
    }
}

/// How many words stand before a SELECT of which this is asked.
pub fn words_by(wanted: Wanted) -> u32
    ensures { result ≡ asked_work.words_by wanted }
{
    match wanted {
        Wanted::Rows => 0,
        Wanted::Plan => 1,
        Wanted::Table => 4,
    }
}
