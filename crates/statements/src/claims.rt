//! CHECK and USE PLAN, read: a SELECT, and the lines behind it.

ghost use Rattle.std.specs.Prelude.{◌≡◌, ◌≤◌, ◌^◌, ℕ, List, IfErr, IfOk, length, slice_range, true};
ghost use Rattle.pg_base.specs.declared.limits.TheConstants.{MOST_SCRIPT_BYTES};
ghost use Rattle.sql_lex.specs.Words.{AreWords};
ghost use Rattle.sql_grammar.specs.Faults.{terminals};
ghost use Rattle.heap.specs.Stored.{Stored};
ghost use Rattle.sql_query.specs.WellBound.{IsWellBound};
ghost use Rattle.sql_query.specs.Worlds.{world};
ghost use Rattle.plan_reply.specs.certificate_laws_Arms.{HasArmsInOrs};
ghost use Rattle.statements.specs.Accepted.{IsReadOver};
ghost use Rattle.statements.specs.work.Claims.{IsWholeFor, action_for, begins_for, words_for};
ghost use Rattle.statements.specs.work.Steps.{Refuses, begins_check, begins_use};

use crate::end::End;
use crate::faults::endless;
use catalog::Catalog;
use ddl_reader::block_end;
use expr_reader::Cursor;
use query_reader::read_select;
use sql_grammar::{Free, data_start, statement_fault};
use sql_lex::Tokens;
use sql_query::Prepared;
use std::alloc::Global;

/// What the lines behind a statement are given for.
#[derive(Clone, Copy)]
pub(crate) enum Given {
    /// A certificate of its SELECT, behind CHECK.
    Certificate,
    /// A plan of its SELECT, behind USE PLAN.
    Plan,
}

/// A statement with lines behind it that is read: its query, where the bytes of these lines begin and end, and the offset after
/// the line that ends them.
#[derive(Drop)]
pub(crate) struct Claim {
    pub(crate) query: Prepared,
    pub(crate) start: u32,
    pub(crate) end: u32,
    pub(crate) next: u32,
}

/// Whether CHECK is the statement's first word.
pub(crate) fn is_check(text: &[u8], tokens: &Tokens) -> bool
    requires short { length text.now ≤ 2 ^ 31 }
    requires words { (from : ℕ) × AreWords text.now from tokens.now }
    ensures { result ≡ begins_check (terminals text.now tokens.now) }
{
    let mut from = Cursor::new(text, tokens, 0);
    from.takes_free(Free::Check)
}

/// Whether USE is the statement's first word.
pub(crate) fn is_use(text: &[u8], tokens: &Tokens) -> bool
    requires short { length text.now ≤ 2 ^ 31 }
    requires words { (from : ℕ) × AreWords text.now from tokens.now }
    ensures { result ≡ begins_use (terminals text.now tokens.now) }
{
    let mut from = Cursor::new(text, tokens, 0);
    from.takes_free(Free::Use)
}

/// The number of the token at which the SELECT begins of a statement with such lines behind it.
fn select_of(given: Given) -> u32
    ensures { result ≡ words_for given }
{
    match given {
        Given::Certificate => 1,
        Given::Plan => 2,
    }
}

/// Reads the CHECK or USE PLAN of these tokens, and finds the lines behind it. The rest of the statement's own line comes
/// behind its grammar and before its names; that no line `\.` ends the lines (22P04) comes last, at their first byte.
pub(crate) fn read_claim(
    alloc: Global,
    text: &[u8],
    tokens: &Tokens,
    catalog: &Catalog,
    given: Given,
) -> Result<Claim, End>
    requires short { length text.now ≤ MOST_SCRIPT_BYTES }
    requires words { (from : ℕ) × AreWords text.now from tokens.now }
    requires opens { begins_for given (terminals text.now tokens.now) ≡ true }
    ensures bound { IfOk result (λ c. IsWellBound catalog.now c.query) }
    ensures arms { IfOk result (λ c. HasArmsInOrs c.query) }
    ensures whole { IfOk result (λ c. IsWholeFor given c.query) }
    ensures within { IfOk result (λ c. (c.start ≤ c.end) × (c.end ≤ length text.now)) }
    ensures read { (stored : List Stored) → IfOk result (λ c.
        IsReadOver (world catalog.now stored) text.now tokens.now
        (action_for given c.query (slice_range text.now c.start c.end)) c.next) }
    ensures refused { (stored : List Stored) →
        IfErr result (λ e. Refuses e (world catalog.now stored) text.now tokens.now 0 0) }
{
    if let Some(fault) = statement_fault(text, tokens, 0) {
        return Err(End::Fault(fault));
    }
    let start = match data_start(text, tokens.end()) {
        Ok(start) => start,
        Err(fault) => return Err(End::Fault(fault)),
    };
    let query = read_select(alloc, catalog, text, tokens, select_of(given))?;
    match block_end(text, start) {
        Some((end, next)) => Ok(Claim {
            query,
            start,
            end,
            next,
        }),
        None => Err(End::Fault(endless(start))),
    }
}
