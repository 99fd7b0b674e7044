//! ADVISE, answered.

ghost use Rattle.std.specs.Prelude.{◌≡◌, ◌≢◌, ◌≤◌, ℕ, List, IfErr, IfOk, length, true};
ghost use Rattle.heap.specs.Stored.{Stored};
ghost use Rattle.pg_base.specs.declared.limits.TheConstants.{MOST_SCRIPT_BYTES};
ghost use Rattle.sql_lex.specs.Ends.{end_of};
ghost use Rattle.sql_lex.specs.Words.{AreWords};
ghost use Rattle.sql_grammar.specs.Faults.{terminals};
ghost use Rattle.index_reader.specs.work.AdviseStatements.{begins_advise};
ghost use Rattle.sql_query.specs.Worlds.{world};
ghost use Rattle.group_reply.specs.reply_Putting.{HasWriteCause};
ghost use Rattle.group_reply.specs.reply_Replies.{traces};
ghost use Rattle.statements.specs.work.Steps.{IsAnsweredOver, IsTelling, Refuses, StopsOver};

use crate::end::End;
use crate::query::token_at;
use catalog::Catalog;
use index_prices::advice_for;
use index_reader::read_advise;
use pg_base::{Code, Sink, write_all};
use sql_grammar::fault_at;
use sql_lex::Tokens;
use std::alloc::Global;

/// Writes the advice that the ADVISE of these tokens asks for, and gives the offset after it. That there is none, since with no
/// set of candidates each query has an admissible plan, is a fault (54001) at the word ADVISE. Nothing is made, and no row is
/// looked at.
pub(crate) fn advise<K: Sink>(
    alloc: Global,
    text: &[u8],
    tokens: &Tokens,
    catalog: &Catalog,
    out: &mut K,
) -> Result<u32, End>
    requires short { length text.now ≤ MOST_SCRIPT_BYTES }
    requires words { (from : ℕ) × AreWords text.now from tokens.now }
    requires opens { begins_advise (terminals text.now tokens.now) ≡ true }
    ensures answered { (stored : List Stored) (f l : ℕ) → IfOk result (λ next.
        IsAnsweredOver (world catalog.now stored) text.now tokens.now next
        (traces (K.held out.old) f l) (traces (K.held out.new) f l)) }
    ensures stopped { (stored : List Stored) (f l : ℕ) → IfErr result (λ e.
        StopsOver e (world catalog.now stored) text.now tokens.now
        (traces (K.held out.old) f l) (traces (K.held out.new) f l)) }
    ensures cause { HasWriteCause End.Write (K.faults out.old) (K.faults out.new) result }
{
    let lines = advice(alloc, text, tokens, catalog)?;
    match write_all(out, &lines) {
        Ok(()) => Ok(tokens.end()),
        Err(_) => Err(End::Write),
    }
}

/// The lines of the advice that the ADVISE of these tokens asks for, found in copies of the catalogue.
pub(crate) fn advice(
    alloc: Global,
    text: &[u8],
    tokens: &Tokens,
    catalog: &Catalog,
) -> Result<Vec<u8>, End>
    requires short { length text.now ≤ MOST_SCRIPT_BYTES }
    requires words { (from : ℕ) × AreWords text.now from tokens.now }
    requires opens { begins_advise (terminals text.now tokens.now) ≡ true }
    ensures advised { (stored : List Stored) → IfOk result (λ lines.
        IsTelling (world catalog.now stored) text.now tokens.now (end_of tokens.now) lines.items) }
    ensures refused { (stored : List Stored) →
        IfErr result (λ e. Refuses e (world catalog.now stored) text.now tokens.now 0 0) }
{
    let asked = read_advise(alloc, catalog, text, tokens)?;
    let found = advice_for(
        alloc,
        catalog,
        &asked.candidates,
        &asked.queries,
        asked.most,
    )?;
    match found {
        Some(lines) => Ok(lines),
        None => Err(End::Fault(fault_at(Code::S16, token_at(tokens, 0)))),
    }
}
