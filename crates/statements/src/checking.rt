//! CHECK, answered.

ghost use Rattle.std.specs.Prelude.{◌≡◌, ◌≤◌, ℕ, List, IfErr, IfOk, length, true};
ghost use Rattle.pg_base.specs.declared.limits.TheConstants.{MOST_SCRIPT_BYTES};
ghost use Rattle.sql_lex.specs.Words.{AreWords};
ghost use Rattle.sql_grammar.specs.Faults.{terminals};
ghost use Rattle.heap.specs.Stored.{Stored};
ghost use Rattle.sql_query.specs.Worlds.{world};
ghost use Rattle.group_reply.specs.reply_Putting.{HasWriteCause};
ghost use Rattle.group_reply.specs.reply_Replies.{traces};
ghost use Rattle.statements.specs.work.Steps.{IsAnsweredOver, IsTelling, Refuses, StopsOver, begins_check};

use crate::claims::{Claim, Given, read_claim};
use crate::end::End;
use catalog::Catalog;
use check_reply::check_text;
use pg_base::{Sink, write_all};
use sql_lex::Tokens;
use std::alloc::Global;

/// The judgement of a certificate, and the offset after the line behind it.
#[derive(Drop)]
pub(crate) struct Verdict {
    pub(crate) line: Vec<u8>,
    pub(crate) next: u32,
}

/// The judgement of the certificate of the CHECK of these tokens.
pub(crate) fn verdict_of(
    alloc: Global,
    text: &[u8],
    tokens: &Tokens,
    catalog: &Catalog,
) -> Result<Verdict, End>
    requires short { length text.now ≤ MOST_SCRIPT_BYTES }
    requires words { (from : ℕ) × AreWords text.now from tokens.now }
    requires opens { begins_check (terminals text.now tokens.now) ≡ true }
    ensures telling { (stored : List Stored) → IfOk result (λ v.
        IsTelling (world catalog.now stored) text.now tokens.now v.next v.line.items) }
    ensures refused { (stored : List Stored) →
        IfErr result (λ e. Refuses e (world catalog.now stored) text.now tokens.now 0 0) }
{
    let Claim {
        query,
        start,
        end,
        next,
    } = read_claim(alloc, text, tokens, catalog, Given::Certificate)?;
    let block = &text[start as usize..end as usize];
    let line = check_text(alloc, catalog, &query, block)?;
    Ok(Verdict { line, next })
}

/// Writes the line that tells whether the lines behind the CHECK of these tokens are a certificate of its SELECT, and gives the
/// offset after the line `\.` that ends them. The line ends nothing, whatever it tells. No row is looked at, and it is no fault
/// that the SELECT has no admissible plan.
pub(crate) fn check<K: Sink>(
    alloc: Global,
    text: &[u8],
    tokens: &Tokens,
    catalog: &Catalog,
    out: &mut K,
) -> Result<u32, End>
    requires short { length text.now ≤ MOST_SCRIPT_BYTES }
    requires words { (from : ℕ) × AreWords text.now from tokens.now }
    requires opens { begins_check (terminals text.now tokens.now) ≡ true }
    ensures answered { (stored : List Stored) (f l : ℕ) → IfOk result (λ next.
        IsAnsweredOver (world catalog.now stored) text.now tokens.now next
        (traces (K.held out.old) f l) (traces (K.held out.new) f l)) }
    ensures stopped { (stored : List Stored) (f l : ℕ) → IfErr result (λ e.
        StopsOver e (world catalog.now stored) text.now tokens.now
        (traces (K.held out.old) f l) (traces (K.held out.new) f l)) }
    ensures cause { HasWriteCause End.Write (K.faults out.old) (K.faults out.new) result }
{
    let verdict = verdict_of(alloc, text, tokens, catalog)?;
    match write_all(out, &verdict.line) {
        Ok(()) => Ok(verdict.next),
        Err(_) => Err(End::Write),
    }
}
