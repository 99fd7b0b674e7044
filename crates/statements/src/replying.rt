//! The statements that have a reply: SELECT, EXPLAIN, ADVISE, CHECK and USE PLAN.

ghost use Rattle.std.specs.Prelude.{◌≡◌, ◌≤◌, ◌<◌, ℕ, List, IfErr, IfOk, length, true};
ghost use Rattle.pg_base.specs.declared.limits.TheConstants.{MOST_SCRIPT_BYTES};
ghost use Rattle.sql_lex.specs.Words.{AreWords};
ghost use Rattle.sql_grammar.specs.Faults.{terminals};
ghost use Rattle.index_reader.specs.work.AdviseStatements.{begins_advise};
ghost use Rattle.heap.specs.Stored.{Stored};
ghost use Rattle.sql_query.specs.Worlds.{world};
ghost use Rattle.store.specs.work.Kept.{IsStoreOf};
ghost use Rattle.group_reply.specs.reply_Putting.{HasWriteCause};
ghost use Rattle.group_reply.specs.reply_Replies.{traces};
ghost use Rattle.statements.specs.work.Steps.{AreNoDefinition, IsAnsweredOver, IsTalliedOver, Refuses, StopsOver, begins_check, begins_use};

use crate::advising::{advice, advise};
use crate::checking::{check, verdict_of};
use crate::claims::{is_check, is_use};
use crate::end::End;
use crate::query::{answer_query, measure_query};
use crate::using::{Place, follow, judged};
use catalog::Catalog;
use group_reply::reply::Measured;
use heap::Counters;
use index_reader::is_advise;
use pg_base::{Sink, Steps};
use plan_reply::told_blocks_have_replies;
use sql_lex::Tokens;
use std::alloc::Global;
use store::Store;

/// A statement that was worked with nothing printed.
#[derive(Clone, Copy, Debug, PartialEq, Eq)]
pub struct Tallied {
    /// The offset after it.
    pub next: u32,
    /// What the answer to its query comes to, where it asks one.
    pub measured: Option<Measured>,
}

/// Answers the statement of these tokens, which is neither an empty one nor a definition, and gives the offset after it.
pub fn reply_to<C: Counters, K: Sink>(
    alloc: Global,
    text: &[u8],
    tokens: &Tokens,
    catalog: &Catalog,
    store: &Store<C>,
    out: &mut K,
    fetches: &mut Steps<C::Fetches>,
    reads: &mut Steps<C::Looks>,
) -> Result<u32, End>
    requires short { length text.now ≤ MOST_SCRIPT_BYTES }
    requires words { (from : ℕ) × AreWords text.now from tokens.now }
    requires kind { AreNoDefinition text.now tokens.now }
    requires store { IsStoreOf catalog.now store.now }
    ensures answered { IfOk result (λ next.
        IsAnsweredOver (world catalog.now store.now.stored) text.now tokens.now next
        (traces (K.held out.old) fetches.old reads.old)
        (traces (K.held out.new) fetches.new reads.new)) }
    ensures stopped { IfErr result (λ e.
        StopsOver e (world catalog.now store.now.stored) text.now tokens.now
        (traces (K.held out.old) fetches.old reads.old)
        (traces (K.held out.new) fetches.new reads.new)) }
    ensures cause { HasWriteCause End.Write (K.faults out.old) (K.faults out.new) result }
{
    if is_advise(text, tokens) {
        return advise(alloc, text, tokens, catalog, out);
    }
    if is_check(text, tokens) {
        return check(alloc, text, tokens, catalog, out);
    }
    let at = Place {
        alloc,
        text,
        tokens,
        catalog,
        store,
    };
    if is_use(text, tokens) {
        return follow(&at, out, fetches, reads);
    }
    answer_query(&at, out, fetches, reads)
}

/// Works the same statement and prints nothing: a query that is asked is measured in place of being answered. One that groups
/// is planned alone, and nothing is measured of it.
pub fn tally_reply<C: Counters>(
    alloc: Global,
    text: &[u8],
    tokens: &Tokens,
    catalog: &Catalog,
    store: &Store<C>,
    fetches: &mut Steps<C::Fetches>,
    reads: &mut Steps<C::Looks>,
) -> Result<Tallied, End>
    requires short { length text.now ≤ MOST_SCRIPT_BYTES }
    requires words { (from : ℕ) × AreWords text.now from tokens.now }
    requires kind { AreNoDefinition text.now tokens.now }
    requires store { IsStoreOf catalog.now store.now }
    ensures tallied { IfOk result (λ t.
        IsTalliedOver (world catalog.now store.now.stored) text.now tokens.now t.next t.measured) }
    ensures refused { IfErr result (λ e.
        Refuses e (world catalog.now store.now.stored) text.now tokens.now 0 0) }
{
    if is_advise(text, tokens) {
        return tally_advice(alloc, text, tokens, catalog);
    }
    if is_check(text, tokens) {
        return tally_check(alloc, text, tokens, catalog);
    }
    if is_use(text, tokens) {
        return tally_plan(alloc, text, tokens, catalog, store);
    }
    let at = Place {
        alloc,
        text,
        tokens,
        catalog,
        store,
    };
    match measure_query(&at, fetches, reads) {
        Ok(measured) => Ok(Tallied {
            next: tokens.end(),
            measured,
        }),
        Err(end) => Err(end),
    }
}

/// Finds the advice that the ADVISE of these tokens asks for, and prints nothing.
fn tally_advice(
    alloc: Global,
    text: &[u8],
    tokens: &Tokens,
    catalog: &Catalog,
) -> Result<Tallied, End>
    requires short { length text.now ≤ MOST_SCRIPT_BYTES }
    requires words { (from : ℕ) × AreWords text.now from tokens.now }
    requires opens { begins_advise (terminals text.now tokens.now) ≡ true }
    ensures tallied { (stored : List Stored) → IfOk result (λ t.
        IsTalliedOver (world catalog.now stored) text.now tokens.now t.next t.measured) }
    ensures refused { (stored : List Stored) →
        IfErr result (λ e. Refuses e (world catalog.now stored) text.now tokens.now 0 0) }
{
    let _lines = advice(alloc, text, tokens, catalog)?;
    Ok(Tallied {
        next: tokens.end(),
        measured: None,
    })
}

/// Judges the certificate of the CHECK of these tokens, and prints nothing.
fn tally_check(
    alloc: Global,
    text: &[u8],
    tokens: &Tokens,
    catalog: &Catalog,
) -> Result<Tallied, End>
    requires short { length text.now ≤ MOST_SCRIPT_BYTES }
    requires words { (from : ℕ) × AreWords text.now from tokens.now }
    requires opens { begins_check (terminals text.now tokens.now) ≡ true }
    ensures tallied { (stored : List Stored) → IfOk result (λ t.
        IsTalliedOver (world catalog.now stored) text.now tokens.now t.next t.measured) }
    ensures refused { (stored : List Stored) →
        IfErr result (λ e. Refuses e (world catalog.now stored) text.now tokens.now 0 0) }
{
    let verdict = verdict_of(alloc, text, tokens, catalog)?;
    Ok(Tallied {
        next: verdict.next,
        measured: None,
    })
}

/// Judges the plan behind the USE PLAN of these tokens, and prints nothing.
fn tally_plan<C: Counters>(
    alloc: Global,
    text: &[u8],
    tokens: &Tokens,
    catalog: &Catalog,
    store: &Store<C>,
) -> Result<Tallied, End>
    requires short { length text.now ≤ MOST_SCRIPT_BYTES }
    requires words { (from : ℕ) × AreWords text.now from tokens.now }
    requires opens { begins_use (terminals text.now tokens.now) ≡ true }
    requires store { IsStoreOf catalog.now store.now }
    ensures tallied { IfOk result (λ t.
        IsTalliedOver (world catalog.now store.now.stored) text.now tokens.now t.next t.measured) }
    ensures refused { IfErr result (λ e.
        Refuses e (world catalog.now store.now.stored) text.now tokens.now 0 0) }
{
    let order = judged(alloc, text, tokens, catalog)?;
    told_blocks_have_replies();
    Ok(Tallied {
        next: order.next,
        measured: None,
    })
}
