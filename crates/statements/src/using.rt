//! USE PLAN, answered.

ghost use Rattle.std.specs.Prelude.{◌≡◌, ◌≤◌, ℕ, List, IfErr, IfOk, length, true};
ghost use Rattle.pg_base.specs.declared.limits.TheConstants.{MOST_SCRIPT_BYTES};
ghost use Rattle.sql_lex.specs.Words.{AreWords};
ghost use Rattle.sql_grammar.specs.Faults.{terminals};
ghost use Rattle.heap.specs.Stored.{Stored};
ghost use Rattle.sql_query.specs.Worlds.{world};
ghost use Rattle.group_reply.specs.reply_Putting.{HasWriteCause};
ghost use Rattle.group_reply.specs.reply_Replies.{traces};
ghost use Rattle.statements.specs.work.Claims.{IsOrder, IsPlace, world_at};
ghost use Rattle.statements.specs.work.Ending.{end_of_broken};
ghost use Rattle.statements.specs.work.Steps.{Refuses, begins_use};
ghost use Rattle.statements.specs.work.Places.{IsAnsweredAt, StopsAnswerAt};

use crate::claims::{Claim, Given, read_claim};
use crate::end::End;
use catalog::Catalog;
use group_reply::reply::{Broken, Setting};
use heap::Counters;
use pg_base::{Sink, Steps};
use plan_reply::{Told, answer_told, judge_text};
use sql_lex::Tokens;
use sql_query::Prepared;
use std::alloc::Global;
use store::Store;

/// The tokens of a statement that asks for rows or a plan, and the store of the catalogue over which it is answered.
#[derive(Drop)]
pub(crate) struct Place<'a, C: Counters> {
    pub(crate) alloc: Global,
    pub(crate) text: &'a [u8],
    pub(crate) tokens: &'a Tokens,
    pub(crate) catalog: &'a Catalog,
    pub(crate) store: &'a Store<C>,
}

/// A USE PLAN that is read: its query, where the bytes of its plan begin and end, what is to be printed of them, and the offset
/// after the line that ends them.
#[derive(Drop)]
pub(crate) struct Order {
    pub(crate) query: Prepared,
    pub(crate) start: u32,
    pub(crate) end: u32,
    pub(crate) told: Told,
    pub(crate) next: u32,
}

/// What is to be printed of the plan behind the USE PLAN of these tokens.
pub(crate) fn judged(
    alloc: Global,
    text: &[u8],
    tokens: &Tokens,
    catalog: &Catalog,
) -> Result<Order, End>
    requires short { length text.now ≤ MOST_SCRIPT_BYTES }
    requires words { (from : ℕ) × AreWords text.now from tokens.now }
    requires opens { begins_use (terminals text.now tokens.now) ≡ true }
    ensures ordered { (stored : List Stored) →
        IfOk result (λ o. IsOrder (world catalog.now stored) text.now tokens.now o) }
    ensures refused { (stored : List Stored) →
        IfErr result (λ e. Refuses e (world catalog.now stored) text.now tokens.now 0 0) }
{
    let Claim {
        query,
        start,
        end,
        next,
    } = read_claim(alloc, text, tokens, catalog, Given::Plan)?;
    let block = &text[start as usize..end as usize];
    let told = judge_text(alloc, catalog, &query, block)?;
    Ok(Order {
        query,
        start,
        end,
        told,
        next,
    })
}

/// Answers the USE PLAN of these tokens, and gives the offset after the line `\.` that ends its plan: prints the answer by that
/// plan, or the line with the reason for which it is not run. Such a line ends nothing. It is no fault that the SELECT has no
/// admissible plan.
pub(crate) fn follow<C: Counters, K: Sink>(
    at: &Place<C>,
    out: &mut K,
    fetches: &mut Steps<C::Fetches>,
    reads: &mut Steps<C::Looks>,
) -> Result<u32, End>
    requires place { IsPlace at.now }
    requires opens { begins_use (terminals at.now.text.now at.now.tokens.now) ≡ true }
    ensures answered { IfOk result (λ next. IsAnsweredAt at.now next
        (traces (K.held out.old) fetches.old reads.old)
        (traces (K.held out.new) fetches.new reads.new)) }
    ensures stopped { IfErr result (λ e. StopsAnswerAt e at.now
        (traces (K.held out.old) fetches.old reads.old)
        (traces (K.held out.new) fetches.new reads.new)) }
    ensures cause { HasWriteCause End.Write (K.faults out.old) (K.faults out.new) result }
{
    let order = judged(at.alloc, at.text, at.tokens, at.catalog)?;
    print_told(at, &order, out, fetches, reads)
}

/// Prints the judgement of the lines behind a USE PLAN that is read.
fn print_told<C: Counters, K: Sink>(
    at: &Place<C>,
    order: &Order,
    out: &mut K,
    fetches: &mut Steps<C::Fetches>,
    reads: &mut Steps<C::Looks>,
) -> Result<u32, End>
    requires place { IsPlace at.now }
    requires ordered { IsOrder (world_at at.now) at.now.text.now at.now.tokens.now order.now }
    ensures answered { IfOk result (λ next. IsAnsweredAt at.now next
        (traces (K.held out.old) fetches.old reads.old)
        (traces (K.held out.new) fetches.new reads.new)) }
    ensures stopped { IfErr result (λ e. StopsAnswerAt e at.now
        (traces (K.held out.old) fetches.old reads.old)
        (traces (K.held out.new) fetches.new reads.new)) }
    ensures cause { HasWriteCause End.Write (K.faults out.old) (K.faults out.new) result }
{
    let block = &at.text[order.start as usize..order.end as usize];
    let asked = Setting {
        alloc: at.alloc,
        cat: at.catalog,
        q: &order.query,
        store: at.store,
    };
    match answer_told(&asked, &order.told, block, out, fetches, reads) {
        Ok(()) => Ok(order.next),
        Err(broken) => Err(broken_off(broken)),
    }
}

/// How a reply that was not written whole ends its step.
fn broken_off(broken: Broken) -> End
    ensures { result ≡ end_of_broken broken }
{
    match broken {
        Broken::Write => End::Write,
        Broken::Memory => End::Memory,
    }
}
