//! SELECT, answered or measured, EXPLAIN and EXPLAIN (TABLE): of a SELECT that groups, and of any other.

ghost use Rattle.std.specs.Prelude.{◌≡◌, ◌≢◌, ◌≤◌, ◌<◌, ℕ, List, IfErr, IfOk, OnOk, length};
ghost use Rattle.pg_base.specs.declared.limits.TheConstants.{MOST_SCRIPT_BYTES};
ghost use Rattle.sql_lex.specs.Ends.{end_of, token_at as token_of_number};
ghost use Rattle.sql_lex.specs.Words.{AreWords};
ghost use Rattle.sql_grammar.specs.Faults.{terminals};
ghost use Rattle.heap.specs.Stored.{Stored};
ghost use Rattle.sql_query.specs.WellBound.{IsWellBound};
ghost use Rattle.sql_query.specs.Worlds.{world};
ghost use Rattle.plan_reply.specs.certificate_laws_Arms.{HasArmsInOrs};
ghost use Rattle.query_reader.specs.Select.{words_before};
ghost use Rattle.query_reader.specs.work.Select.{AreNoOther};
ghost use Rattle.group_query.specs.Grouping.{IsWellGrouped};
ghost use Rattle.group_reply.specs.group_explain_Plans.{HasNoGroupPlan};
ghost use Rattle.group_reply.specs.reply_Putting.{HasWriteCause};
ghost use Rattle.group_reply.specs.reply_Replies.{HasReplied, traces};
ghost use Rattle.group_reply.specs.reply_work_Replies.{Leaves};
ghost use Rattle.statements.specs.Accepted.{IsReadOver};
ghost use Rattle.statements.specs.work.Askings.{IsTallied};
ghost use Rattle.statements.specs.Faults.{IsFaultOver, no_plan};
ghost use Rattle.statements.specs.work.Claims.{world_at};
ghost use Rattle.statements.specs.work.Ending.{end_of_stop};
ghost use Rattle.statements.specs.work.Questions.{AreAnySelect, HasNoneOf, IsBoundTo, IsQuestion, action_of, asked_at, asked_of, groups_asked_at};
ghost use Rattle.statements.specs.Replies.{IsReply};
ghost use Rattle.statements.specs.work.Steps.{Refuses};
ghost use Rattle.statements.specs.work.Places.{IsAnsweredAt, IsTalliedAt, RefusesAt, StopsAnswerAt};
ghost use Rattle.plan_tree.specs.Least.{HasNoPlan};

use crate::end::End;
use crate::using::Place;
use catalog::Catalog;
use group_reader::{Selected, read_any};
use group_reply::group_explain::explain_groups;
use group_reply::reply::{Measured, Stop, answer, explain_query, measure};
use group_reply::{answer_groups, plan_groups};
use heap::Counters;
use pg_base::{Code, Fault, Sink, Steps};
use plan_reply::{explain_table, table_text};
use query_reader::{Wanted, explains, wants, words_by};
use sql_grammar::fault_at;
use sql_lex::{Token, Tokens};
use sql_query::{Grouped, Prepared};
use std::alloc::Global;
use store::Store;

/// The number of the token at which the SELECT of these tokens begins, where they are a SELECT of either form, EXPLAIN or
/// EXPLAIN (TABLE).
fn select_at(text: &[u8], tokens: &Tokens) -> u32
    requires short { length text.now ≤ MOST_SCRIPT_BYTES }
    requires words { (from : ℕ) × AreWords text.now from tokens.now }
    requires some { 1 < length tokens.now }
    ensures place { AreAnySelect text.now tokens.now →
        result ≡ words_before (terminals text.now tokens.now) }
    ensures within { result < length tokens.now }
{
    let first = words_by(wants(text, tokens));
    if (first as usize) < tokens.items().len() {
        first
    } else {
        0
    }
}

/// Reads the SELECT of these tokens, which are no definition and no empty statement.
fn read_query(
    alloc: Global,
    text: &[u8],
    tokens: &Tokens,
    catalog: &Catalog,
) -> Result<Selected, End>
    requires short { length text.now ≤ MOST_SCRIPT_BYTES }
    requires words { (from : ℕ) × AreWords text.now from tokens.now }
    requires some { 1 < length tokens.now }
    requires kind { AreNoOther text.now tokens.now }
    ensures bound { IfOk result (IsBoundTo catalog.now) }
    ensures select { IfOk result (λ s. AreAnySelect text.now tokens.now) }
    ensures read { (stored : List Stored) → IfOk result (λ s.
        IsReadOver (world catalog.now stored) text.now tokens.now
        (asked_of text.now tokens.now s) (end_of tokens.now)) }
    ensures unplanned { (stored : List Stored) → IfOk result (λ s.
        HasNoneOf catalog.now s →
        IsFaultOver (world catalog.now stored) text.now tokens.now (no_plan text.now tokens.now)) }
    ensures refused { (stored : List Stored) →
        IfErr result (λ e. Refuses e (world catalog.now stored) text.now tokens.now 0 0) }
{
    let first = select_at(text, tokens);
    let read = read_any(alloc, catalog, text, tokens, first)?;
    Ok(read)
}

/// The fault of a SELECT that has no admissible plan, at the word SELECT.
fn unplanned(text: &[u8], tokens: &Tokens) -> Fault
    requires short { length text.now ≤ MOST_SCRIPT_BYTES }
    requires words { (from : ℕ) × AreWords text.now from tokens.now }
    requires some { 1 < length tokens.now }
    requires select { AreAnySelect text.now tokens.now }
    ensures { result ≡ no_plan text.now tokens.now }
{
    let first = select_at(text, tokens);
    fault_at(Code::S16, token_at(tokens, first))
}

/// Answers a SELECT, or explains it, with its table or without, and gives the offset after it. That it has no admissible plan
/// is a fault at the word SELECT.
pub(crate) fn answer_query<C: Counters, K: Sink>(
    at: &Place<C>,
    out: &mut K,
    fetches: &mut Steps<C::Fetches>,
    reads: &mut Steps<C::Looks>,
) -> Result<u32, End>
    requires { IsQuestion at.now }
    ensures answered { IfOk result (λ next. IsAnsweredAt at.now next
        (traces (K.held out.old) fetches.old reads.old)
        (traces (K.held out.new) fetches.new reads.new)) }
    ensures stopped { IfErr result (λ e. StopsAnswerAt e at.now
        (traces (K.held out.old) fetches.old reads.old)
        (traces (K.held out.new) fetches.new reads.new)) }
    ensures cause { HasWriteCause End.Write (K.faults out.old) (K.faults out.new) result }
{
    let read = read_query(at.alloc, at.text, at.tokens, at.catalog)?;
    match print(at, read, out, fetches, reads) {
        Ok(()) => Ok(at.tokens.end()),
        Err(stop) => Err(stopped_at(stop, unplanned(at.text, at.tokens))),
    }
}

/// Plans and runs a SELECT, prints nothing, and gives what its answer comes to; nothing is given of one that is explained, and
/// of one that groups, which is planned alone. That it has no admissible plan is a fault at the word SELECT.
pub(crate) fn measure_query<C: Counters>(
    at: &Place<C>,
    fetches: &mut Steps<C::Fetches>,
    reads: &mut Steps<C::Looks>,
) -> Result<Option<Measured>, End>
    requires { IsQuestion at.now }
    ensures tallied { IfOk result (IsTalliedAt at.now) }
    ensures refused { IfErr result (λ e. RefusesAt e at.now) }
{
    let read = read_query(at.alloc, at.text, at.tokens, at.catalog)?;
    match count(at, read, fetches, reads) {
        Ok(measured) => Ok(measured),
        Err(stop) => Err(stopped_at(stop, unplanned(at.text, at.tokens))),
    }
}

/// What the answer to a SELECT comes to; nothing of one that groups.
fn count<C: Counters>(
    at: &Place<C>,
    read: Selected,
    fetches: &mut Steps<C::Fetches>,
    reads: &mut Steps<C::Looks>,
) -> Result<Option<Measured>, Stop>
    requires question { IsQuestion at.now }
    requires bound { IsBoundTo at.now.catalog.now read }
    ensures tallied { IfOk result (IsTallied (world_at at.now) (action_of at.now read)) }
    ensures no_plan { IfErr result (λ stop.
        stop ≡ Stop.NoPlan → HasNoneOf at.now.catalog.now read) }
    ensures unwritten { IfErr result (λ stop. stop ≢ Stop.Write) }
{
    match read {
        Selected::Plain(query) => count_rows(at, &query, fetches, reads),
        Selected::Grouped(query) => {
            plan_groups(at.alloc, at.catalog, query, at.store)?;
            Ok(None)
        }
    }
}

/// What the answer to a query comes to; nothing of one whose plan is asked for, alone or with its table.
fn count_rows<C: Counters>(
    at: &Place<C>,
    query: &Prepared,
    fetches: &mut Steps<C::Fetches>,
    reads: &mut Steps<C::Looks>,
) -> Result<Option<Measured>, Stop>
    requires question { IsQuestion at.now }
    requires bound { IsWellBound at.now.catalog.now query.now }
    requires arms { HasArmsInOrs query.now }
    ensures tallied { IfOk result (IsTallied (world_at at.now) (asked_at at.now query.now)) }
    ensures no_plan { IfErr result (λ stop.
        stop ≡ Stop.NoPlan → HasNoPlan at.now.catalog.now query.now) }
    ensures unwritten { IfErr result (λ stop. stop ≢ Stop.Write) }
{
    match wants(at.text, at.tokens) {
        Wanted::Rows => {
            let measured = measure(at.alloc, at.catalog, query, at.store, fetches, reads)?;
            Ok(Some(measured))
        }
        Wanted::Plan => {
            measure(at.alloc, at.catalog, query, at.store, fetches, reads)?;
            Ok(None)
        }
        Wanted::Table => {
            table_text(at.alloc, at.catalog, query)?;
            Ok(None)
        }
    }
}

/// Prints the answer to a SELECT, the plan alone where it is explained, or the plan with the table of it.
fn print<C: Counters, K: Sink>(
    at: &Place<C>,
    read: Selected,
    out: &mut K,
    fetches: &mut Steps<C::Fetches>,
    reads: &mut Steps<C::Looks>,
) -> Result<(), Stop>
    requires question { IsQuestion at.now }
    requires bound { IsBoundTo at.now.catalog.now read }
    ensures replied { OnOk result (HasReplied (IsReply (world_at at.now) (action_of at.now read))
        (traces (K.held out.old) fetches.old reads.old)
        (traces (K.held out.new) fetches.new reads.new)) }
    ensures stopped { IfErr result (λ stop.
        Leaves stop (IsReply (world_at at.now) (action_of at.now read))
        (traces (K.held out.old) fetches.old reads.old)
        (traces (K.held out.new) fetches.new reads.new)) }
    ensures no_plan { IfErr result (λ stop.
        stop ≡ Stop.NoPlan → HasNoneOf at.now.catalog.now read) }
    ensures cause { HasWriteCause Stop.Write (K.faults out.old) (K.faults out.new) result }
{
    match read {
        Selected::Plain(query) => print_rows(at, &query, out, fetches, reads),
        Selected::Grouped(query) => print_groups(at, query, out, fetches, reads),
    }
}

/// Prints the answer to a query, the plan alone where it is explained, or the plan with the table of it.
fn print_rows<C: Counters, K: Sink>(
    at: &Place<C>,
    query: &Prepared,
    out: &mut K,
    fetches: &mut Steps<C::Fetches>,
    reads: &mut Steps<C::Looks>,
) -> Result<(), Stop>
    requires question { IsQuestion at.now }
    requires bound { IsWellBound at.now.catalog.now query.now }
    requires arms { HasArmsInOrs query.now }
    ensures replied { OnOk result
        (HasReplied (IsReply (world_at at.now) (asked_at at.now query.now))
        (traces (K.held out.old) fetches.old reads.old)
        (traces (K.held out.new) fetches.new reads.new)) }
    ensures stopped { IfErr result (λ stop.
        Leaves stop (IsReply (world_at at.now) (asked_at at.now query.now))
        (traces (K.held out.old) fetches.old reads.old)
        (traces (K.held out.new) fetches.new reads.new)) }
    ensures no_plan { IfErr result (λ stop.
        stop ≡ Stop.NoPlan → HasNoPlan at.now.catalog.now query.now) }
    ensures cause { HasWriteCause Stop.Write (K.faults out.old) (K.faults out.new) result }
{
    match wants(at.text, at.tokens) {
        Wanted::Rows => answer(at.alloc, at.catalog, query, at.store, out, fetches, reads),
        Wanted::Plan => explain_query(at.alloc, at.catalog, query, out),
        Wanted::Table => explain_table(at.alloc, at.catalog, query, out),
    }
}

/// Prints the answer to a grouped query, or its plan alone where it is explained.
fn print_groups<C: Counters, K: Sink>(
    at: &Place<C>,
    query: Grouped,
    out: &mut K,
    fetches: &mut Steps<C::Fetches>,
    reads: &mut Steps<C::Looks>,
) -> Result<(), Stop>
    requires question { IsQuestion at.now }
    requires bound { IsWellGrouped at.now.catalog.now query }
    ensures replied { OnOk result
        (HasReplied (IsReply (world_at at.now) (groups_asked_at at.now query))
        (traces (K.held out.old) fetches.old reads.old)
        (traces (K.held out.new) fetches.new reads.new)) }
    ensures stopped { IfErr result (λ stop.
        Leaves stop (IsReply (world_at at.now) (groups_asked_at at.now query))
        (traces (K.held out.old) fetches.old reads.old)
        (traces (K.held out.new) fetches.new reads.new)) }
    ensures no_plan { IfErr result (λ stop.
        stop ≡ Stop.NoPlan → HasNoGroupPlan at.now.catalog.now query) }
    ensures cause { HasWriteCause Stop.Write (K.faults out.old) (K.faults out.new) result }
{
    if explains(at.text, at.tokens) {
        explain_groups(at.alloc, at.catalog, query, out)
    } else {
        answer_groups(at.alloc, at.catalog, query, at.store, out, fetches, reads)
    }
}

/// The token of a number.
pub(crate) fn token_at(tokens: &Tokens, n: u32) -> Token
    requires { n < length tokens.now }
    ensures { result ≡ token_of_number tokens.now n }
{
    tokens.items()[n as usize]
}

/// How a query that was not answered whole ends its step, where `unplanned` is the fault of one that has no plan.
fn stopped_at(stop: Stop, unplanned: Fault) -> End
    ensures { result ≡ end_of_stop stop unplanned }
{
    match stop {
        Stop::NoPlan => End::Fault(unplanned),
        Stop::Write => End::Write,
        Stop::Memory => End::Memory,
    }
}
