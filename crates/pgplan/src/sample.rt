//! `pgplan sample N`: a script made from a number, worked, and summed up in a line.

ghost use Rattle.std.specs.Prelude.{◌≡◌, ◌≤◌, ◌<◌, IfErr, OnOk, length};
ghost use Rattle.pg_base.specs.declared.limits.TheConstants.{MOST_SCRIPT_BYTES};
ghost use Rattle.statements.specs.reply_Putting.{HasWriteCause};
ghost use Rattle.pgplan.specs.Script.{script};
ghost use Rattle.sql_query.specs.Worlds.{empty_world};
ghost use Rattle.pgplan.specs.work.Runs.{HasStatusCause};
ghost use Rattle.pgplan.specs.Summaries.{IsSummedUp};
ghost use Rattle.pgplan.specs.work.Summaries.{EndsUnsummed, IsSumOver};

use crate::machine::Machine;
use crate::sample_script;
use crate::status::Status;
use crate::top::{close, tell};
use crate::totals::{sum_up, summary_line};
use heap::{Counters, Counting};
use pg_base::{Sink, Steps, write_all};
use statements::End;
use std::alloc::Global;
use std::marker::Brand;
use std::sync::ledger::{Blank, Ledger};

/// Works the script of a number and prints what its queries come to, and answers the status.
pub(crate) fn sample<K: Sink, E: Sink>(alloc: Global, n: u64, out: &mut K, errors: &mut E) -> u8
    ensures sums { IsSumOver result (script n) (K.held out.old) (K.held out.new)
        (E.held errors.old) (E.held errors.new) (E.faults errors.old) (E.faults errors.new) }
    ensures cause { HasStatusCause result (K.faults out.old) (K.faults out.new) }
{
    match sample_script(alloc, n) {
        Ok(text) => summarize(alloc, &text, out, errors),
        Err(_) => tell(errors, Status::Memory),
    }
}

/// Works the statements of the text and prints what its queries come to, and answers the status.
fn summarize<K: Sink, E: Sink>(alloc: Global, text: &[u8], out: &mut K, errors: &mut E) -> u8
    requires short { length text.now ≤ MOST_SCRIPT_BYTES }
    ensures sums { IsSumOver result text.now (K.held out.old) (K.held out.new)
        (E.held errors.old) (E.held errors.new) (E.faults errors.old) (E.faults errors.new) }
    ensures cause { HasStatusCause result (K.faults out.old) (K.faults out.new) }
{
    summed::<Brand, Brand, K, E>(alloc, Blank::new(1), Blank::new(1), text, out, errors)
}

/// Works the statements of the text with counters of any ledgers, prints what its queries come to, and answers the status.
fn summed<L: Ledger, M: Ledger, K: Sink, E: Sink>(
    alloc: Global,
    fetching: Blank,
    reading: Blank,
    text: &[u8],
    out: &mut K,
    errors: &mut E,
) -> u8
    requires name { fetching.name ≡ L.name }
    requires parts { fetching.parts ≡ L.parts }
    requires some { 0 < fetching.parts }
    requires other_name { reading.name ≡ M.name }
    requires other_parts { reading.parts ≡ M.parts }
    requires some_too { 0 < reading.parts }
    requires short { length text.now ≤ MOST_SCRIPT_BYTES }
    ensures sums { IsSumOver result text.now (K.held out.old) (K.held out.new)
        (E.held errors.old) (E.held errors.new) (E.faults errors.old) (E.faults errors.new) }
    ensures cause { HasStatusCause result (K.faults out.old) (K.faults out.new) }
{
    let mut machine = Machine::<Counting<L, M>>::new(alloc);
    let mut fetches = Steps::<L>::new(fetching);
    let mut reads = Steps::<M>::new(reading);
    let ended = print_summary(alloc, &mut machine, text, out, &mut fetches, &mut reads);
    close(machine.catalog(), text, &ended, errors)
}

/// Works all statements of the text by a machine without tables, and prints what its queries come to. Nothing is written before
/// all of them are worked.
fn print_summary<C: Counters, K: Sink>(
    alloc: Global,
    machine: &mut Machine<C>,
    text: &[u8],
    out: &mut K,
    fetches: &mut Steps<C::Fetches>,
    reads: &mut Steps<C::Looks>,
) -> Result<(), End>
    requires new { machine.old ≡ empty_world }
    requires short { length text.now ≤ MOST_SCRIPT_BYTES }
    ensures done { OnOk result (IsSummedUp text.now (K.held out.old) (K.held out.new)) }
    ensures ended { IfErr result (λ e.
        EndsUnsummed e text.now machine.new (K.held out.old) (K.held out.new)) }
    ensures cause { HasWriteCause End.Write (K.faults out.old) (K.faults out.new) result }
{
    let totals = sum_up(machine, text, fetches, reads)?;
    let line = summary_line(alloc, totals)?;
    match write_all(out, &line) {
        Ok(()) => Ok(()),
        Err(_) => Err(End::Write),
    }
}
