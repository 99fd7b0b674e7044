//! The top call: words, reading, the statements, and the line on errors.

ghost use Rattle.std.specs.Prelude.{◌≡◌, ◌≢◌, ◌⊎◌, ◌↔◌, ◌≤◌, ◌<◌, ℕ, List, IfErr, IsTrue, map, length, Some};
ghost use Rattle.std.specs.String.{string_bytes};
ghost use Rattle.pg_base.specs.Causes.{Rose};
ghost use Rattle.pg_base.specs.Reading.{ConsumesUpTo};
ghost use Rattle.pg_base.specs.declared.limits.TheConstants.{MOST_SCRIPT_BYTES};
ghost use Rattle.pgplan.specs.Commands.{AreNoCommand, AreRunWords, AreSampleWords};
ghost use Rattle.pgplan.specs.Script.{script};
ghost use Rattle.pgplan.specs.Runs.{AnswersAll, CutsOff, HasNoFault, IsCutShort, IsTooLong, ReachesFault, RunsOut, TellsFault};
ghost use Rattle.pgplan.specs.work.Runs.{HasStatusCause, IsRunOver};
ghost use Rattle.pgplan.specs.Statuses.{IsTold, IsWorkStatus, line_of};
ghost use Rattle.pgplan.specs.work.Statuses.{line_of_work, number_of, status_of_work};
ghost use Rattle.statements.specs.work.Steps.{HasField};
ghost use Rattle.pgplan.specs.Summaries.{IsSummedInPart, IsSummedUp, TellsFaultAlone};

use crate::machine::Machine;
use crate::sample::sample;
use crate::status::Status;
use crate::work::work;
use crate::{Command, read_command};
use catalog::Catalog;
use heap::Counting;
use pg_base::{MOST_SCRIPT_BYTES, Sink, Source, Steps, read_all, write_all};
use reply_text::write_fault;
use statements::End;
use std::alloc::Global;
use std::marker::Brand;
use std::sync::ledger::{Blank, Ledger};

/// Does all that the program does and returns the exit status: 0 if everything was read, answered and written; 1 if the
/// words are no command; 2 if the source failed; 3 if a statement has a fault; 4 if the output failed; 5 if memory ran
/// out; 6 if the source gave more bytes than a script may have. A status other than 0 writes its line to `errors`.
///
/// The word `run` carries out a script, once it is read to its end. A SELECT that does not group prints a plan of the written
/// plan space at its own costs that no admissible plan undercuts in price. Its rows are, in order, the LIMIT and OFFSET window
/// of those that this plan gives, which as a bag, before the window, are the query's meaning in three-valued logic, in its
/// ORDER BY. A SELECT that groups, also by DISTINCT, prints a plan that groups, which no other such plan undercuts, and a line
/// for each group. EXPLAIN prints such a plan alone. EXPLAIN (TABLE) prints it with a certificate of which it is the best plan.
/// CHECK prints whether a certificate, whoever made it, is a table of its query, or the first reason why it is none. USE PLAN
/// answers its query by the plan that is written out, or prints the first reason why it cannot. ADVISE prints which of its
/// candidate indexes, at most so many, to create so that the least prices of its queries have the least sum, and that sum, and
/// creates none. Definitions, COPY, STATISTICS and ANALYZE print nothing. A statement is rejected only for the fault that is
/// named, which may be that no plan is admissible or that there is no advice, or because memory ran out.
///
/// The word `sample` with a number reads nothing and carries out the script of that number. At the end it prints one line: how
/// many queries the script asks, how many rows their answers have together, and the sum of the least prices of their plans.
pub fn pgplan<S: Source, K: Sink, E: Sink>(
    alloc: Global,
    words: &[String],
    source: &mut S,
    out: &mut K,
    errors: &mut E,
) -> u8
    ensures statuses { result ≤ 6 }

    // With the word `run`: what was read, what out gained, and of which statement's fault errors tells.
    ensures answered { AreRunWords words.now → result ≡ 0 →
        AnswersAll (S.left source.old) (S.left source.new) (K.held out.old) (K.held out.new) }
    ensures refused { AreRunWords words.now → result ≡ 3 →
        TellsFault (S.left source.old) (S.left source.new) (K.held out.old) (K.held out.new)
        (E.held errors.old) (E.held errors.new) (E.faults errors.old) (E.faults errors.new) }
    ensures cut_off { AreRunWords words.now → result ≡ 4 →
        CutsOff (S.left source.old) (S.left source.new) (K.held out.old) (K.held out.new) }
    ensures out_of_memory { AreRunWords words.now → result ≡ 5 →
        RunsOut (S.left source.old) (S.left source.new) (K.held out.old) (K.held out.new) }
    ensures read_in_part { result ≡ 2 →
        ConsumesUpTo (S.left source.old) (S.left source.new) MOST_SCRIPT_BYTES }
    ensures too_long { result ≡ 6 → IsTooLong (S.left source.old) (S.left source.new) }
    ensures unread { result ≡ 1 → S.left source.new ≡ S.left source.old }
    ensures unwritten { (result ≡ 1) ⊎ ((result ≡ 2) ⊎ (result ≡ 6)) →
        K.held out.new ≡ K.held out.old }

    // With the word `sample` and a number: nothing is read; what out gained, and of which statement's fault errors tells.
    ensures sample_statuses { (n : ℕ) → AreSampleWords n words.now → IsWorkStatus result }
    ensures summed { (n : ℕ) → AreSampleWords n words.now → result ≡ 0 →
        IsSummedUp (script n) (K.held out.old) (K.held out.new) }
    ensures sample_refused { (n : ℕ) → AreSampleWords n words.now → result ≡ 3 →
        TellsFaultAlone (script n) (K.held out.old) (K.held out.new)
        (E.held errors.old) (E.held errors.new) (E.faults errors.old) (E.faults errors.new) }
    ensures sample_cut_off { (n : ℕ) → AreSampleWords n words.now → result ≡ 4 →
        IsSummedInPart (script n) (K.held out.old) (K.held out.new) }
    ensures sample_out_of_memory { (n : ℕ) → AreSampleWords n words.now → result ≡ 5 →
        K.held out.new ≡ K.held out.old }
    ensures sample_reads_nothing { (n : ℕ) → AreSampleWords n words.now →
        S.left source.new ≡ S.left source.old }

    // The cause of each status, and that no fault of the outside is passed over.
    ensures usage { (result ≡ 1) ↔ AreNoCommand (map string_bytes words.now) }
    ensures read_fault { result ≡ 2 → Rose (S.faults source.old) (S.faults source.new) }
    ensures write_fault { result ≡ 4 → Rose (K.faults out.old) (K.faults out.new) }
    ensures quiet_source { (result ≡ 2 → ⊥) → S.faults source.new ≡ S.faults source.old }
    ensures quiet_out { (result ≡ 4 → ⊥) → K.faults out.new ≡ K.faults out.old }

    // Where the source tells a text that is no longer than a script may be, the text decides between 0 and 3, unless the
    // outside fails or memory runs out; and a longer text is refused.
    ensures complete { (text : List ℕ) → AreRunWords words.now →
        S.left source.old ≡ Some text → length text ≤ MOST_SCRIPT_BYTES →
        HasNoFault text → (result ≡ 0) ⊎ IsCutShort result }
    ensures reached { (text : List ℕ) → AreRunWords words.now →
        S.left source.old ≡ Some text → length text ≤ MOST_SCRIPT_BYTES →
        ReachesFault text → (result ≡ 3) ⊎ IsCutShort result }
    ensures longer { (text : List ℕ) → AreRunWords words.now →
        S.left source.old ≡ Some text → MOST_SCRIPT_BYTES < length text →
        (result ≡ 6) ⊎ ((result ≡ 2) ⊎ (result ≡ 5)) }

    // The script of a number decides between 0 and 3, unless out fails or memory runs out.
    ensures sample_complete { (n : ℕ) → AreSampleWords n words.now → HasNoFault (script n) →
        (result ≡ 0) ⊎ ((result ≡ 4) ⊎ (result ≡ 5)) }
    ensures sample_reached { (n : ℕ) → AreSampleWords n words.now → ReachesFault (script n) →
        (result ≡ 3) ⊎ (result ≡ 5) }

    // The status's line on errors, where no statement has a fault: a prefix of it, and all of it where errors did not fail.
    ensures line { result ≢ 3 → IsTold (E.held errors.old) (E.held errors.new)
        (E.faults errors.old) (E.faults errors.new) (line_of result) }
{
    match read_command(words) {
        None => tell(errors, Status::Usage),
        Some(Command::Run) => run(alloc, source, out, errors),
        Some(Command::Sample(n)) => sample(alloc, n, out, errors),
    }
}

/// Reads the source and answers its statements, and answers the status.
fn run<S: Source, K: Sink, E: Sink>(
    alloc: Global,
    source: &mut S,
    out: &mut K,
    errors: &mut E,
) -> u8
    ensures statuses { (result ≡ 0) ⊎ ((2 ≤ result) × (result ≤ 6)) }
    ensures answered { result ≡ 0 →
        AnswersAll (S.left source.old) (S.left source.new) (K.held out.old) (K.held out.new) }
    ensures refused { result ≡ 3 →
        TellsFault (S.left source.old) (S.left source.new) (K.held out.old) (K.held out.new)
        (E.held errors.old) (E.held errors.new) (E.faults errors.old) (E.faults errors.new) }
    ensures cut_off { result ≡ 4 →
        CutsOff (S.left source.old) (S.left source.new) (K.held out.old) (K.held out.new) }
    ensures out_of_memory { result ≡ 5 →
        RunsOut (S.left source.old) (S.left source.new) (K.held out.old) (K.held out.new) }
    ensures read_in_part { result ≡ 2 →
        ConsumesUpTo (S.left source.old) (S.left source.new) MOST_SCRIPT_BYTES }
    ensures too_long { result ≡ 6 → IsTooLong (S.left source.old) (S.left source.new) }
    ensures unwritten { (result ≡ 2) ⊎ (result ≡ 6) → K.held out.new ≡ K.held out.old }
    ensures read_fault { result ≡ 2 → Rose (S.faults source.old) (S.faults source.new) }
    ensures write_fault { result ≡ 4 → Rose (K.faults out.old) (K.faults out.new) }
    ensures quiet_source { (result ≡ 2 → ⊥) → S.faults source.new ≡ S.faults source.old }
    ensures quiet_out { (result ≡ 4 → ⊥) → K.faults out.new ≡ K.faults out.old }
    ensures complete { (text : List ℕ) → S.left source.old ≡ Some text →
        length text ≤ MOST_SCRIPT_BYTES →
        HasNoFault text → (result ≡ 0) ⊎ IsCutShort result }
    ensures reached { (text : List ℕ) → S.left source.old ≡ Some text →
        length text ≤ MOST_SCRIPT_BYTES →
        ReachesFault text → (result ≡ 3) ⊎ IsCutShort result }
    ensures longer { (text : List ℕ) → S.left source.old ≡ Some text →
        MOST_SCRIPT_BYTES < length text → (result ≡ 6) ⊎ ((result ≡ 2) ⊎ (result ≡ 5)) }
    ensures line { result ≢ 3 → IsTold (E.held errors.old) (E.held errors.new)
        (E.faults errors.old) (E.faults errors.new) (line_of result) }
{
    match read_all(alloc, source, MOST_SCRIPT_BYTES) {
        Ok(text) => answer(alloc, &text, out, errors),
        Err(fault) => tell(errors, Status::of_reading(&fault)),
    }
}

/// Writes the status's line and answers its number.
pub(crate) fn tell<E: Sink>(errors: &mut E, status: Status) -> u8
    ensures number { result ≡ number_of status }
    ensures line { IsTold (E.held errors.old) (E.held errors.new)
        (E.faults errors.old) (E.faults errors.new) (line_of (number_of status)) }
{
    let _ = write_all(errors, status.line());
    status.number()
}

/// Answers the statements of the text, and answers the status.
fn answer<K: Sink, E: Sink>(alloc: Global, text: &[u8], out: &mut K, errors: &mut E) -> u8
    requires short { length text.now ≤ MOST_SCRIPT_BYTES }
    ensures answers { IsRunOver result text.now (K.held out.old) (K.held out.new)
        (E.held errors.old) (E.held errors.new) (E.faults errors.old) (E.faults errors.new) }
    ensures cause { HasStatusCause result (K.faults out.old) (K.faults out.new) }
{
    counted::<Brand, Brand, K, E>(alloc, Blank::new(1), Blank::new(1), text, out, errors)
}

/// Answers the statements of the text with counters of any ledgers, and answers the status.
fn counted<L: Ledger, M: Ledger, K: Sink, E: Sink>(
    alloc: Global,
    fetching: Blank,
    reading: Blank,
    text: &[u8],
    out: &mut K,
    errors: &mut E,
) -> u8
    requires name { fetching.name ≡ L.name }
    requires parts { fetching.parts ≡ L.parts }
    requires some { 0 < fetching.parts }
    requires other_name { reading.name ≡ M.name }
    requires other_parts { reading.parts ≡ M.parts }
    requires some_too { 0 < reading.parts }
    requires short { length text.now ≤ MOST_SCRIPT_BYTES }
    ensures answers { IsRunOver result text.now (K.held out.old) (K.held out.new)
        (E.held errors.old) (E.held errors.new) (E.faults errors.old) (E.faults errors.new) }
    ensures cause { HasStatusCause result (K.faults out.old) (K.faults out.new) }
{
    let mut machine = Machine::<Counting<L, M>>::new(alloc);
    let mut fetches = Steps::<L>::new(fetching);
    let mut reads = Steps::<M>::new(reading);
    let ended = work(&mut machine, text, out, &mut fetches, &mut reads);
    close(machine.catalog(), text, &ended, errors)
}

/// Tells how the statements of the text ended, by the catalogue that is left, and answers the status.
pub(crate) fn close<E: Sink>(
    catalog: &Catalog,
    text: &[u8],
    ended: &Result<(), End>,
    errors: &mut E,
) -> u8
    requires field { IfErr ended.now (HasField catalog.now) }
    ensures number { result ≡ number_of (status_of_work ended.now) }
    ensures line { IsTold (E.held errors.old) (E.held errors.new)
        (E.faults errors.old) (E.faults errors.new) (line_of_work catalog.now text.now ended.now) }
{
    let status = Status::of_work(ended);
    if let Err(End::Fault(fault)) = ended {
        let _ = write_fault(errors, catalog, text, fault);
        return status.number();
    }
    tell(errors, status)
}
