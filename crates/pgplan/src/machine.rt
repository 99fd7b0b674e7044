//! The script machine: what is stored, and one statement after another worked on it.

ghost use Rattle.std.specs.Prelude.{◌≡◌, ◌≤◌, ◌^◌, ◌<◌, IfErr, IfOk, OnErr, length};
ghost use Rattle.pg_base.specs.declared.limits.TheConstants.{MOST_SCRIPT_BYTES};
ghost use Rattle.sql_query.specs.Worlds.{empty_world};
ghost use Rattle.statements.specs.reply_Putting.{HasWriteCause};
ghost use Rattle.statements.specs.reply_Replies.{traces};
ghost use Rattle.statements.specs.Steps.{Advances, Stops};
ghost use Rattle.statements.specs.work.Steps.{StopsTally, Tallies};

use catalog::Catalog;
use heap::Counters;
use pg_base::{Sink, Steps};
use sql_lex::lex_statement;
use statements::{End, Tallied, carry_out, reply_to, tally_reply};
use std::alloc::Global;
use std::marker::Model;
use store::Store;

/// The tables and indexes that a script has made, with the tables' rows and the built indexes, each with exactly its entries
/// over the rows. Contracts see a `World`.
#[derive(Drop)]
pub struct Machine<C: Counters> {
    alloc: Global,
    catalog: Catalog,
    store: Store<C>,
}

impl<C: Counters> Model for Machine<C> {
    ghost use Rattle.std.specs.Coded.{codes};
    ghost use Rattle.pg_expr.specs.work.CondCode.{cond_code};
    ghost use Rattle.sql_query.specs.Worlds.{World, world};
    ghost use Rattle.store.specs.work.Kept.{IsStoreOf};

    ghost Value = { World };

    ghost coded = { Prim.hlevel (codes, cond_code (Prim.hlevel codes)) };

    ghost view = { λ m. world m.catalog m.store.stored };

    ghost invariant = { λ m. IsStoreOf m.catalog m.store };
}

impl<C: Counters> Machine<C> {
    /// A machine without tables.
    pub fn new(alloc: Global) -> Machine<C>
        ensures { result ≡ empty_world }
    {
        Machine {
            alloc,
            catalog: Catalog::new(alloc),
            store: Store::new(alloc),
        }
    }

    /// The definitions of the tables.
    pub(crate) fn catalog(&self) -> &Catalog
        ensures { result.now ≡ self.now.contents }
    {
        &self.catalog
    }

    /// Works the statement that begins at the byte offset `at` and gives the offset after it. Its reply, if it has one, is
    /// written to `out` before that. `fetches` counts the rows that are fetched, and `reads` the entries and rows already found
    /// that are looked at, and the rows that indexes are built over and that statistics are gathered from. The text has at most
    /// `MOST_SCRIPT_BYTES` bytes, and `at` is at most its length.
    ///
    /// The refusal is the statement's first fault, of its words, its syntax, its names, its limits, its data, of the catalogue,
    /// that it has no admissible plan, or, of ADVISE, no advice; or a failed out, or out of memory. The machine is then as
    /// before, and with a fault nothing was written.
    pub fn step<K: Sink>(
        &mut self,
        text: &[u8],
        at: u32,
        out: &mut K,
        fetches: &mut Steps<C::Fetches>,
        reads: &mut Steps<C::Looks>,
    ) -> Result<u32, End>
        requires short { length text.now ≤ MOST_SCRIPT_BYTES }
        requires within { at ≤ length text.now }
        ensures done { IfOk result (λ next. Advances self.old self.new text.now at next
            (traces (K.held out.old) fetches.old reads.old)
            (traces (K.held out.new) fetches.new reads.new)) }
        ensures stopped { IfErr result (λ e. Stops e self.old text.now at
            (traces (K.held out.old) fetches.old reads.old)
            (traces (K.held out.new) fetches.new reads.new)) }
        ensures unchanged { OnErr result (self.new ≡ self.old) }
        ensures cause { HasWriteCause End.Write (K.faults out.old) (K.faults out.new) result }
        ensures ahead { IfOk result (λ next. at < length text.now → at < next) }
        ensures inside { IfOk result (λ next. next ≤ length text.now) }
    {
        let tokens = lex_statement(self.alloc, text, at)?;
        match carry_out(
            self.alloc,
            text,
            &tokens,
            &mut self.catalog,
            &mut self.store,
            reads,
        ) {
            Ok(None) => reply_to(
                self.alloc,
                text,
                &tokens,
                &self.catalog,
                &self.store,
                out,
                fetches,
                reads,
            ),
            Ok(Some(next)) => Ok(next),
            Err(end) => Err(end),
        }
    }

    /// Works the statement that begins at the byte offset `at` as `step` does, and prints nothing: gives the offset after it
    /// and, of a query that is asked, the number of rows and the price of its answer in place of that answer. The refusal is
    /// the statement's first fault or out of memory, and the machine is then as before.
    pub(crate) fn tally(
        &mut self,
        text: &[u8],
        at: u32,
        fetches: &mut Steps<C::Fetches>,
        reads: &mut Steps<C::Looks>,
    ) -> Result<Tallied, End>
        requires short { length text.now ≤ MOST_SCRIPT_BYTES }
        requires within { at ≤ length text.now }
        ensures done { IfOk result (λ t. Tallies self.old self.new text.now at t.next t.measured) }
        ensures stopped { IfErr result (λ e. StopsTally e self.old text.now at) }
        ensures unchanged { OnErr result (self.new ≡ self.old) }
        ensures ahead { IfOk result (λ t. at < length text.now → at < t.next) }
        ensures inside { IfOk result (λ t. t.next ≤ length text.now) }
    {
        let words = lex_statement(self.alloc, text, at)?;
        match carry_out(
            self.alloc,
            text,
            &words,
            &mut self.catalog,
            &mut self.store,
            reads,
        ) {
            Ok(None) => tally_reply(
                self.alloc,
                text,
                &words,
                &self.catalog,
                &self.store,
                fetches,
                reads,
            ),
            Ok(Some(next)) => Ok(Tallied {
                next,
                measured: None,
            }),
            Err(end) => Err(end),
        }
    }
}
