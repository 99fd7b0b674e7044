//! Scans of rows by their numbers: those of a value in a hash index, and those that a bitmap holds.

ghost use Rattle.std.specs.Prelude.{◌≡◌, ◌+◌, ◌≤◌, length, option_map};
ghost use Rattle.pg_base.specs.declared.limits.TheConstants.{MOST_ROWS};
ghost use Rattle.scan_exec.specs.Coming.{is_given, owed};
ghost use Rattle.scan_exec.specs.work.Coming.{looks_allowed, behind, first_given};
ghost use Rattle.scan_exec.specs.work.Kinds.{AreReadyNumbers, AreReadyRows, rows_of_set, rows_of_tids};

use heap::{Counters, Heap, Tids};
use pg_base::{Steps, Tid};
use pg_expr::Expr;
use scan_probes::{Beside, Given, pass_row};
use std::marker::Model;

/// A scan of the rows of a list of numbers, as a hash index has it for a value: each is fetched, and given where the clauses
/// are True. Contracts see the rows that it has still to come to.
pub struct HashRows<'a, C: Counters> {
    beside: Beside<'a>,
    given: Given<'a>,
    clauses: Vec<&'a Expr>,
    heap: &'a Heap<C>,
    tids: &'a [Tid],
}

impl<'a, C: Counters> Drop for HashRows<'a, C> {
    fn drop(self) {
        let HashRows {
            beside: _,
            given: _,
            clauses: _,
            heap: _,
            tids: _,
        } = self;
    }
}

impl<'a, C: Counters> Model for HashRows<'a, C> {
    ghost use Rattle.std.specs.Prelude.{List, All, map};
    ghost use Rattle.scan_probes.specs.work.Filters.{lent_conditions};
    ghost use Rattle.scan_exec.specs.Coming.{Coming};
    ghost use Rattle.scan_exec.specs.work.Kinds.{IsReadyNumber, rows_of};

    ghost Value = { List Coming };

    ghost view = { λ s. rows_of s.beside.rel.0 s.given (lent_conditions s.clauses.items) s.heap.now.rows (map (λ t. t.0) s.tids.now) };

    ghost invariant = { λ s. All (IsReadyNumber s.beside.cat.now s.beside.range.now s.beside.rel.0 s.given (lent_conditions s.clauses.items) s.heap.now.rows) (map (λ t. t.0) s.tids.now) };
}

impl<'a, C: Counters> HashRows<'a, C> {
    /// A scan of the rows of these numbers.
    pub fn start(
        beside: Beside<'a>,
        given: Given<'a>,
        clauses: Vec<&'a Expr>,
        heap: &'a Heap<C>,
        tids: &'a [Tid],
    ) -> HashRows<'a, C>
        requires { AreReadyNumbers beside given clauses.items heap.now.rows tids.now }
        ensures { result ≡
            rows_of_tids beside.entry given.entry clauses.entry.items heap.now tids.now }
    {
        HashRows {
            beside,
            given,
            clauses,
            heap,
            tids,
        }
    }

    /// The next row that is given. Each row that the scan comes to, up to and with that one, is fetched once.
    pub fn next(&mut self, fetches: &mut Steps<C::Fetches>) -> Option<Tid>
        ensures row { option_map (λ t. t.0) result ≡ first_given self.old }
        ensures rest { self.new ≡ behind is_given self.old }
        ensures exact { fetches.new + owed self.new ≡ fetches.old + owed self.old }
        ensures unlooked { looks_allowed self.new ≡ looks_allowed self.old }
    {
        while let Some((tid, left)) = self.tids.split_first() {
            self.tids = left;
            let row = self.heap.fetch(*tid, fetches);
            if pass_row(&self.beside, &self.given, &self.clauses, row) {
                return Some(*tid);
            }
        }
        None
    }
}

/// A scan of the rows that a bitmap holds, in order of loading: each is fetched, and given where the clauses are True.
/// Contracts see the rows that it has still to come to.
pub struct BitRows<'a, C: Counters> {
    beside: Beside<'a>,
    given: Given<'a>,
    clauses: Vec<&'a Expr>,
    heap: &'a Heap<C>,
    held: Tids,
    at: u32,
}

impl<'a, C: Counters> Drop for BitRows<'a, C> {
    fn drop(self) {
        let BitRows {
            beside: _,
            given: _,
            clauses: _,
            heap: _,
            held: _,
            at: _,
        } = self;
    }
}

impl<'a, C: Counters> Model for BitRows<'a, C> {
    ghost use Rattle.std.specs.Prelude.{List, All, ◌≡◌, ◌≤◌, length};
    ghost use Rattle.pg_base.specs.declared.limits.TheConstants.{MOST_ROWS};
    ghost use Rattle.heap.specs.work.TidSets.{not_below};
    ghost use Rattle.scan_probes.specs.work.Filters.{lent_conditions};
    ghost use Rattle.scan_probes.specs.work.Scenes.{AreReadyAtRow};
    ghost use Rattle.scan_exec.specs.Coming.{Coming};
    ghost use Rattle.scan_exec.specs.work.Kinds.{rows_of};

    ghost Value = { List Coming };

    ghost view = { λ s. rows_of s.beside.rel.0 s.given (lent_conditions s.clauses.items) s.heap.now.rows (not_below s.at s.held.members) };

    ghost invariant = { λ s. (s.held.bound ≡ length s.heap.now.rows) × (length s.heap.now.rows ≤ MOST_ROWS) × All (AreReadyAtRow s.beside.cat.now s.beside.range.now s.beside.rel.0 s.given (lent_conditions s.clauses.items)) s.heap.now.rows };
}

impl<'a, C: Counters> BitRows<'a, C> {
    /// A scan of the rows of a set of numbers.
    pub fn start(
        beside: Beside<'a>,
        given: Given<'a>,
        clauses: Vec<&'a Expr>,
        heap: &'a Heap<C>,
        held: Tids,
    ) -> BitRows<'a, C>
        requires bound { held.bound ≡ length heap.now.rows }
        requires few { length heap.now.rows ≤ MOST_ROWS }
        requires ready { AreReadyRows beside given clauses.items heap.now.rows }
        ensures { result ≡ rows_of_set beside.entry given.entry clauses.entry.items heap.now held }
    {
        BitRows {
            beside,
            given,
            clauses,
            heap,
            held,
            at: 0,
        }
    }

    /// The next row that is given. Each row that the scan comes to, up to and with that one, is fetched once.
    pub fn next(&mut self, fetches: &mut Steps<C::Fetches>) -> Option<Tid>
        ensures row { option_map (λ t. t.0) result ≡ first_given self.old }
        ensures rest { self.new ≡ behind is_given self.old }
        ensures exact { fetches.new + owed self.new ≡ fetches.old + owed self.old }
        ensures unlooked { looks_allowed self.new ≡ looks_allowed self.old }
    {
        while let Some(tid) = self.held.from(self.at) {
            self.at = tid.0 + 1;
            let row = self.heap.fetch(tid, fetches);
            if pass_row(&self.beside, &self.given, &self.clauses, row) {
                return Some(tid);
            }
        }
        None
    }
}
