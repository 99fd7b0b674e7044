//! Scans of B-tree indexes.

ghost use Rattle.std.specs.Prelude.{◌≡◌, ◌+◌, option_map};
ghost use Rattle.scan_exec.specs.Coming.{is_given, owed};
ghost use Rattle.scan_exec.specs.work.Coming.{looks_allowed, behind, first_given};
ghost use Rattle.scan_exec.specs.work.Kinds.{AreReadyCovers, AreReadyEntries, covered_rows, rows_of_entries};

use btree_index::Cursor;
use catalog::IndexDef;
use heap::{Counters, Heap};
use pg_base::{Steps, Tid};
use pg_expr::Expr;
use scan_probes::{Beside, Given, pass_entry, pass_row};
use std::marker::Model;

/// A scan of a B-tree: each entry that its cursor gives is tested, where it passes its row is fetched, and that is given where
/// the clauses are True. Contracts see the rows that it has still to come to.
pub struct IndexRows<'a, C: Counters> {
    beside: Beside<'a>,
    given: Given<'a>,
    tests: Vec<&'a Expr>,
    clauses: Vec<&'a Expr>,
    def: &'a IndexDef,
    cursor: Cursor<'a, C::Looks>,
    heap: &'a Heap<C>,
}

impl<'a, C: Counters> Drop for IndexRows<'a, C> {
    fn drop(self) {
        let IndexRows {
            beside: _,
            given: _,
            tests: _,
            clauses: _,
            def: _,
            cursor: _,
            heap: _,
        } = self;
    }
}

impl<'a, C: Counters> Model for IndexRows<'a, C> {
    ghost use Rattle.std.specs.Prelude.{List, All, map};
    ghost use Rattle.catalog.specs.work.Entries.{index_of};
    ghost use Rattle.scan_probes.specs.work.Filters.{lent_conditions};
    ghost use Rattle.scan_exec.specs.Coming.{Coming};
    ghost use Rattle.scan_exec.specs.work.Kinds.{IsReadyEntry, entry_at};

    ghost Value = { List Coming };

    ghost view = { λ s. map (entry_at s.beside.rel.0 s.given (lent_conditions s.tests.items) (lent_conditions s.clauses.items) (index_of s.def.now) s.heap.now.rows) s.cursor };

    ghost invariant = { λ s. All (IsReadyEntry s.beside.cat.now s.beside.range.now s.beside.rel.0 s.given (lent_conditions s.tests.items) (lent_conditions s.clauses.items) (index_of s.def.now) s.heap.now.rows) s.cursor };
}

impl<'a, C: Counters> IndexRows<'a, C> {
    /// A scan of the entries of a cursor.
    pub fn start(
        beside: Beside<'a>,
        given: Given<'a>,
        tests: Vec<&'a Expr>,
        clauses: Vec<&'a Expr>,
        def: &'a IndexDef,
        cursor: Cursor<'a, C::Looks>,
        heap: &'a Heap<C>,
    ) -> IndexRows<'a, C>
        requires { AreReadyEntries beside given tests.items clauses.items
            def.now heap.now cursor }
        ensures { result ≡
            rows_of_entries beside.entry given.entry tests.entry.items clauses.entry.items
            def.now heap.now cursor.entry }
    {
        IndexRows {
            beside,
            given,
            tests,
            clauses,
            def,
            cursor,
            heap,
        }
    }

    /// The next row that is given. Up to and with that one, each entry that the scan comes to is one look, and the row of each
    /// that passes the tests one fetch.
    pub fn next(
        &mut self,
        fetches: &mut Steps<C::Fetches>,
        reads: &mut Steps<C::Looks>,
    ) -> Option<Tid>
        ensures row { option_map (λ t. t.0) result ≡ first_given self.old }
        ensures rest { self.new ≡ behind is_given self.old }
        ensures exact { fetches.new + owed self.new ≡ fetches.old + owed self.old }
        ensures looked { reads.new + looks_allowed self.new ≡ reads.old + looks_allowed self.old }
    {
        while let Some(entry) = self.cursor.next(reads) {
            if pass_entry(&self.beside, &self.given, &self.tests, self.def, &entry) {
                let tid = entry.tid();
                let row = self.heap.fetch(tid, fetches);
                if pass_row(&self.beside, &self.given, &self.clauses, row) {
                    return Some(tid);
                }
            }
        }
        None
    }
}

/// A scan of a B-tree that takes all columns from the entries, so that no row is fetched: each entry that its cursor gives is
/// tested, and its row given where the clauses are True there too. Contracts see the rows that it has still to come to.
pub struct OnlyRows<'a, C: Counters> {
    beside: Beside<'a>,
    given: Given<'a>,
    tests: Vec<&'a Expr>,
    clauses: Vec<&'a Expr>,
    def: &'a IndexDef,
    cursor: Cursor<'a, C::Looks>,
}

impl<'a, C: Counters> Drop for OnlyRows<'a, C> {
    fn drop(self) {
        let OnlyRows {
            beside: _,
            given: _,
            tests: _,
            clauses: _,
            def: _,
            cursor: _,
        } = self;
    }
}

impl<'a, C: Counters> Model for OnlyRows<'a, C> {
    ghost use Rattle.std.specs.Prelude.{List, All, map};
    ghost use Rattle.catalog.specs.work.Entries.{index_of};
    ghost use Rattle.scan_probes.specs.work.Filters.{lent_conditions};
    ghost use Rattle.scan_exec.specs.Coming.{Coming};
    ghost use Rattle.scan_exec.specs.work.Kinds.{IsReadyCover, covered_at};

    ghost Value = { List Coming };

    ghost view = { λ s. map (covered_at s.beside.rel.0 s.given (lent_conditions s.tests.items) (lent_conditions s.clauses.items) (index_of s.def.now)) s.cursor };

    ghost invariant = { λ s. All (IsReadyCover s.beside.cat.now s.beside.range.now s.beside.rel.0 s.given (lent_conditions s.tests.items) (lent_conditions s.clauses.items) (index_of s.def.now)) s.cursor };
}

impl<'a, C: Counters> OnlyRows<'a, C> {
    /// A scan of the entries of a cursor.
    pub fn start(
        beside: Beside<'a>,
        given: Given<'a>,
        tests: Vec<&'a Expr>,
        clauses: Vec<&'a Expr>,
        def: &'a IndexDef,
        cursor: Cursor<'a, C::Looks>,
    ) -> OnlyRows<'a, C>
        requires { AreReadyCovers beside given tests.items clauses.items def.now cursor }
        ensures { result ≡
            covered_rows beside.entry given.entry tests.entry.items clauses.entry.items
            def.now cursor.entry }
    {
        OnlyRows {
            beside,
            given,
            tests,
            clauses,
            def,
            cursor,
        }
    }

    /// The next row that is given. Up to and with that one, each entry that the scan comes to is one look.
    pub fn next(&mut self, reads: &mut Steps<C::Looks>) -> Option<Tid>
        ensures row { option_map (λ t. t.0) result ≡ first_given self.old }
        ensures rest { self.new ≡ behind is_given self.old }
        ensures unfetched { owed self.new ≡ owed self.old }
        ensures looked { reads.new + looks_allowed self.new ≡ reads.old + looks_allowed self.old }
    {
        while let Some(entry) = self.cursor.next(reads) {
            if pass_entry(&self.beside, &self.given, &self.tests, self.def, &entry)
                && pass_entry(&self.beside, &self.given, &self.clauses, self.def, &entry)
            {
                return Some(entry.tid());
            }
        }
        None
    }
}
