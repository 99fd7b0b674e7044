//! Sequential scans.

ghost use Rattle.std.specs.Prelude.{◌≡◌, ◌+◌, IfOk, option_map};
ghost use Rattle.plan_tree.specs.Plans.{seq};
ghost use Rattle.scan_exec.specs.Coming.{is_given, owed};
ghost use Rattle.scan_exec.specs.work.Coming.{looks_allowed, behind, first_given};
ghost use Rattle.scan_exec.specs.work.Scene.{IsSceneOf};
ghost use Rattle.scan_exec.specs.work.Kinds.{AreReadyRows, rows_of_heap};
ghost use Rattle.scan_exec.specs.work.AtScene.{scene_coming};

use crate::scene::Scene;
use heap::{Counters, Heap};
use pg_base::{Memory, Steps, Tid};
use pg_expr::Expr;
use scan_probes::{Beside, Given, pass_row};
use std::marker::Model;

/// A sequential scan: each row of the relation in order of loading is fetched, and given where the clauses are True. Contracts
/// see the rows that it has still to come to.
pub struct SeqRows<'a, C: Counters> {
    beside: Beside<'a>,
    given: Given<'a>,
    clauses: Vec<&'a Expr>,
    heap: &'a Heap<C>,
    at: u32,
}

impl<'a, C: Counters> Drop for SeqRows<'a, C> {
    fn drop(self) {
        let SeqRows {
            beside: _,
            given: _,
            clauses: _,
            heap: _,
            at: _,
        } = self;
    }
}

impl<'a, C: Counters> Model for SeqRows<'a, C> {
    ghost use Rattle.std.specs.Prelude.{List, All, ◌≤◌, length};
    ghost use Rattle.scan_probes.specs.work.Filters.{lent_conditions};
    ghost use Rattle.scan_probes.specs.work.Scenes.{AreReadyAtRow};
    ghost use Rattle.scan_exec.specs.Coming.{Coming};
    ghost use Rattle.scan_exec.specs.work.Kinds.{rows_from};

    ghost Value = { List Coming };

    ghost view = { λ s. rows_from s.beside.rel.0 s.given (lent_conditions s.clauses.items) s.heap.now.rows s.at };

    ghost invariant = { λ s. (s.at ≤ length s.heap.now.rows) × All (AreReadyAtRow s.beside.cat.now s.beside.range.now s.beside.rel.0 s.given (lent_conditions s.clauses.items)) s.heap.now.rows };
}

impl<'a, C: Counters> SeqRows<'a, C> {
    /// A scan of a heap from its first row on.
    pub fn start(
        beside: Beside<'a>,
        given: Given<'a>,
        clauses: Vec<&'a Expr>,
        heap: &'a Heap<C>,
    ) -> SeqRows<'a, C>
        requires { AreReadyRows beside given clauses.items heap.now.rows }
        ensures { result ≡ rows_of_heap beside.entry given.entry clauses.entry.items heap.now }
    {
        SeqRows {
            beside,
            given,
            clauses,
            heap,
            at: 0,
        }
    }

    /// The next row that is given. Each row that it comes to, up to and with that one, is fetched once.
    pub fn next(&mut self, fetches: &mut Steps<C::Fetches>) -> Option<Tid>
        ensures row { option_map (λ t. t.0) result ≡ first_given self.old }
        ensures rest { self.new ≡ behind is_given self.old }
        ensures exact { fetches.new + owed self.new ≡ fetches.old + owed self.old }
        ensures unlooked { looks_allowed self.new ≡ looks_allowed self.old }
    {
        for n in self.at..self.heap.len() {
            self.at = n + 1;
            let row = self.heap.fetch(Tid(n), fetches);
            if pass_row(&self.beside, &self.given, &self.clauses, row) {
                return Some(Tid(n));
            }
        }
        None
    }
}

/// The sequential scan of a relation.
pub(crate) fn seq_rows<'a, C: Counters>(
    at: &Scene<'a, '_, C>,
    given: Given<'a>,
) -> Result<SeqRows<'a, C>, Memory>
    requires { IsSceneOf at.now given }
    ensures { IfOk result (λ s. s ≡ scene_coming at.now (seq at.now.rel)) }
{
    let clauses = at.base()?;
    let beside = at.beside();
    let heap = at.heap();
    Ok(SeqRows::start(beside, given, clauses, heap))
}
