//! What queries cost with candidate indexes, by plans.

ghost use Rattle.std.specs.Prelude.{◌≡◌, ◌≤◌, length};
ghost use Rattle.plan_laws.specs.work.Moved.{is_read};
ghost use Rattle.index_prices.specs.work.Prices.{read_by};

use crate::adding::with_added;
use crate::pricing::least_quote;
use advisor::{Pricer, Quote};
use catalog::{Candidate, Catalog};
use pg_base::{MOST_CANDIDATES, Memory};
use sql_query::Prepared;
use std::alloc::Global;
use std::marker::Model;

/// Candidate indexes and queries over a catalogue. Each price is that of a plan in a copy of it.
#[derive(Drop)]
pub(crate) struct PlanPricer<'a> {
    pub(crate) alloc: Global,
    pub(crate) cat: &'a Catalog,
    pub(crate) candidates: &'a [Candidate],
    pub(crate) queries: &'a [Prepared],
}

impl<'a> Model for PlanPricer<'a> {
    ghost use Rattle.std.specs.Coded.{codes};
    ghost use Rattle.pg_expr.specs.work.CondCode.{cond_code};
    ghost use Rattle.index_prices.specs.work.Proposals.{IsProposal, Proposal};

    ghost Value = { Proposal };

    ghost coded = { Prim.hlevel (codes, cond_code (Prim.hlevel codes)) };

    ghost view = { λ p. record { contents = p.cat.now; candidates = p.candidates.now; queries = p.queries.now } };

    ghost invariant = { λ p. IsProposal (record { contents = p.cat.now; candidates = p.candidates.now; queries = p.queries.now }) };
}

/// Whether an index is on a table of a query.
fn is_of(q: &Prepared, x: &Candidate) -> bool
    ensures { result ≡ is_read q.now x.now }
{
    let table = x.def.table;
    q.range.items().iter().any(|rel| table.0 == rel.0.0)
}

/// The candidates that are on tables of a query.
fn read_of(q: &Prepared, candidates: &[Candidate]) -> u16
    requires { length candidates.now ≤ MOST_CANDIDATES }
    ensures { result ≡ read_by q.now candidates.now }
{
    let mut set = 0;
    for j in (0..candidates.len()).rev() {
        set = 2 * set + u16::from(is_of(q, &candidates[j]));
    }
    set
}

impl<'a> Pricer for PlanPricer<'a> {
    ghost use Rattle.std.specs.Prelude.{◌≡◌, ◌<◌, length, slice_get};
    ghost use Rattle.index_prices.specs.Prices.{prices_of};
    ghost use Rattle.index_prices.specs.work.Prices.{concerns_of};
    ghost use Rattle.index_prices.specs.work.PriceLaws.{one-price-with, price-within};

    ghost count = { λ p. length p.queries };

    ghost concerns = { λ p q. concerns_of (slice_get p.queries q) p.candidates };

    ghost priced = { λ p. prices_of p.contents p.candidates p.queries };

    fn queries(&self) -> u8 {
        self.queries.len() as u8
    }

    fn relevant(&self, q: u8) -> u16 {
        read_of(&self.queries[q as usize], self.candidates)
    }

    fn price(&mut self, q: u8, s: u16) -> Result<Quote, Memory> {
        let cat = with_added(self.alloc, self.cat, self.candidates, s)?;
        least_quote(
            self.alloc,
            &cat,
            self.candidates,
            s,
            &self.queries[q as usize],
        )
    }

    ghost unique = { λ p q s a b. one-price-with p.contents p.candidates p.queries q s a b };

    ghost depends = { λ p q s o. price-within p.contents p.candidates p.queries q s o };
}
