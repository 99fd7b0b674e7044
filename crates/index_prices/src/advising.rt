//! The candidate indexes with which queries cost least.

ghost use Rattle.std.specs.Prelude.{◌≤◌, length, All, IfOk, MatchOption};
ghost use Rattle.sql_query.specs.WellBound.{IsWellBound};
ghost use Rattle.advisor.specs.work.Advices.{priced};
ghost use Rattle.catalog.specs.work.Candidates.{AreCandidateIndexes};
ghost use Rattle.index_prices.specs.Replies.{IsAdviceFor, IsReplyTo, HasNoAdviceFor};

use crate::pricer::PlanPricer;
use crate::text::advice_text;
use advisor::{Advice, advise};
use catalog::{Candidate, Catalog};
use pg_base::{MOST_CANDIDATES, MOST_QUERIES, Memory};
use sql_query::Prepared;
use std::alloc::Global;

/// The set of at most so many of the candidates with which the queries cost least together, each by its least price in the
/// catalogue with the set added in list order; among equal sums the set with the fewest members, then the one whose list of
/// places comes first. None exactly where with no such set each query has an admissible plan. The error means that
/// memory ran out. Each query is planned at most once with each set of the candidates on its tables.
pub fn recommend(
    alloc: Global,
    cat: &Catalog,
    candidates: &[Candidate],
    queries: &[Prepared],
    most: u8,
) -> Result<Option<Advice>, Memory>
    requires candidates { AreCandidateIndexes cat.now candidates.now }
    requires queries { length queries.now ≤ MOST_QUERIES }
    requires bound { All (IsWellBound cat.now) queries.now }
    requires most { most ≤ MOST_CANDIDATES }
    ensures { IfOk result (λ found. MatchOption found (HasNoAdviceFor cat.now candidates.now queries.now most) (λ a. IsAdviceFor cat.now candidates.now queries.now most (priced a))) }
{
    let n = candidates.len() as u8;
    let mut pricer = PlanPricer {
        alloc,
        cat,
        candidates,
        queries,
    };
    advise(alloc, &mut pricer, n, most)
}

/// The advice as a text: a line `use NAME` for each member, in list order, and the line `cost=SUM`. None exactly where there is
/// no advice. The error means out of memory.
pub fn advice_for(
    alloc: Global,
    cat: &Catalog,
    candidates: &[Candidate],
    queries: &[Prepared],
    most: u8,
) -> Result<Option<Vec<u8>>, Memory>
    requires candidates { AreCandidateIndexes cat.now candidates.now }
    requires queries { length queries.now ≤ MOST_QUERIES }
    requires bound { All (IsWellBound cat.now) queries.now }
    requires most { most ≤ MOST_CANDIDATES }
    ensures { IfOk result (λ found. MatchOption found (HasNoAdviceFor cat.now candidates.now queries.now most) (λ text. IsReplyTo cat.now candidates.now queries.now most text.items)) }
{
    match recommend(alloc, cat, candidates, queries, most)? {
        Some(advice) => Ok(Some(advice_text(alloc, candidates, advice)?)),
        None => Ok(None),
    }
}
