//! The advice.

ghost use Rattle.std.specs.Prelude.{◌≡◌, ◌<◌, ◌≤◌, ◌+◌, ◌^◌, ℕ, IfOk, MatchOption, Some};
ghost use Rattle.advisor.specs.work.Advices.{IsBestBelow, chosen, priced};
ghost use Rattle.advisor.specs.Choices.{HasNoAdvice, IsAdvice, preference as preference_of};
ghost use Rattle.advisor.specs.work.Memos.{AreBelow, IsMemo};

use crate::pricer::Pricer;
use crate::prices::{Prices, sum_prices};
use crate::sets::{members_order, size};
use pg_base::{MOST_CANDIDATES, Memory};
use std::alloc::Global;
use std::cmp::Ordering;
use std::collections::BTreeMap;

/// A set of candidates, and what all queries cost with it.
#[derive(Clone, Copy, Debug, PartialEq, Eq)]
pub struct Advice {
    /// The set: bit j stands for candidate j.
    pub set: u16,
    /// The sum of the costs.
    pub sum: u64,
}

/// How two sets stand to one another: by the sum, then by the number of members, then by the list of places.
fn preference(n: u8, a: Advice, b: Advice) -> Ordering
    ensures { result ≡ preference_of n (priced a) (priced b) }
{
    match a.sum.cmp(&b.sum) {
        Ordering::Equal => members_order(n, a.set, b.set),
        unequal => unequal,
    }
}

/// The one of two that comes first.
fn preferred(n: u8, best: Option<Advice>, other: Advice) -> Advice
    ensures { result ≡ chosen n best other }
{
    match best {
        Some(best) => {
            if preference(n, other, best).is_lt() {
                other
            } else {
                best
            }
        }
        None => other,
    }
}

/// The best of the sets below and with one, by the best of those below it. The error means that memory ran out.
fn better<P: Pricer>(
    p: &mut P,
    prices: &mut Prices,
    n: u8,
    k: u8,
    best: Option<Advice>,
    set: u16,
) -> Result<Option<Advice>, Memory>
    requires memo { IsMemo (P.priced p.old) prices.old }
    requires below { AreBelow prices.old }
    requires within { set < 2 ^ n }
    requires best { IsBestBelow (P.priced p.old) (P.count p.old) n k set best }
    ensures best { IfOk result (IsBestBelow (P.priced p.old) (P.count p.old) n k (set + 1)) }
    ensures memo { IsMemo (P.priced p.old) prices.new }
    ensures known_below { AreBelow prices.new }
    ensures same { p.new ≡ p.old }
{
    if size(n, set) > k {
        return Ok(best);
    }
    match sum_prices(p, prices, set)? {
        Some(sum) => Ok(Some(preferred(n, best, Advice { set, sum }))),
        None => Ok(best),
    }
}

/// The set of at most `k` of the first `n` candidates with which the queries cost least together; among equal ones that
/// with the fewest members, then that whose list of places comes first. None exactly where no such set gives each query
/// a plan. Each query is priced at most once with each set of the candidates that may change it. The error means that memory
/// ran out.
pub fn advise<P: Pricer>(alloc: Global, p: &mut P, n: u8, k: u8) -> Result<Option<Advice>, Memory>
    requires candidates { n ≤ MOST_CANDIDATES }
    requires members { k ≤ MOST_CANDIDATES }
    ensures advice { IfOk result (λ found. MatchOption found (HasNoAdvice (P.priced p.old) (P.count p.old) n k) (λ a. IsAdvice (P.priced p.old) (P.count p.old) n k (priced a))) }
    ensures same { p.new ≡ p.old }
{
    let mut prices = BTreeMap::new(alloc);
    let mut best = None;
    for set in 0..1u16 << n {
        best = better(p, &mut prices, n, k, best, set)?;
    }
    Ok(best)
}
