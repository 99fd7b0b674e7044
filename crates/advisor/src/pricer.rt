//! What queries cost.

ghost use Rattle.std.specs.Prelude.{bit_and, ◌≡◌, ◌<◌, ◌≤◌, ℕ, Option, IfOk};
ghost use Rattle.advisor.specs.work.Memos.{IsBelow, IsQuote};

use pg_base::{MOST_QUERIES, Memory};

/// What a query costs with a set of candidates.
#[derive(Clone, Copy, Debug, PartialEq, Eq)]
pub struct Quote {
    /// The cost, below 10^18; None where the query has no plan.
    pub cost: Option<u64>,
    /// Candidates of the set with which alone the query costs the same, and so with every set between the two.
    pub used: u16,
}

/// A list of queries, each with a cost by the set of candidates that is there. A set is a number whose bit j stands for
/// candidate j.
pub trait Pricer {
    /// The number of queries.
    ghost count: { Self → ℕ };

    /// The candidates that may change what a query costs.
    ghost concerns: { Self → ℕ → ℕ };

    /// What a query costs with a set of candidates, or that it has no plan then.
    ghost priced: { Self → ℕ → ℕ → Option ℕ → Type 0 };

    /// The number of queries, at most `MOST_QUERIES`.
    fn queries(&self) -> u8
        ensures count { result ≡ count self.now }
        ensures few { result ≤ MOST_QUERIES };

    /// The candidates that may change what a query costs.
    fn relevant(&self, q: u8) -> u16
        requires { q < count self.now }
        ensures { result ≡ concerns self.now q };

    /// What a query costs with a set of candidates, and with every set between those that are used and this one. It leaves all
    /// that contracts see as it was. The error means that memory ran out.
    fn price(&mut self, q: u8, s: u16) -> Result<Quote, Memory>
        requires { q < count self.old }
        ensures price { IfOk result (IsQuote (priced self.old) q s) }
        ensures below { IfOk result (IsBelow s) }
        ensures same { self.new ≡ self.old };

    /// No query has two costs with one set.
    ghost unique: { (p : Self) (q s : ℕ) (a b : Option ℕ) → priced p q s a → priced p q s b → a ≡ b };

    /// A cost depends on the candidates that may change it alone.
    ghost depends: { (p : Self) (q s : ℕ) (o : Option ℕ) → priced p q (bit_and s (concerns p q)) o → priced p q s o };
}
