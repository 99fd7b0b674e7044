//! Prices, and the better one of two.

ghost use Rattle.std.specs.Prelude.{◌≡◌, ◌⊎◌, ◌↔◌, IsTrue};
ghost use Rattle.cost_rules.specs.work.Worse.{IsNoWorse};

/// The price of a finished plan. No number is cut.
#[derive(Clone, Copy, Debug)]
pub struct Price {
    /// What the rows asked for cost.
    pub amount: u64,
    /// Whether the plan costs less than 10^18 in all.
    pub admissible: bool,
}

/// Whether a price is no worse than another: one that is admissible is better than one that is not, and of others the
/// lesser one.
pub fn is_no_worse(a: Price, b: Price) -> bool
    ensures { IsTrue result ↔ IsNoWorse a b }
{
    if a.admissible == b.admissible {
        return a.amount <= b.amount;
    }
    a.admissible
}

/// The better one of two, the first where neither is worse.
pub fn better(a: Price, b: Price) -> Price
    ensures from { (result ≡ a) ⊎ (result ≡ b) }
    ensures first { IsNoWorse result a }
    ensures second { IsNoWorse result b }
{
    if is_no_worse(a, b) {
        return a;
    }
    b
}
