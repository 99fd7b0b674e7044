//! The two costs of a plan.

ghost use Rattle.std.specs.Prelude.{◌≡◌};
ghost use Rattle.cost_rules.specs.work.Costs.{capped};

use crate::parameters::MOST_COST;

/// What a plan costs, in 1/400 of a sequential page.
#[derive(Clone, Copy, Debug, PartialEq, Eq)]
pub struct Pair {
    /// What the plan costs before its first row.
    pub startup: u64,
    /// What the plan costs in all.
    pub total: u64,
}

/// A cost cut to at most 10^18.
pub(crate) fn cut(cost: u128) -> u64
    ensures { result ≡ capped cost }
{
    cost.min(u128::from(MOST_COST)) as u64
}
