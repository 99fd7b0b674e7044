//! What sorts cost. No number is cut.

ghost use Rattle.std.specs.Prelude.{◌≡◌, ◌≤◌, ℕ};
ghost use Rattle.cost_rules.specs.Costs.{pair, sort_cost};
ghost use Rattle.cost_rules.specs.work.Costs.{IsEstimate};
ghost use Rattle.cost_rules.specs.declared.parameters.TheConstants.{MOST_COST};

use crate::{Pair, log_up};

/// The cost of a sort of `n` rows, from 1 to 10^12, over an input that costs `input` in all, at most 10^18: two comparisons
/// for each row and doubling, then each row. It is exact, and may be above 10^18.
pub fn sort_total(input: u64, n: u64) -> Pair
    requires input { input ≤ MOST_COST }
    requires rows { IsEstimate n }
    ensures rule { (startup : ℕ) → result ≡ sort_cost (pair startup input) n }
    ensures startup { result.startup ≤ result.total }
{
    let startup = input + 2 * n * log_up(2, n.max(2));
    Pair {
        startup,
        total: startup + n,
    }
}
