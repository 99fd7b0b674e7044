//! Powers that reach a number.

ghost use Rattle.std.specs.Prelude.{◌≡◌, ◌≤◌};
ghost use Rattle.cost_rules.specs.work.Costs.{IsEstimate};
ghost use Rattle.cost_rules.specs.declared.parameters.TheConstants.{ENTRIES_PER_PAGE};
ghost use Rattle.cost_rules.specs.Powers.{log_up as log_of};
ghost use Rattle.cost_rules.specs.work.Powers.{IsLeastPower};

/// The least power to which `base` is at least `n`. `base` is from 2 to 200, and `n` from 1 to 10^12.
pub fn log_up(base: u64, n: u64) -> u64
    requires least_base { 2 ≤ base }
    requires most_base { base ≤ ENTRIES_PER_PAGE }
    requires number { IsEstimate n }
    ensures least { IsLeastPower base n result }
    ensures value { result ≡ log_of base n }
    ensures small { result ≤ 40 }
{
    let mut power = 1;
    let mut k = 0;
    while power < n {
        power *= base;
        k += 1;
    }
    k
}
