//! The numbers of plans, as entries have them.

ghost use Rattle.std.specs.Prelude.{IfNone, IfSome};
ghost use Rattle.entry_check.specs.work.Telling.{AreNumbersFrom, IsPastLimit};

use cost_rules::{MOST_COST, Pair};
use sql_query::Prepared;

/// The numbers of an admissible plan.
#[derive(Clone, Copy, Debug)]
pub struct Own {
    /// What it costs before its first row, where the query has a window; else 0.
    pub startup: u64,
    /// What it costs in all.
    pub cost: u64,
    /// How many rows it is taken to give.
    pub rows: u64,
}

/// The numbers of a plan from its cost, cut to at most 10^18, and its rows. None exactly where it is not admissible.
pub fn numbers_of(q: &Prepared, cost: Pair, rows: u64) -> Option<Own>
    ensures some { IfSome result (λ x. AreNumbersFrom q.now cost rows x) }
    ensures none { IfNone result (IsPastLimit q.now cost) }
{
    if cost.total >= MOST_COST {
        return None;
    }
    Some(Own {
        startup: cost.startup,
        cost: cost.total,
        rows,
    })
}
