//! Costs of sorts and joins, and the price of a plan's first rows. Each cost is cut to at most 10^18.

ghost use Rattle.std.specs.Prelude.{◌≡◌, ◌≤◌, ◌+◌, ◌^◌};
ghost use Rattle.cost_rules.specs.Costs.{row_cost, sort_cost, nest_cost, merge_cost, price_of};
ghost use Rattle.cost_rules.specs.work.Costs.{IsCost, IsEstimate, capped_pair};

use crate::pair::{Pair, cut};
use crate::parameters::{MOST_COST, OPERATOR, TUPLE};
use crate::powers::log_up;

/// A sort of `n` rows: all of its input and two comparisons for each row and doubling, then each row. `n` is from 1 to
/// 10^12.
pub fn sort(input: Pair, n: u64) -> Pair
    requires input { IsCost input }
    requires rows { IsEstimate n }
    ensures rule { result ≡ capped_pair (sort_cost input n) }
    ensures cost { IsCost result }
    ensures child { input.total ≤ result.total }
{
    let startup = input.total + 2 * n * log_up(2, n.max(2));
    Pair {
        startup: startup.min(MOST_COST),
        total: (startup + n).min(MOST_COST),
    }
}

/// A row with so many operators.
fn row(ops: u64) -> u128
    ensures cost { result ≡ row_cost ops }
    ensures most { result ≤ 2 ^ 64 + 3 }
{
    u128::from(TUPLE) + u128::from(ops) * u128::from(OPERATOR)
}

/// A nested loop: the inner side once for each outer row, and each pair of rows with `ops` operators. Rows are from 1 to
/// 10^12.
pub fn nest(outer: Pair, inner: Pair, outer_rows: u64, inner_rows: u64, ops: u64) -> Pair
    requires outer { IsCost outer }
    requires inner { IsCost inner }
    requires outer_rows { IsEstimate outer_rows }
    requires inner_rows { IsEstimate inner_rows }
    ensures rule { result ≡ capped_pair (nest_cost outer inner outer_rows inner_rows ops) }
    ensures cost { IsCost result }
    ensures outer_child { outer.total ≤ result.total }
    ensures inner_child { inner.total ≤ result.total }
{
    let (ro, ri) = (u128::from(outer_rows), u128::from(inner_rows));
    let sides = u128::from(outer.total) + ro * u128::from(inner.total);
    let pairs = (ro * ri).saturating_mul(row(ops));
    Pair {
        startup: (outer.startup + inner.startup).min(MOST_COST),
        total: cut(sides.saturating_add(pairs)),
    }
}

/// A merge by `keys` keys: both sides once, each outer row and twice each inner row with the keys, and each of `pairs`
/// pairs of rows with equal keys with `ops` further operators. Rows and pairs are from 1 to 10^12, and keys from 1 to 3.
pub fn merge(
    outer: Pair,
    inner: Pair,
    outer_rows: u64,
    inner_rows: u64,
    keys: u64,
    pairs: u64,
    ops: u64,
) -> Pair
    requires outer { IsCost outer }
    requires inner { IsCost inner }
    requires outer_rows { IsEstimate outer_rows }
    requires inner_rows { IsEstimate inner_rows }
    requires some_keys { 1 ≤ keys }
    requires few_keys { keys ≤ 3 }
    requires pairs { IsEstimate pairs }
    ensures rule { result ≡ capped_pair (merge_cost outer inner outer_rows inner_rows keys pairs ops) }
    ensures cost { IsCost result }
    ensures outer_child { outer.total ≤ result.total }
    ensures inner_child { inner.total ≤ result.total }
{
    let rows = (outer_rows + 2 * inner_rows) * (keys * OPERATOR);
    let total = u128::from(outer.total + inner.total + rows) + u128::from(pairs) * row(ops);
    Pair {
        startup: (outer.startup + inner.startup).min(MOST_COST),
        total: cut(total),
    }
}

/// What the first `asked` of a plan's `rows` rows cost: its startup, and an even part of the rest, rounded up. Rows are
/// from 1 to 10^12, and no more are asked for.
pub fn price(c: Pair, asked: u64, rows: u64) -> u64
    requires startup { c.startup ≤ c.total }
    requires rows { IsEstimate rows }
    requires asked { asked ≤ rows }
    ensures price { result ≡ price_of c asked rows }
    ensures started { c.startup ≤ result }
    ensures part { result ≤ c.total }
{
    let rest = u128::from(c.total - c.startup) * u128::from(asked);
    c.startup + rest.div_ceil(u128::from(rows)) as u64
}
