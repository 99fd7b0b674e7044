//! What the queries of a script come to.

ghost use Rattle.std.specs.Prelude.{◌≡◌, ◌≤◌, ◌<◌, ◌+◌, ◌*◌, ◌^◌, IfErr, IfOk, length};
ghost use Rattle.pg_base.specs.declared.limits.TheConstants.{MOST_SCRIPT_BYTES};
ghost use Rattle.sql_query.specs.Worlds.{empty_world};
ghost use Rattle.pgplan.specs.Summaries.{AreSummed, summary_line};
ghost use Rattle.pgplan.specs.work.Summaries.{EndsTally, cost_in, number_in, rows_told};

use crate::machine::Machine;
use heap::Counters;
use pg_base::{Memory, Steps};
use statements::End;
use statements::reply::Measured;
use std::alloc::Global;

/// How many queries were asked, the rows that their answers have together, and what their least prices come to.
#[derive(Clone, Copy, Debug, PartialEq, Eq)]
pub(crate) struct Totals {
    pub(crate) queries: u32,
    pub(crate) rows: u128,
    pub(crate) cost: u128,
}

/// Works all statements of the text, from its first byte on, by a machine without tables, prints nothing, and gives what their
/// queries come to.
pub(crate) fn sum_up<C: Counters>(
    machine: &mut Machine<C>,
    text: &[u8],
    fetches: &mut Steps<C::Fetches>,
    reads: &mut Steps<C::Looks>,
) -> Result<Totals, End>
    requires new { machine.old ≡ empty_world }
    requires short { length text.now ≤ MOST_SCRIPT_BYTES }
    ensures summed { IfOk result (λ t. AreSummed text.now t.queries t.rows t.cost) }
    ensures ended { IfErr result (λ e. EndsTally e text.now machine.new) }
{
    let mut totals = Totals {
        queries: 0,
        rows: 0,
        cost: 0,
    };
    let mut at: u32 = 0;
    'statements: while (at as usize) < text.len() {
        let tallied = machine.tally(text, at, fetches, reads)?;
        totals = added(totals, tallied.measured);
        at = tallied.next;
    }
    Ok(totals)
}

/// Totals with what was measured of one more statement.
fn added(totals: Totals, measured: Option<Measured>) -> Totals
    requires queries { totals.queries + 1 < 2 ^ 32 }
    requires rows { totals.rows + 2 ^ 64 < 2 ^ 128 }
    requires cost { totals.cost + 2 ^ 64 < 2 ^ 128 }
    ensures queries { result.queries ≡ totals.queries + number_in measured }
    ensures rows { result.rows ≡ totals.rows + rows_told measured }
    ensures cost { result.cost ≡ totals.cost + cost_in measured }
    ensures few { result.queries ≤ totals.queries + 1 }
    ensures small { (result.rows ≤ totals.rows + 2 ^ 64) × (result.cost ≤ totals.cost + 2 ^ 64) }
{
    match measured {
        None => totals,
        Some(m) => Totals {
            queries: totals.queries + 1,
            rows: totals.rows + u128::from(m.rows),
            cost: totals.cost + u128::from(m.cost),
        },
    }
}

/// The line of these totals. The only error is out of memory.
pub(crate) fn summary_line(alloc: Global, totals: Totals) -> Result<Vec<u8>, Memory>
    ensures { IfOk result (λ line.
        line.items ≡ summary_line totals.queries totals.rows totals.cost) }
{
    let Totals {
        queries,
        rows,
        cost,
    } = totals;
    let line = format!(in alloc; "queries={queries} rows={rows} cost={cost}\n")?;
    Ok(line.into_bytes())
}
