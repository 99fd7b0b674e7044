//! The tuples that OFFSET passes over, and whether LIMIT lets one more through (PostgreSQL,
//! src/backend/executor/nodeLimit.c).

ghost use Rattle.std.specs.Prelude.{◌≡◌, ◌+◌, ◌≤◌, OnOk};
ghost use Rattle.reply.specs.work.Drawing.{Draws, is_let};
ghost use Rattle.reply.specs.Effort.{limit_in, offset_in};

use executor::Rows;
use heap::Counters;
use pg_base::{Memory, Steps};
use sql_query::Prepared;

/// How many tuples of a query are passed over.
pub(crate) fn offset_of(q: &Prepared) -> u64
    ensures { result ≡ offset_in q.now.window }
{
    match q.window {
        None => 0,
        Some(w) => w.offset,
    }
}

/// Whether the query's LIMIT lets one more row through than so many.
pub(crate) fn is_wanted(q: &Prepared, shown: u64) -> bool
    ensures { result ≡ is_let (limit_in q.now.window) shown }
{
    let Some(w) = q.window else {
        return true;
    };
    match w.limit {
        None => true,
        Some(limit) => shown < limit,
    }
}

/// Draws so many tuples, as far as there are so many, and shows none of them. The error means out of memory.
pub(crate) fn pass_over<C: Counters>(
    rows: &mut Rows<C>,
    offset: u64,
    fetches: &mut Steps<C::Fetches>,
    reads: &mut Steps<C::Looks>,
) -> Result<(), Memory>
    ensures drawn { OnOk result (Draws offset rows.old rows.new fetches.old fetches.new) }
    ensures looked { OnOk result (reads.new + rows.new.allowed ≤ reads.old + rows.old.allowed) }
    ensures most { fetches.new ≤ fetches.old + rows.old.owed }
    ensures most_reads { reads.new ≤ reads.old + rows.old.allowed }
    ensures idle { offset ≡ 0 → (fetches.new ≡ fetches.old) × (reads.new ≡ reads.old) }
{
    for _ in 0..offset {
        match rows.next(fetches, reads)? {
            Some(_) => {}
            None => return Ok(()),
        }
    }
    Ok(())
}
