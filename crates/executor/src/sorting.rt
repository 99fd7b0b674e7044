//! Sorts that were drained and are drawn from.

ghost use Rattle.std.specs.Prelude.{◌≡◌, ◌≤◌, ◌<◌, ◌+◌, ◌*◌, ◌∷◌, All, length, IfOk, IfSome, IfNone, OnOk};
ghost use Rattle.pg_base.specs.Sets.{has};
ghost use Rattle.eq_classes.specs.Holding.{IsWithin};
ghost use Rattle.heap.specs.Tuples.{rank};
ghost use Rattle.sql_query.specs.Queries.{all_of_query};
ghost use Rattle.plan_tree.specs.Counts.{MOST_READS};
ghost use Rattle.sort_rows.specs.work.Rows.{AllHaveRows};
ghost use Rattle.executor.specs.work.EState.{IsOverStore, world_of};
ghost use Rattle.executor.specs.work.Node.{IsSorting, IsSpentSorting, kept_left, sorting_left};
ghost use Rattle.sort_rows.specs.work.KeySource.{tuples_by_keys};

use crate::estate::EState;
use crate::tuple::Tuple;
use heap::{Counters, Tuples};
use pathkeys::Keys;
use pg_base::{Memory, Steps};
use sort_rows::sort_rows;
use std::alloc::Global;

/// Sorted tuples, of which those before a place were given.
#[derive(Drop)]
pub(crate) struct Sorting {
    pub(crate) kept: Tuples,
    pub(crate) at: u32,
}

/// A sort of these tuples by the classes of a key list, before its first tuple. The error means out of memory.
pub(crate) fn start_sorting<C: Counters>(
    at: &EState<C>,
    keys: &Keys,
    input: &Tuples,
    reads: &mut Steps<C::Looks>,
) -> Result<Sorting, Memory>
    requires over { IsOverStore at.now }
    requires keys { All (λ n. n < length at.now.q.now.classes.classes) keys.now }
    requires set { IsWithin (has input.now.set.0) (all_of_query at.now.q.now) }
    requires rows { AllHaveRows (world_of at.now) at.now.q.now input.now }
    ensures good { IfOk result (λ s. IsSorting s) }
    ensures set { IfOk result (λ s. s.kept.set ≡ input.now.set) }
    ensures left { IfOk result (λ s. sorting_left at.now.q.now s ≡
        tuples_by_keys (world_of at.now) at.now.q.now keys.now input.now) }
    ensures cost { reads.new ≤ reads.old + MOST_READS * length input.now.rows }
{
    let kept = sort_rows(at.alloc, at.cat, at.q, at.store.heaps(), keys, input, reads)?;
    Ok(Sorting { kept, at: 0 })
}

/// The next tuple. The error means out of memory.
pub(crate) fn next_sorted(alloc: Global, sorting: &mut Sorting) -> Result<Option<Tuple>, Memory>
    requires good { IsSorting sorting.old }
    ensures good { OnOk result (IsSorting sorting.new) }
    ensures kept { sorting.new.kept ≡ sorting.old.kept }
    ensures some { IfOk result (λ o. IfSome o (λ t.
        kept_left sorting.old ≡ t ∷ kept_left sorting.new)) }
    ensures len { IfOk result (λ o. IfSome o (λ t.
        length t ≡ rank (has sorting.old.kept.set.0) 16)) }
    ensures none { IfOk result (λ o. IfNone o (IsSpentSorting sorting.old sorting.new)) }
{
    if sorting.at == sorting.kept.len() {
        return Ok(None);
    }
    let row = Vec::from_slice(alloc, sorting.kept.get(sorting.at))?;
    sorting.at += 1;
    Ok(Some(Tuple::from_vec(row)))
}
