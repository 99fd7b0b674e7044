//! Statistics of a table, found by its rows.

ghost use Rattle.std.specs.Prelude.{◌≡◌, ◌≤◌, ◌+◌, OnErr, OnOk};
ghost use Rattle.catalog.specs.Contents.{IsTable};
ghost use Rattle.store.specs.work.Kept.{IsStoreOf, row_count};
ghost use Rattle.store.specs.Actions as actions;
ghost use Rattle.store.specs.work.Actions as actions_work;

use crate::Store;
use analyze::analyze_table;
use catalog::Catalog;
use heap::Counters;
use pg_base::{Memory, Steps, TableNo};
use std::alloc::Global;

/// Replaces all statistics of a table by those of its rows, each of which is looked at once. They are always taken; the error
/// means out of memory, and then nothing changes.
pub fn gather<C: Counters>(
    alloc: Global,
    catalog: &mut Catalog,
    store: &Store<C>,
    table: TableNo,
    reads: &mut Steps<C::Looks>,
) -> Result<(), Memory>
    requires store { IsStoreOf catalog.old store.now }
    requires table { IsTable catalog.old table }
    ensures gathered { OnOk result
        (actions_work.IsWorldAfter (actions.gather table) catalog.old store.now catalog.new store.now) }
    ensures store { IsStoreOf catalog.new store.now }
    ensures unchanged { OnErr result (catalog.new ≡ catalog.old) }
    ensures looks { OnOk result (reads.new ≡ reads.old + row_count store.now table) }
    ensures fewer { reads.new ≤ reads.old + row_count store.now table }
{
    let found = analyze_table(alloc, store.heap(table), reads)?;
    if catalog.replace_stats(table, found).is_err() {
        unreachable!();
    }
    Ok(())
}
