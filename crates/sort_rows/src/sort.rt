//! The sort of a list of tuples.

ghost use Rattle.std.specs.Prelude.{◌≡◌, ◌+◌, ◌*◌, ◌<◌, ◌≤◌, All, IfOk, OnOk, length};
ghost use Rattle.pg_base.specs.Sets.{has};
ghost use Rattle.eq_classes.specs.Holding.{IsWithin};
ghost use Rattle.heap.specs.Tuples.{relation_count};
ghost use Rattle.sql_query.specs.Queries.{all_of_query};
ghost use Rattle.sql_query.specs.WellBound.{IsWellBound};
ghost use Rattle.sql_query.specs.Worlds.{IsWorld, world};
ghost use Rattle.sort_rows.specs.work.Keyed.{AreWithLeads, keyed_order, keyed_sorted, rows_keyed, tuples_keyed};
ghost use Rattle.sort_rows.specs.work.KeySource.{IsInKeyOrder, IsKeySource, in_key_order, keys_of_all, world_of};
ghost use Rattle.sort_rows.specs.work.Rows.{AllHaveRows};
ghost use Rattle.sort_rows.specs.work.Columns.{lent_key_values};

use crate::columns::{SortColumn, sort_columns};
use crate::keys::{add_key, compare_keys, key_at_place};
use crate::leads::key_lead;
use crate::source::KeySource;
use heap::{Counters, Heaps, Tuples};
use pathkeys::Keys;
use pg_base::{Memory, Steps};
use pg_value::Value;
use sql_query::Prepared;
use sql_query::catalog::Catalog;
use std::alloc::Global;
use std::cmp::Ordering;

/// A tuple by its place in the input, with the lead of its key.
#[derive(Clone, Copy)]
struct Keyed {
    lead: i64,
    place: u32,
}

/// The tuples sorted by the classes of the list, each by its first member inside their set; those that tie keep their places.
/// Each relation's row of a tuple is one look, whatever the number of classes and of comparisons. The error means out of
/// memory.
pub fn sort_rows<C: Counters>(
    alloc: Global,
    cat: &Catalog,
    q: &Prepared,
    heaps: &Heaps<C>,
    keys: &Keys,
    input: &Tuples,
    reads: &mut Steps<C::Looks>,
) -> Result<Tuples, Memory>
    requires world { IsWorld (world cat.now heaps.now) }
    requires bound { IsWellBound cat.now q.now }
    requires keys { All (λ n. n < length q.now.classes.classes) keys.now }
    requires set { IsWithin (has input.now.set.0) (all_of_query q.now) }
    requires rows { AllHaveRows (world cat.now heaps.now) q.now input.now }
    ensures set { IfOk result (λ r. r.set ≡ input.now.set) }
    ensures sorted { IfOk result (IsInKeyOrder (world cat.now heaps.now) q.now keys.now input.now) }
    ensures rows { IfOk result (λ r. AllHaveRows (world cat.now heaps.now) q.now r) }
    ensures cost { reads.new ≤ reads.old + relation_count input.now.set * length input.now.rows }
{
    let columns = sort_columns(alloc, &q.classes, input.set(), keys.items())?;
    let at = KeySource {
        cat,
        q,
        heaps,
        set: input.set(),
        columns: &columns,
    };
    sorted(alloc, &at, input, reads)
}

/// The tuples in the order of their keys. The error means out of memory.
fn sorted<C: Counters>(
    alloc: Global,
    at: &KeySource<'_, '_, C>,
    input: &Tuples,
    reads: &mut Steps<C::Looks>,
) -> Result<Tuples, Memory>
    requires source { IsKeySource at.now }
    requires set { at.now.set ≡ input.now.set }
    requires rows { AllHaveRows (world_of at.now) at.now.q.now input.now }
    ensures rows { IfOk result (λ r. r ≡ in_key_order at.now input.now) }
    ensures cost { reads.new ≤ reads.old + relation_count input.now.set * length input.now.rows }
{
    let keys = read_keys(alloc, at, input, reads)?;
    let mut items = with_leads(alloc, at.columns, &keys, input)?;
    sort_keyed(at.columns, &keys, &mut items)?;
    rows_of(alloc, input, &items)
}

/// The keys of all tuples, one after another.
fn read_keys<'a, C: Counters>(
    alloc: Global,
    at: &KeySource<'a, '_, C>,
    input: &Tuples,
    reads: &mut Steps<C::Looks>,
) -> Result<Vec<&'a Value>, Memory>
    requires source { IsKeySource at.now }
    requires set { at.now.set ≡ input.now.set }
    requires rows { AllHaveRows (world_of at.now) at.now.q.now input.now }
    ensures keys { IfOk result (λ keys. lent_key_values keys.items ≡ keys_of_all at.now input.now) }
    ensures cost { reads.new ≤ reads.old + relation_count input.now.set * length input.now.rows }
{
    let mut keys = Vec::new(alloc);
    let mut rows = Vec::new(alloc);
    for n in 0..input.len() {
        add_key(at, input.get(n), &mut rows, &mut keys, reads)?;
    }
    Ok(keys)
}

/// Each tuple with the lead of its key.
fn with_leads(
    alloc: Global,
    columns: &[SortColumn],
    keys: &[&Value],
    input: &Tuples,
) -> Result<Vec<Keyed>, Memory>
    ensures rows { IfOk result (λ ks. rows_keyed input.now.rows ks.items ≡ input.now.rows) }
    ensures keys { IfOk result (λ items. AreWithLeads columns.now keys.now input.now items.items) }
{
    let mut items = Vec::new(alloc);
    for place in 0..input.len() {
        let lead = key_lead(columns, key_at_place(keys, columns.len(), place));
        items.push(Keyed { lead, place })?;
    }
    Ok(items)
}

/// How two tuples stand to one another by their keys.
fn compare_keyed(columns: &[SortColumn], keys: &[&Value], a: Keyed, b: Keyed) -> Ordering
    ensures { result ≡ keyed_order columns.now (lent_key_values keys.now) a b }
{
    match a.lead.cmp(&b.lead) {
        Ordering::Equal => {
            let width = columns.len();
            let left = key_at_place(keys, width, a.place);
            let right = key_at_place(keys, width, b.place);
            compare_keys(columns, left, right)
        }
        unequal => unequal,
    }
}

/// Sorts tuples by their keys. Those that tie keep their places. The error means out of memory.
fn sort_keyed(columns: &[SortColumn], keys: &[&Value], items: &mut Vec<Keyed>) -> Result<(), Memory>
    ensures { OnOk result (items.new.items ≡ keyed_sorted columns.now keys.now items.old.items) }
{
    items.sort_by(|a, b| compare_keyed(columns, keys, *a, *b))?;
    Ok(())
}

/// The tuples alone.
fn rows_of(alloc: Global, input: &Tuples, items: &[Keyed]) -> Result<Tuples, Memory>
    requires { All (λ k. k.place < length input.now.rows) items.now }
    ensures { IfOk result (λ r. r ≡ tuples_keyed input.now items.now) }
{
    let mut rows = Tuples::new(alloc, input.set());
    for item in items {
        rows.add(input.get(item.place))?;
    }
    Ok(rows)
}
