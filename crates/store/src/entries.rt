//! The entries of rows.

ghost use Rattle.std.specs.Prelude.{◌≡◌, ◌≤◌, ◌<◌, ◌+◌, ◌-◌, ◌∷◌, [], All, IfOk, OnOk, length, map};
ghost use Rattle.catalog.specs.work.Entries.{index_of};
ghost use Rattle.catalog.specs.Indexes.{IsLawfulIndex};
ghost use Rattle.plan_tree.specs.Entries.{cell};
ghost use Rattle.store.specs.work.Kept.{AreIndexEntries, AreOfKeyFamily, found, held_of};

use crate::rows::passes;
use btree_index::Entry;
use catalog::IndexDef;
use hash_index::Row as HeldRow;
use heap::{Counters, Heap, Row, value_in};
use opfamily::IndexKey;
use pg_base::{ColNo, Memory, Steps, Tid};
use pg_value::Value;
use std::alloc::Global;

/// The entries of an index for the rows from number `from` on, in the order of the rows. Each of these rows is looked at
/// once.
pub(crate) fn entries_from<C: Counters>(
    alloc: Global,
    def: &IndexDef,
    heap: &Heap<C>,
    from: u32,
    looks: &mut Steps<C::Looks>,
) -> Result<Vec<Entry>, Memory>
    requires from { from ≤ length heap.now.rows }
    requires lawful { IsLawfulIndex heap.now.columns (index_of def.now) }
    ensures entries { IfOk result (λ es. es.items ≡ found (index_of def.now) heap.now.rows from) }
    ensures fits { IfOk result (λ es. AreIndexEntries (index_of def.now) es.items) }
    ensures looks { OnOk result (looks.new ≡ looks.old + (length heap.now.rows - from)) }
    ensures fewer { looks.new ≤ looks.old + (length heap.now.rows - from) }
{
    let columns = heap.columns();
    let mut entries = Vec::new(alloc);
    for n in from..heap.len() {
        let row = heap.look(Tid(n), looks);
        if !passes(&def.predicate, columns, row) {
            continue;
        }
        let key = key_values(alloc, &def.keys, row)?;
        let include = column_values(alloc, &def.include, row)?;
        entries.push(Entry::new(key, include, Tid(n)))?;
    }
    Ok(entries)
}

/// The entries of a hash index for the rows from number `from` on, as it holds them: each row with the value of the one key.
pub(crate) fn hashed_from<C: Counters>(
    alloc: Global,
    def: &IndexDef,
    heap: &Heap<C>,
    from: u32,
    looks: &mut Steps<C::Looks>,
) -> Result<Vec<HeldRow>, Memory>
    requires from { from ≤ length heap.now.rows }
    requires lawful { IsLawfulIndex heap.now.columns (index_of def.now) }
    ensures entries { IfOk result (λ rs.
        rs.items ≡ map held_of (found (index_of def.now) heap.now.rows from)) }
    ensures fits { IfOk result (λ rs. AreOfKeyFamily (index_of def.now) rs.items) }
    ensures looks { OnOk result (looks.new ≡ looks.old + (length heap.now.rows - from)) }
    ensures fewer { looks.new ≤ looks.old + (length heap.now.rows - from) }
{
    let columns = heap.columns();
    let key = def.keys[0].col;
    let mut rows = Vec::new(alloc);
    for n in from..heap.len() {
        let row = heap.look(Tid(n), looks);
        if !passes(&def.predicate, columns, row) {
            continue;
        }
        let value = value_in(row, key).copy(alloc)?;
        rows.push(HeldRow::new(value, Tid(n)))?;
    }
    Ok(rows)
}

/// The values of a row at the columns of the keys.
fn key_values(alloc: Global, keys: &[IndexKey], row: Row) -> Result<Vec<Value>, Memory>
    requires { All (λ k. k.col.0 < length row.now) keys.now }
    ensures { IfOk result (λ vs. vs.items ≡ map (λ k. cell row.now k.col) keys.now) }
{
    let mut values = Vec::new(alloc);
    for key in keys {
        values.push(value_in(row, key.col).copy(alloc)?)?;
    }
    Ok(values)
}

/// The values of a row at these columns.
fn column_values(alloc: Global, columns: &[ColNo], row: Row) -> Result<Vec<Value>, Memory>
    requires { All (λ c. c.0 < length row.now) columns.now }
    ensures { IfOk result (λ vs. vs.items ≡ map (cell row.now) columns.now) }
{
    let mut values = Vec::new(alloc);
    for column in columns {
        values.push(value_in(row, *column).copy(alloc)?)?;
    }
    Ok(values)
}
