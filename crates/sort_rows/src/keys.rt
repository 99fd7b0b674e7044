//! Sort keys of tuples: their values, and how they compare.

ghost use Rattle.std.specs.Prelude.{◌≡◌, ◌+◌, ◌≤◌, All, IfOk, OnOk, length, slice_index_or};
ghost use Rattle.pg_base.specs.Sets.{has};
ghost use Rattle.pg_value.specs.ColumnOrder.{column_order};
ghost use Rattle.eq_classes.specs.Holding.{IsWithin};
ghost use Rattle.heap.specs.Tuples.{relation_count};
ghost use Rattle.path_cost.specs.work.Columns.{AreTables};
ghost use Rattle.sql_query.specs.Queries.{all_of_query};
ghost use Rattle.sql_query.specs.Worlds.{IsWorld, world};
ghost use Rattle.sort_rows.specs.work.Columns.{columns_order, lent_value, lent_key_values, values_order, IsSortColumn};
ghost use Rattle.sort_rows.specs.work.Keyed.{run_at};
ghost use Rattle.sort_rows.specs.work.KeySource.{AddsKey, AreRowsRead, IsKeyAt, IsKeySource, world_of};
ghost use Rattle.sort_rows.specs.work.Rows.{HasRows};

use crate::columns::SortColumn;
use crate::source::KeySource;
use heap::{Counters, Heaps, Row, value_in};
use pg_base::{Memory, RelNo, RelSet, Steps, Tid};
use pg_value::{Value, column_order};
use sql_query::Prepared;
use sql_query::catalog::Catalog;
use std::alloc::Global;
use std::cmp::Ordering;

/// Puts the rows of a tuple, in FROM order, in the place of those of a list. Each is one look. The error means out of memory.
fn tuple_rows<'a, C: Counters>(
    at: &KeySource<'a, '_, C>,
    tuple: &[Tid],
    rows: &mut Vec<Row<'a>>,
    reads: &mut Steps<C::Looks>,
) -> Result<(), Memory>
    requires source { IsKeySource at.now }
    requires width { length tuple.now ≡ relation_count at.now.set }
    requires rows { HasRows (world_of at.now) at.now.q.now (has at.now.set.0) tuple.now }
    ensures rows { OnOk result (AreRowsRead at.now tuple.now rows.new.items) }
    ensures cost { reads.new ≤ reads.old + relation_count at.now.set }
{
    let q: &Prepared = at.q;
    rows.clear();
    for r in 0..16 {
        if at.set.has(RelNo(r)) {
            let (table, _) = &q.range.items()[r as usize];
            let row = at.heaps.get(*table).look(tuple[rows.len()], reads);
            rows.push(row)?;
        }
    }
    Ok(())
}

/// Puts the key of a tuple at the end of a list. Each relation's row is read once, by one look; `rows` is room for these. The
/// error means out of memory.
pub(crate) fn add_key<'a, C: Counters>(
    at: &KeySource<'a, '_, C>,
    tuple: &[Tid],
    rows: &mut Vec<Row<'a>>,
    keys: &mut Vec<&'a Value>,
    reads: &mut Steps<C::Looks>,
) -> Result<(), Memory>
    requires source { IsKeySource at.now }
    requires width { length tuple.now ≡ relation_count at.now.set }
    requires rows { HasRows (world_of at.now) at.now.q.now (has at.now.set.0) tuple.now }
    ensures key { OnOk result (AddsKey at.now tuple.now keys.old keys.new) }
    ensures cost { reads.new ≤ reads.old + relation_count at.now.set }
{
    tuple_rows(at, tuple, rows, reads)?;
    for column in at.columns {
        keys.push(value_in(rows[column.place], column.column.col))?;
    }
    Ok(())
}

/// The values of a tuple of a set of relations at columns of them. Each relation's row is read once, by one look. The error
/// means out of memory.
pub fn read_key<'a, C: Counters>(
    alloc: Global,
    cat: &Catalog,
    q: &Prepared,
    heaps: &'a Heaps<C>,
    set: RelSet,
    columns: &[SortColumn],
    tuple: &[Tid],
    reads: &mut Steps<C::Looks>,
) -> Result<Vec<&'a Value>, Memory>
    requires world { IsWorld (world cat.now heaps.now) }
    requires tables { AreTables cat.now q.now.range }
    requires set { IsWithin (has set.0) (all_of_query q.now) }
    requires columns { All (IsSortColumn cat.now q.now (has set.0)) columns.now }
    requires width { length tuple.now ≡ relation_count set }
    requires rows { HasRows (world cat.now heaps.now) q.now (has set.0) tuple.now }
    ensures key { IfOk result (IsKeyAt (world cat.now heaps.now) q.now set columns.now tuple.now) }
    ensures cost { reads.new ≤ reads.old + relation_count set }
{
    let at = KeySource {
        cat,
        q,
        heaps,
        set,
        columns,
    };
    let mut rows = Vec::new(alloc);
    let mut key = Vec::new(alloc);
    add_key(&at, tuple, &mut rows, &mut key, reads)?;
    Ok(key)
}

/// The key at a place of a list of keys of so many values each, or none past the end.
pub(crate) fn key_at_place<'k, 'a>(
    keys: &'k [&'a Value],
    width: usize,
    place: u32,
) -> &'k [&'a Value]
    ensures { result.now ≡ run_at keys.now width place }
{
    let start = (place as usize).saturating_mul(width).min(keys.len());
    let end = start + width.min(keys.len() - start);
    &keys[start..end]
}

/// How two keys stand to one another, by the first column that tells them apart. A value that a key lacks counts as
/// NULL.
pub fn compare_keys(columns: &[SortColumn], a: &[&Value], b: &[&Value]) -> Ordering
    ensures { result ≡ columns_order columns.now (lent_key_values a.now) (lent_key_values b.now) }
{
    for i in 0..columns.len() {
        match compare_at(columns[i], a, b, i) {
            Ordering::Equal => {}
            unequal => return unequal,
        }
    }
    Ordering::Equal
}

/// How the values at one place of two keys stand to one another by a column.
fn compare_at(column: SortColumn, a: &[&Value], b: &[&Value], place: usize) -> Ordering
    ensures { result ≡ values_order column (lent_value a.now place) (lent_value b.now place) }
{
    let null = Value::Null;
    let one = value_or(a, place, &null);
    let other = value_or(b, place, &null);
    column_order(
        column.family,
        column.descending,
        column.nulls_first,
        one,
        other,
    )
}

/// The value at a place of a key, or another one past its end.
pub(crate) fn value_or<'a>(key: &'a [&Value], place: usize, past: &'a Value) -> &'a Value
    ensures { result.now ≡ slice_index_or (lent_key_values key.now) place past.now }
{
    match key.get(place) {
        Some(value) => value,
        None => past,
    }
}
