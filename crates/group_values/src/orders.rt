//! How values and lists of values stand to one another.

ghost use Rattle.std.specs.Prelude.{◌≡◌, map, slice_index_or};
ghost use Rattle.pg_value.specs.ColumnOrder.{place_of_null};
ghost use Rattle.pg_value.specs.Kinds.{directed_order};
ghost use Rattle.pg_value.specs.Sorting.{one_after_other};
ghost use Rattle.group_values.specs.Groups.{same_keys, sorter_order};

use crate::kept::Kept;
use crate::shape::Sorter;
use pg_value::{Value, kind_order};
use std::cmp::Ordering;

/// How two values of any kind stand to one another, where NULL has a place of its own whatever the direction.
pub(crate) fn directed_order(descending: bool, nulls_first: bool, a: &Value, b: &Value) -> Ordering
    ensures { result ≡ directed_order descending nulls_first a.now b.now }
{
    match (a, b) {
        (Value::Null, Value::Null) => Ordering::Equal,
        (Value::Null, _) => place_of_null(nulls_first),
        (_, Value::Null) => place_of_null(nulls_first).reverse(),
        _ if descending => kind_order(a, b).reverse(),
        _ => kind_order(a, b),
    }
}

/// How NULL stands to all other values.
fn place_of_null(first: bool) -> Ordering
    ensures { result ≡ place_of_null first }
{
    if first {
        Ordering::Less
    } else {
        Ordering::Greater
    }
}

/// Whether two lists have the same values, NULL like NULL.
pub fn same_keys(a: &[Value], b: &[Value]) -> bool
    ensures { result ≡ same_keys a.now b.now }
{
    if a.len() != b.len() {
        return false;
    }
    for n in 0..a.len() {
        if kind_order(&a[n], &b[n]).is_ne() {
            return false;
        }
    }
    true
}

/// The value at a place of a list, or another one past its end.
fn value_or<'a>(values: &'a [Value], place: usize, past: &'a Value) -> &'a Value
    ensures { result.now ≡ slice_index_or values.now place past.now }
{
    match values.get(place) {
        Some(value) => value,
        None => past,
    }
}

/// How two groups stand to one another, by the first item that tells them apart.
pub fn compare(order: &[Sorter], a: &Kept, b: &Kept) -> Ordering
    ensures { result ≡ one_after_other (map sorter_order order.now) a.now b.now }
{
    for i in 0..order.len() {
        match compare_at(order[i], a, b) {
            Ordering::Equal => {}
            unequal => return unequal,
        }
    }
    Ordering::Equal
}

/// How two groups stand to one another by one item.
fn compare_at(sorter: Sorter, a: &Kept, b: &Kept) -> Ordering
    ensures { result ≡ sorter_order sorter a.now b.now }
{
    let place = sorter.place as usize;
    let null = Value::Null;
    let one = value_or(a.keys(), place, &null);
    let other = value_or(b.keys(), place, &null);
    directed_order(sorter.descending, sorter.nulls_first, one, other)
}
