//! What a grouped query shows of groups.

ghost use Rattle.std.specs.Prelude.{◌≡◌, ◌<◌, ◌≤◌, ◌^◌, IfOk, length, map};
ghost use Rattle.eq_classes.specs.Equality.{is_column};
ghost use Rattle.group_query.specs.Shapes as shapes;
ghost use Rattle.group_query.specs.Shapes.{args_of, calls_of};

use eq_classes::OrderItem;
use group_values::{Call, Shape, Shown, Sorter};
use pg_base::Memory;
use pg_expr::ColRef;
use sql_query::{Grouped, Item};
use std::alloc::Global;

/// The call that an item is.
fn call_in(item: Item) -> Option<Call>
    ensures { result ≡ shapes.call_in item }
{
    match item {
        Item::Key(_) => None,
        Item::CountAll => Some(Call::CountAll),
        Item::Count(_) => Some(Call::Count),
        Item::Min(_) => Some(Call::Min),
        Item::Max(_) => Some(Call::Max),
    }
}

/// The column of the call that an item is; count(*) has none.
fn arg_in(item: Item) -> Option<Option<ColRef>>
    ensures { result ≡ shapes.arg_in item }
{
    match item {
        Item::Key(_) => None,
        Item::CountAll => Some(None),
        Item::Count(x) => Some(Some(x)),
        Item::Min(x) => Some(Some(x)),
        Item::Max(x) => Some(Some(x)),
    }
}

/// The calls among items, from the left.
fn calls_in(alloc: Global, items: &[Item]) -> Result<Vec<Call>, Memory>
    ensures { IfOk result (λ v. v.items ≡ calls_of items.now) }
{
    let mut calls = Vec::new(alloc);
    for item in items {
        if let Some(call) = call_in(*item) {
            calls.push(call)?;
        }
    }
    Ok(calls)
}

/// The columns of the calls among items, from the left.
fn args_in(alloc: Global, items: &[Item]) -> Result<Vec<Option<ColRef>>, Memory>
    ensures { IfOk result (λ v. v.items ≡ args_of items.now) }
{
    let mut args = Vec::new(alloc);
    for item in items {
        if let Some(arg) = arg_in(*item) {
            args.push(arg)?;
        }
    }
    Ok(args)
}

/// What an item shows, where so many calls stand before it.
fn shown_at(called: u32, item: Item) -> Shown
    ensures { result ≡ shapes.shown_at called item }
{
    match item {
        Item::Key(place) => Shown::Key(place),
        _ => Shown::Called(called),
    }
}

/// How many calls stand before the next item.
fn calls_after(called: u32, item: Item) -> u32
    requires { shapes.calls_after called item < 2 ^ 32 }
    ensures { result ≡ shapes.calls_after called item }
{
    match item {
        Item::Key(_) => called,
        _ => called + 1,
    }
}

/// What items show, from the left.
fn shown_in(alloc: Global, items: &[Item]) -> Result<Vec<Shown>, Memory>
    requires { length (calls_of items.now) < 2 ^ 32 }
    ensures { IfOk result (λ v. v.items ≡ shapes.shown_from 0 items.now) }
{
    let mut shown = Vec::new(alloc);
    let mut called = 0;
    for item in items {
        shown.push(shown_at(called, *item))?;
        called = calls_after(called, *item);
    }
    Ok(shown)
}

/// Whether two columns are one.
fn same_column(c: ColRef, d: ColRef) -> bool
    ensures { result ≡ is_column c d }
{
    c.rel.0 == d.rel.0 && c.col.0 == d.col.0
}

/// Where a column stands first among the GROUP BY columns, 0 where it is none of them.
fn place_in(keys: &[ColRef], x: ColRef) -> usize
    ensures place { result ≡ shapes.place_in keys.now x }
    ensures within { result ≤ length keys.now }
{
    for n in 0..keys.len() {
        if same_column(x, keys[n]) {
            return n;
        }
    }
    0
}

/// An item of ORDER BY, by the place of its column.
fn sorter_in(keys: &[ColRef], item: OrderItem) -> Sorter
    requires { length keys.now < 2 ^ 32 }
    ensures { result ≡ shapes.sorter_in keys.now item }
{
    Sorter {
        place: place_in(keys, item.col) as u32,
        descending: item.descending,
        nulls_first: item.nulls_first,
    }
}

/// The items of ORDER BY, by the places of their columns.
fn sorters_in(alloc: Global, keys: &[ColRef], order: &[OrderItem]) -> Result<Vec<Sorter>, Memory>
    requires { length keys.now < 2 ^ 32 }
    ensures { IfOk result (λ v. v.items ≡ map (shapes.sorter_in keys.now) order.now) }
{
    order
        .iter()
        .map(|item| sorter_in(keys, *item))
        .collect(alloc)
}

/// What a grouped query shows of the groups of its tuples: its calls, what a line shows, and ORDER BY by places among the GROUP
/// BY columns. These and the calls are fewer than 2^32. The error means out of memory.
pub fn shape_of(alloc: Global, g: &Grouped) -> Result<Shape, Memory>
    requires keys { length g.now.keys < 2 ^ 32 }
    requires calls { length (calls_of g.now.items) < 2 ^ 32 }
    ensures { IfOk result (λ s. s ≡ shapes.shape_of g.now) }
{
    let keys = g.keys.items();
    let calls = calls_in(alloc, g.items.items())?;
    let items = shown_in(alloc, g.items.items())?;
    let order = sorters_in(alloc, keys, g.order.items())?;
    Ok(Shape {
        width: keys.len(),
        calls,
        items,
        order,
    })
}

/// The columns of the calls of a grouped query, from the left; count(*) has none. The error means out of memory.
pub fn call_columns(alloc: Global, g: &Grouped) -> Result<Vec<Option<ColRef>>, Memory>
    ensures { IfOk result (λ v. v.items ≡ args_of g.now.items) }
{
    args_in(alloc, g.items.items())
}

/// How many calls a grouped query shows.
pub fn number_of_calls(g: &Grouped) -> usize
    ensures { result ≡ length (calls_of g.now.items) }
{
    let mut number = 0;
    for item in g.items.items() {
        if call_in(*item).is_some() {
            number += 1;
        }
    }
    number
}
