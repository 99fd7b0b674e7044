//! The order in which the tuples of a grouped query are asked for.

ghost use Rattle.std.specs.Prelude.{◌≡◌, IfOk};
ghost use Rattle.group_query.specs.Grouping as grouping;
ghost use Rattle.pathkeys.specs.Keys as keys;
ghost use Rattle.pathkeys.specs.work.Keys as keys_work;

use eq_classes::{Classes, OrderItem};
use pathkeys::order_class;
use pg_base::Memory;
use pg_expr::ColRef;
use sql_query::OrderList;
use std::alloc::Global;

/// A column as an item with the direction and the place for NULL of its class: ascending with NULLs last where it has none.
fn directed(classes: &Classes, x: ColRef) -> OrderItem
    ensures { result ≡ grouping.directed_item classes.now x (keys.order_class classes.now x) }
{
    let (descending, nulls_first) = match order_class(classes, x) {
        Some(class) => classes.direction(class),
        None => (false, false),
    };
    OrderItem {
        col: x,
        descending,
        nulls_first,
    }
}

/// Columns as such items.
fn directed_each(
    alloc: Global,
    classes: &Classes,
    keys: &[ColRef],
) -> Result<Vec<OrderItem>, Memory>
    ensures { IfOk result (λ v. v.items ≡ grouping.group_items classes.now keys.now) }
{
    keys.iter().map(|x| directed(classes, *x)).collect(alloc)
}

/// The GROUP BY columns of a query with these classes as items of an order, each with the direction and the place for NULL of
/// its class in its default family; ascending with NULLs last where there is no such class (PostgreSQL,
/// src/backend/optimizer/path/ pathkeys.c, make_pathkeys_for_sortclauses). The error means out of memory.
pub fn group_items(alloc: Global, classes: &Classes, keys: &[ColRef]) -> Result<OrderList, Memory>
    ensures { IfOk result (λ l. l ≡ grouping.group_items classes.now keys.now) }
{
    let items = directed_each(alloc, classes, keys)?;
    Ok(OrderList::from_vec(items))
}
