//! Each call once.

use eq_classes::OrderItem;
use pg_base::{ColNo, RelNo};
use pg_expr::ColRef;
use sql_query::{ColList, OrderList};
use std::alloc::{AllocError, Global};

fn column(n: u8) -> ColRef {
    ColRef {
        rel: RelNo(0),
        col: ColNo(n),
    }
}

/// An item of an ORDER BY: its column, whether it descends, and whether NULL stands first in it.
type Item = (u8, bool, bool);

const ITEMS: [Item; 3] = [(2, false, false), (0, true, false), (1, false, true)];

fn item(of: Item) -> OrderItem {
    OrderItem {
        col: column(of.0),
        descending: of.1,
        nulls_first: of.2,
    }
}

fn columns(alloc: Global, items: &[Item]) -> Result<ColList, AllocError> {
    let mut columns = Vec::new(alloc);
    for item in items {
        columns.push(column(item.0))?;
    }
    Ok(ColList::from_vec(columns))
}

fn order(alloc: Global, items: &[Item]) -> Result<OrderList, AllocError> {
    let mut order = Vec::new(alloc);
    for listed in items {
        order.push(item(*listed))?;
    }
    Ok(OrderList::from_vec(order))
}

/// The place of the first item that is another one.
fn first_other(columns: &[ColRef], order: &[OrderItem], items: &[Item]) -> Option<usize> {
    for (n, listed) in items.iter().enumerate() {
        if columns.get(n) != Some(&column(listed.0)) || order.get(n) != Some(&item(*listed)) {
            return Some(n);
        }
    }
    None
}

#[test]
fn lists_keep_their_order(rt: HostRuntime) {
    let columns = columns(rt.alloc(), &ITEMS).expect(&rt, "ample memory");
    let order = order(rt.alloc(), &ITEMS).expect(&rt, "ample memory");
    assert_eq!(rt; (columns.items().len(), order.items().len()), (3, 3));
    assert_eq!(rt; first_other(columns.items(), order.items(), &ITEMS), None);
}
