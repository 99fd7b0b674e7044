//! Lists of ORDER BY items of a query.

ghost use Rattle.std.specs.Prelude.{◌≡◌};

use eq_classes::OrderItem;
use std::marker::Model;

/// The items of an ORDER BY, from the left. Contracts see the list.
#[derive(Debug)]
pub struct OrderList {
    order: Vec<OrderItem>,
}

impl Drop for OrderList {
    fn drop(self) {
        let OrderList { order: _ } = self;
    }
}

impl Model for OrderList {
    ghost use Rattle.std.specs.Prelude.{List};
    ghost use Rattle.eq_classes.specs.declared.order.OrderItem.{OrderItem};

    ghost Value = { List OrderItem };

    ghost view = { λ o. o.order.items };
}

impl OrderList {
    /// The list of these items.
    pub fn from_vec(v: Vec<OrderItem>) -> OrderList
        ensures { result ≡ v.items }
    {
        OrderList { order: v }
    }

    /// The items from the left, lent.
    pub fn items(&self) -> &[OrderItem]
        ensures { result.now ≡ self.now }
    {
        &self.order
    }
}
