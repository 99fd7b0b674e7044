//! The keys of a grouped query.

ghost use Rattle.std.specs.Prelude.{◌≡◌, IfOk};
ghost use Rattle.group_explain.specs.GroupPlans as plans;
ghost use Rattle.group_explain.specs.work.GroupPlans as plans_work;
ghost use Rattle.group_query.specs.Grouping as grouping;
ghost use Rattle.group_explain.specs.Texts.{group_query};

use group_query::group_items;
use pathkeys::{Keys, order_keys};
use pg_base::Memory;
use plan_tree::classes_of;
use sql_query::{Grouped, OrderList};
use std::alloc::Global;

/// The GROUP BY columns as items of an order. The error means out of memory.
pub(crate) fn group_order(alloc: Global, g: &Grouped) -> Result<OrderList, Memory>
    ensures { IfOk result (λ items. items ≡ grouping.group_items g.now.base.classes g.now.keys) }
{
    group_items(alloc, classes_of(&g.base), g.keys.items())
}

/// The classes by which groups are told apart. The error means out of memory.
pub(crate) fn group_keys(alloc: Global, g: &Grouped) -> Result<Keys, Memory>
    ensures { IfOk result (λ keys. keys ≡ plans.group_keys (group_query g.now)) }
{
    let items = group_order(alloc, g)?;
    order_keys(alloc, classes_of(&g.base), items.items())
}

/// The classes by which lines are sorted. The error means out of memory.
pub(crate) fn line_keys(alloc: Global, g: &Grouped) -> Result<Keys, Memory>
    ensures { IfOk result (λ keys. keys ≡ plans.line_keys (group_query g.now)) }
{
    order_keys(alloc, classes_of(&g.base), g.order.items())
}
