//! A SELECT that groups, with its names bound.

ghost use Rattle.std.specs.Prelude.{◌≡◌};

use crate::columns::ColList;
use crate::order::OrderList;
use crate::prepared::Prepared;
use pg_expr::ColRef;
use std::marker::Model;

/// What a line of a grouped SELECT shows of its group (PostgreSQL manual, Aggregate Functions).
#[derive(Clone, Copy, Debug, PartialEq, Eq)]
pub enum Item {
    /// The value of a GROUP BY column, by its place among these, from 0.
    Key(u32),
    /// `count(*)`: the number of the group's tuples.
    CountAll,
    /// `count(column)`: the number of those at which the column is not NULL.
    Count(ColRef),
    /// `min(column)`: the least value of the column that is not NULL, or NULL.
    Min(ColRef),
    /// `max(column)`: the greatest one, or NULL.
    Max(ColRef),
}

/// The items that a grouped SELECT shows, from the left. Contracts see the list.
#[derive(Debug)]
pub struct ItemList {
    items: Vec<Item>,
}

impl Drop for ItemList {
    fn drop(self) {
        let ItemList { items: _ } = self;
    }
}

impl Model for ItemList {
    ghost use Rattle.std.specs.Prelude.{List};
    ghost use Rattle.sql_query.specs.declared.grouped.Item.{Item};

    ghost Value = { List Item };

    ghost view = { λ l. l.items.items };
}

impl ItemList {
    /// The list of these items.
    pub fn from_vec(v: Vec<Item>) -> ItemList
        ensures { result ≡ v.items }
    {
        ItemList { items: v }
    }

    /// The items from the left, lent.
    pub fn items(&self) -> &[Item]
        ensures { result.now ≡ self.now }
    {
        &self.items
    }
}

/// A grouped SELECT over a catalogue: one with GROUP BY, or one that shows a call alone (PostgreSQL manual, chapter Queries, GROUP
/// BY). Contracts see a `GroupedQuery`.
pub struct Grouped {
    /// The query whose tuples are grouped. Its classes are made of the items of ORDER BY and then of the GROUP BY columns,
    /// ascending with NULLs last, and it shows no column and has no window.
    pub base: Prepared,
    /// The GROUP BY columns from the left; none where GROUP BY is not written, and then all tuples are one group.
    pub keys: ColList,
    /// What is shown of each group, from the left.
    pub items: ItemList,
    /// The items of ORDER BY from the left, each by a GROUP BY column.
    pub order: OrderList,
}

impl Drop for Grouped {
    fn drop(self) {
        let Grouped {
            base: _,
            keys: _,
            items: _,
            order: _,
        } = self;
    }
}

impl Model for Grouped {
    ghost use Rattle.std.specs.Coded.{codes};
    ghost use Rattle.pg_expr.specs.work.CondCode.{cond_code};
    ghost use Rattle.sql_query.specs.Grouped.{GroupedQuery};

    ghost Value = { GroupedQuery };

    ghost coded = { Prim.hlevel (codes, cond_code (Prim.hlevel codes)) };

    ghost view = { λ g. record { base = g.base; keys = g.keys; items = g.items; order = g.order } };
}
