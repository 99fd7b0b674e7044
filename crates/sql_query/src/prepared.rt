//! A query with its names bound.

use crate::columns::ColList;
use crate::order::OrderList;
use crate::window::Window;
use catalog::RangeTable;
use eq_classes::Classes;
use pg_expr::Exprs;
use std::marker::Model;

/// A query over a catalogue. It is well bound there where its relations are tables of the catalogue with different
/// aliases, `used` holds every column of `select`, `order` and `where_all` and each is one of its relation's table, the
/// conditions are well typed and keep the limits of conjuncts and atoms, and `classes` are those of the conditions in
/// pushed form and of a list of order items over columns of `used`, in which each column of `order` stands. An item of `order`
/// whose class has no constant and belongs to no earlier item of `order` has its class's direction. The list of order items is
/// `order` itself for a query that is read; of a grouped one the GROUP BY columns stand behind it. Contracts see a `Query`.
pub struct Prepared {
    /// The relations, in FROM order.
    pub range: RangeTable,
    /// The classes of the conditions and of the order items, with the numbered clauses.
    pub classes: Classes,
    /// The columns of the select list from the left.
    pub select: ColList,
    /// The items of ORDER BY from the left.
    pub order: OrderList,
    /// Every column that is named anywhere in the statement.
    pub used: ColList,
    /// The conjuncts as written, all of which are to be True: a condition's parts where it is an AND, else itself.
    pub where_all: Exprs,
    /// The window, where LIMIT or OFFSET is written.
    pub window: Option<Window>,
}

impl Drop for Prepared {
    fn drop(self) {
        let Prepared {
            range: _,
            classes: _,
            select: _,
            order: _,
            used: _,
            where_all: _,
            window: _,
        } = self;
    }
}

impl Model for Prepared {
    ghost use Rattle.std.specs.Prelude.{map};
    ghost use Rattle.std.specs.Coded.{codes};
    ghost use Rattle.pg_expr.specs.work.CondCode.{cond_code};
    ghost use Rattle.pg_expr.specs.work.View.{cond};
    ghost use Rattle.sql_query.specs.Queries.{Query};

    ghost Value = { Query };

    ghost coded = { Prim.hlevel (codes, cond_code (Prim.hlevel codes)) };

    ghost view = { λ q. record { range = q.range; classes = q.classes; select = q.select; order = q.order; used = q.used; where_all = map cond q.where_all.items.items; window = q.window } };
}
