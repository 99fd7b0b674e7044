//! The rows that an index has.

ghost use Rattle.std.specs.Prelude.{◌≡◌};
ghost use Rattle.std.specs.Option.{option_map};
ghost use Rattle.pg_expr.specs.work.View.{cond};
ghost use Rattle.catalog.specs.Indexes.{IsPredicateOf};
ghost use Rattle.heap.specs.Stored.{IsRowOf};
ghost use Rattle.plan_tree.specs.Entries.{meets_predicate};

use heap::{Row, value_in};
use pg_expr::{Binding, ColRef, Expr, eval};
use pg_value::{Columns, SqlType, Truth, Value};

/// A row of a table, with the table's columns. Those of relation 0 are bound.
#[derive(Clone, Copy)]
struct Bound<'a> {
    columns: &'a Columns,
    row: Row<'a>,
}

impl<'a> Binding for Bound<'a> {
    ghost use Rattle.std.specs.Prelude.{◌&&◌, nat_lt, length};
    ghost use Rattle.catalog.specs.Indexes.{type_at};
    ghost use Rattle.plan_tree.specs.Entries.{cell};

    ghost binds = { λ b x. nat_lt x.col.0 (length b.columns.now) && nat_lt x.col.0 (length b.row.now) };

    ghost value_at = { λ b x. cell b.row.now x.col };

    ghost type_of = { λ b x. type_at b.columns.now x.col };

    fn value(&self, c: ColRef) -> &Value {
        value_in(self.row, c.col)
    }

    fn typed(&self, c: ColRef) -> SqlType {
        self.columns.items()[c.col.0 as usize].typed
    }
}

/// Whether an index has a row: its predicate, if it has one, is True there. False and Unknown leave the row out.
pub(crate) fn passes(predicate: &Option<Expr>, columns: &Columns, row: Row) -> bool
    requires predicate { IsPredicateOf columns.now (option_map cond predicate.now) }
    requires row { IsRowOf columns.now row.now }
    ensures { result ≡ meets_predicate (option_map cond predicate.now) row.now }
{
    match predicate {
        None => true,
        Some(e) => eval(e, &Bound { columns, row }) == Truth::True,
    }
}
