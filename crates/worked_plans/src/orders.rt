//! How scans by an index are sorted, against an ORDER BY.

ghost use Rattle.std.specs.Prelude.{◌≡◌, ◌≤◌, IfOk, length};
ghost use Rattle.pg_base.specs.declared.limits.TheConstants.{MOST_CONJUNCTS};
ghost use Rattle.pg_expr.specs.Cond.{compare, cond_and, no_conds};
ghost use Rattle.pg_expr.specs.work.View.{conds};
ghost use Rattle.pg_expr.specs.declared.operand.Operand.TheVariants.{Col, Lit};
ghost use Rattle.pg_value.specs.declared.operators.Op.TheVariants.{Eq};
ghost use Rattle.pg_value.specs.declared.value.Value.TheVariants.{Int};

use crate::script::define;
use catalog::{Catalog, RangeTable};
use eq_classes::{ClassNo, Classes, OrderItem};
use pathkeys::{Keys, index_keys, order_keys};
use pg_base::{ColNo, Memory, RelNo, TableNo};
use pg_expr::{Binding, ColRef, Expr, Exprs, Operand};
use pg_value::{Bytes, Op, SqlType, Value};
use std::alloc::Global;

/// The first class and the second one.
const ONE: ClassNo = ClassNo(0);

const TWO: ClassNo = ClassNo(1);

/// An index of a table of a and b; whether the query has `a = 5`, whose class is the first and has a constant; the column of
/// its ORDER BY, whether that descends and whether NULL stands first in it; and the classes by which a forward scan, a backward
/// scan and the ORDER BY are sorted.
type Sorted<'a> = (&'a [u8], bool, (u8, bool, bool), [&'a [ClassNo]; 3]);

const SORTED: [Sorted; 11] = [
    (
        b"CREATE INDEX i ON t (a, b);",
        true,
        (1, false, false),
        [&[TWO], &[], &[TWO]],
    ),
    (
        b"CREATE INDEX i ON t (a DESC, b);",
        true,
        (1, true, true),
        [&[], &[TWO], &[TWO]],
    ),
    (
        b"CREATE INDEX i ON t (b, a);",
        true,
        (1, false, false),
        [&[TWO], &[], &[TWO]],
    ),
    (
        b"CREATE INDEX i ON t (a);",
        true,
        (0, false, false),
        [&[], &[], &[]],
    ),
    (
        b"CREATE INDEX i ON t USING hash (b);",
        true,
        (1, false, false),
        [&[], &[], &[TWO]],
    ),
    (
        b"CREATE INDEX i ON t (a DESC NULLS LAST);",
        false,
        (0, true, true),
        [&[], &[], &[ONE]],
    ),
    (
        b"CREATE INDEX i ON t (a DESC NULLS LAST);",
        false,
        (0, true, false),
        [&[ONE], &[], &[ONE]],
    ),
    (
        b"CREATE INDEX i ON t (a) INCLUDE (b);",
        false,
        (0, true, true),
        [&[], &[ONE], &[ONE]],
    ),
    (
        b"CREATE INDEX i ON t (a, b);",
        false,
        (1, false, false),
        [&[], &[], &[ONE]],
    ),
    (
        b"CREATE INDEX i ON t (b, a);",
        false,
        (1, false, false),
        [&[ONE], &[], &[ONE]],
    ),
    (
        b"CREATE INDEX i ON t (a int4_abs_ops);",
        false,
        (0, false, false),
        [&[], &[], &[ONE]],
    ),
];

/// Columns of type int4.
#[derive(Drop)]
struct Ints {
    value: Value,
}

impl Binding for Ints {
    ghost use Rattle.std.specs.Prelude.{true};
    ghost use Rattle.pg_value.specs.declared.value.SqlType.TheVariants.{Int4};

    ghost binds = { λ r c. true };

    ghost value_at = { λ r c. r.value };

    ghost type_of = { λ r c. Int4 };

    fn value(&self, _c: ColRef) -> &Value {
        &self.value
    }

    fn typed(&self, _c: ColRef) -> SqlType {
        SqlType::Int4
    }
}

/// A column of the table.
fn column(col: u8) -> ColRef
    ensures { result ≡ record { rel = record { 0 = 0 }; col = record { 0 = col } } }
{
    ColRef {
        rel: RelNo(0),
        col: ColNo(col),
    }
}

/// The condition that the first column is a number.
fn first_is(alloc: Global, n: i64) -> Result<Exprs, Memory>
    ensures parts { IfOk result (λ es. conds es.items.items ≡ cond_and (compare Eq (Col (record { rel = record { 0 = 0 }; col = record { 0 = 0 } })) (Lit (Int n))) no_conds) }
    ensures few { IfOk result (λ es. length es.items.items ≤ MOST_CONJUNCTS) }
{
    let mut items = Vec::new(alloc);
    items.push(Expr::Compare(Op::Eq, Operand::Col(column(0)), Operand::Lit(Value::Int(n))))?;
    Ok(Exprs::from_vec(items))
}

/// The classes of the ORDER BY of one column, with the condition that the first one is 5 or without.
fn classes(alloc: Global, fixed: bool, order: OrderItem) -> Result<Classes, Memory>
    requires { order.col.rel.0 ≡ 0 }
{
    if fixed {
        fixed_classes(alloc, order)
    } else {
        let ints = Ints { value: Value::Null };
        Classes::build(alloc, Exprs::from_vec(Vec::new(alloc)), &[order], &ints)
    }
}

fn fixed_classes(alloc: Global, order: OrderItem) -> Result<Classes, Memory>
    requires { order.col.rel.0 ≡ 0 }
{
    let conjuncts = first_is(alloc, 5)?;
    Classes::build(alloc, conjuncts, &[order], &Ints { value: Value::Null })
}

/// The one relation of a query of the table.
fn relation(alloc: Global) -> Result<RangeTable, Memory> {
    let mut relations = Vec::new(alloc);
    relations.push((TableNo(0), Bytes::from_vec(Vec::new(alloc))))?;
    Ok(RangeTable::from_vec(relations))
}

/// The classes by which a scan by the index `i` is sorted; none where it is not there.
fn keys_by(
    alloc: Global,
    cat: &Catalog,
    t: &Classes,
    backward: bool,
) -> Result<Option<Keys>, Memory> {
    let range = relation(alloc)?;
    match cat.index_named(b"i") {
        Some(i) => Ok(Some(index_keys(alloc, cat, &range, t, i, RelNo(0), backward)?)),
        None => Ok(None),
    }
}

/// Whether a scan by the index `i` is sorted by these classes.
fn is_sorted_by(
    alloc: Global,
    cat: &Catalog,
    t: &Classes,
    backward: bool,
    wanted: &[ClassNo],
) -> bool {
    match keys_by(alloc, cat, t, backward) {
        Ok(Some(keys)) => keys.items() == wanted,
        _ => false,
    }
}

/// Whether an ORDER BY sorts by these classes.
fn is_ordered_by(alloc: Global, t: &Classes, order: OrderItem, wanted: &[ClassNo]) -> bool
    requires { order.col.rel.0 ≡ 0 }
{
    match order_keys(alloc, t, &[order]) {
        Ok(keys) => keys.items() == wanted,
        Err(_) => false,
    }
}

/// Whether a forward scan by the index `i`, a backward one and the ORDER BY are sorted by these classes.
fn are_sorted_by(
    alloc: Global,
    cat: &Catalog,
    t: &Classes,
    order: OrderItem,
    wanted: [&[ClassNo]; 3],
) -> bool
    requires { order.col.rel.0 ≡ 0 }
{
    is_sorted_by(alloc, cat, t, false, wanted[0])
        && is_sorted_by(alloc, cat, t, true, wanted[1])
        && is_ordered_by(alloc, t, order, wanted[2])
}

/// Whether scans by the index of a row, and its ORDER BY, are sorted by the classes of the row.
fn are_sorted(alloc: Global, cat: &Catalog, row: Sorted) -> bool {
    let (_, fixed, (col, descending, nulls_first), wanted) = row;
    let order = OrderItem {
        col: column(col),
        descending,
        nulls_first,
    };
    match classes(alloc, fixed, order) {
        Ok(t) => are_sorted_by(alloc, cat, &t, order, wanted),
        Err(_) => false,
    }
}

/// Whether a row holds over a table with its index.
fn is_as_told(alloc: Global, row: Sorted) -> bool {
    let mut cat = Catalog::new(alloc);
    define(alloc, &mut cat, b"CREATE TABLE t (a int4, b int4);").is_ok()
        && define(alloc, &mut cat, row.0).is_ok()
        && are_sorted(alloc, &cat, row)
}

/// The place of the first row that is sorted otherwise.
fn first_wrong(alloc: Global, rows: &[Sorted]) -> Option<usize> {
    for n in 0..rows.len() {
        if !is_as_told(alloc, rows[n]) {
            return Some(n);
        }
    }
    None
}

#[test]
fn scans_by_an_index_are_sorted_as_worked_out(rt: HostRuntime) {
    assert_eq!(rt; first_wrong(rt.alloc(), &SORTED), None);
}
