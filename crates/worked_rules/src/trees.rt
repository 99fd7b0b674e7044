//! Trees of conditions: their truths, their pushed form, their conjuncts and what they name. Each call once, with ample memory.

ghost use Rattle.std.specs.Prelude.{true, IsTrue};
ghost use Rattle.pg_value.specs.declared.value.SqlType.TheVariants.{Bool as BoolType};
ghost use Rattle.pg_expr.specs.Columns.{each_column};
ghost use Rattle.pg_expr.specs.Typed.{IsTyped};
ghost use Rattle.pg_expr.specs.work.View.{cond};

use crate::build::{column, not, pair};
use pg_base::Memory;
use pg_expr::{
    AtomSet, Binding, ColRef, Expr, Exprs, Operand, conjuncts, eval, is_same, ops, push_not, rels,
};
use pg_value::{Op, SqlType, Truth, Value};
use std::alloc::{AllocError, Global};

/// A row whose columns are all of type bool and have one value.
#[derive(Drop)]
struct Row {
    value: Value,
}

impl Binding for Row {
    ghost use Rattle.std.specs.Prelude.{true};
    ghost use Rattle.pg_value.specs.declared.value.SqlType.TheVariants.{Bool};

    ghost binds = { λ r c. true };

    ghost value_at = { λ r c. r.value };

    ghost type_of = { λ r c. Bool };

    fn value(&self, _c: ColRef) -> &Value {
        &self.value
    }

    fn typed(&self, _c: ColRef) -> SqlType {
        SqlType::Bool
    }
}

/// Whether an expression over bool columns is unknown where they are all NULL, and true where all have this value.
fn is_true(e: &Expr, value: bool) -> bool
    requires typed { IsTyped (λ c. BoolType) (cond e.now) }
    requires bound { IsTrue (each_column (λ c. true) (cond e.now)) }
{
    let null = Row { value: Value::Null };
    let row = Row {
        value: Value::Bool(value),
    };
    eval(e, &null) == Truth::Unknown && eval(e, &row) == Truth::True
}

/// NOT (a = TRUE AND a IS NULL).
fn is_negation_true(alloc: Global) -> bool {
    let a = column(0, 0);
    let holds = Expr::Compare(Op::Eq, Operand::Col(a), Operand::Lit(Value::Bool(true)));
    match pair(alloc, holds, Expr::IsNull(a)) {
        Ok(both) => match not(alloc, Expr::And(both)) {
            Ok(e) => is_true(&e, true),
            Err(_) => false,
        },
        Err(_) => false,
    }
}

/// a OR a IS NOT NULL.
fn is_alternative_true(alloc: Global) -> bool {
    let a = column(0, 0);
    match pair(alloc, Expr::BoolCol(a), Expr::IsNotNull(a)) {
        Ok(either) => is_true(&Expr::Or(either), false),
        Err(_) => false,
    }
}

fn type_in_row(c: ColRef) -> SqlType {
    let row = Row { value: Value::Null };
    row.typed(c)
}

#[test]
fn truths(rt: HostRuntime) {
    assert!(rt; is_negation_true(rt.alloc()));
    assert!(rt; is_alternative_true(rt.alloc()));
    assert!(rt; type_in_row(column(0, 0)) == SqlType::Bool);
}

/// Two columns of two relations, and 5.
fn left() -> Operand {
    Operand::Col(column(0, 1))
}

fn right() -> Operand {
    Operand::Col(column(1, 0))
}

fn five() -> Operand {
    Operand::Lit(Value::Int(5))
}

/// NOT of a list within a list.
fn negated(alloc: Global) -> Result<Expr, Memory> {
    let apart = not(alloc, Expr::Compare(Op::AbsEq, right(), left()))?;
    let inner = pair(alloc, Expr::IsNull(column(2, 0)), apart)?;
    let above = Expr::Compare(Op::Lt, five(), left());
    let outer = pair(alloc, above, Expr::And(inner))?;
    not(alloc, Expr::And(outer))
}

/// NOT of a list within a list, with its NOT pushed inwards and its lists made one.
fn alternatives(alloc: Global) -> Result<Expr, Memory> {
    let parts = [
        Expr::Compare(Op::Le, left(), five()),
        Expr::IsNotNull(column(2, 0)),
        Expr::Compare(Op::AbsEq, left(), right()),
    ];
    match Vec::from_array(alloc, parts) {
        Ok(items) => Ok(Expr::Or(Exprs::from_vec(items))),
        Err(_) => Err(AllocError),
    }
}

/// Whether a copy of an expression is the same.
fn is_copied(alloc: Global, e: &Expr) -> bool {
    match e.copy(alloc) {
        Ok(copied) => is_same(&copied, e),
        Err(_) => false,
    }
}

fn is_alternatives(alloc: Global, e: &Expr) -> bool {
    match alternatives(alloc) {
        Ok(expected) => is_same(e, &expected),
        Err(_) => false,
    }
}

/// Whether an expression in pushed form is that of alternatives, and not this one.
fn is_pushed(alloc: Global, e: Expr, other: &Expr) -> bool {
    match push_not(alloc, e) {
        Ok(pushed) => is_alternatives(alloc, &pushed) && !is_same(&pushed, other),
        Err(_) => false,
    }
}

/// Whether the negated list in pushed form is that of alternatives, and not this expression.
fn is_negation_pushed(alloc: Global, other: &Expr) -> bool {
    match negated(alloc) {
        Ok(e) => is_pushed(alloc, e, other),
        Err(_) => false,
    }
}

fn has_pushed_form(alloc: Global) -> bool {
    match negated(alloc) {
        Ok(e) => ops(&e) == 3 && is_copied(alloc, &e) && is_negation_pushed(alloc, &e),
        Err(_) => false,
    }
}

fn is_left(o: &Operand) -> bool {
    match o {
        Operand::Col(c) => *c == column(0, 1),
        Operand::Lit(_) => false,
    }
}

fn is_operand_copied(alloc: Global) -> bool {
    match left().copy(alloc) {
        Ok(copied) => is_left(&copied),
        Err(_) => false,
    }
}

#[test]
fn pushed_forms(rt: HostRuntime) {
    assert!(rt; has_pushed_form(rt.alloc()));
    assert!(rt; is_operand_copied(rt.alloc()));
}

/// Tests of three columns for NULL, the first two in a list of their own.
fn nested(alloc: Global) -> Result<Expr, Memory> {
    let first = pair(
        alloc,
        Expr::IsNull(column(0, 0)),
        Expr::IsNull(column(0, 1)),
    )?;
    let both = pair(alloc, Expr::And(first), Expr::IsNull(column(1, 0)))?;
    Ok(Expr::And(both))
}

fn is_test(e: &Expr, column: ColRef) -> bool {
    match e {
        Expr::IsNull(c) => *c == column,
        _ => false,
    }
}

/// Whether a list is one of tests of these columns for NULL, in order.
fn has_tests(list: &Exprs, columns: &[ColRef]) -> bool {
    let parts = list.items();
    if parts.len() != columns.len() {
        return false;
    }
    for n in 0..parts.len() {
        if !is_test(&parts[n], columns[n]) {
            return false;
        }
    }
    true
}

fn is_list_copied(alloc: Global, list: &Exprs, columns: &[ColRef]) -> bool {
    match list.copy(alloc) {
        Ok(copied) => has_tests(&copied, columns),
        Err(_) => false,
    }
}

fn are_conjuncts(alloc: Global, e: Expr, columns: &[ColRef]) -> bool {
    match conjuncts(alloc, e) {
        Ok(list) => has_tests(&list, columns) && is_list_copied(alloc, &list, columns),
        Err(_) => false,
    }
}

fn has_conjuncts(alloc: Global) -> bool {
    let columns = [column(0, 0), column(0, 1), column(1, 0)];
    match nested(alloc) {
        Ok(e) => are_conjuncts(alloc, e, &columns),
        Err(_) => false,
    }
}

/// The relations of a comparison.
fn compared_relations() -> u16 {
    let e = Expr::Compare(
        Op::Eq,
        Operand::Col(column(1, 0)),
        Operand::Col(column(3, 0)),
    );
    rels(&e).0
}

/// Which of five atoms a set of atoms 0 and 200 has.
fn held_atoms() -> [bool; 5] {
    let mut set = AtomSet::empty();
    set.insert(0);
    set.insert(200);
    [
        set.has(0),
        set.has(1),
        set.has(64),
        set.has(200),
        set.has(255),
    ]
}

#[test]
fn conjuncts_relations_and_atoms(rt: HostRuntime) {
    assert!(rt; has_conjuncts(rt.alloc()));
    assert!(rt; compared_relations() == 0b1010);
    assert!(rt; held_atoms() == [true, false, false, true, false]);
}
