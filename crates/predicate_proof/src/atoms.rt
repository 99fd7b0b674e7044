//! Whether one atom implies another.

ghost use Rattle.std.specs.Prelude.{◌≡◌, ◌↔◌, IsTrue, Some};
ghost use Rattle.pg_expr.specs.Columns.{names_column};
ghost use Rattle.pg_expr.specs.work.View.{cond};
ghost use Rattle.predicate_proof.specs.Atoms.{CellHolds, IsFamilyValue, SameAtom, SameSide, implication_cell, has_column_number, operator_family, plain, typed_family};
ghost use Rattle.predicate_proof.specs.work.Atoms.{ComparisonGives, Gives};

use opfamily::default_family;
use pg_base::ColNo;
use pg_expr::{Expr, Operand};
use pg_value::{Column, Family, Op, SqlType, Value, compare};
use std::cmp::Ordering;

/// Whether two sides of comparisons are one column, by its number, or one literal.
fn is_same_side(a: &Operand, b: &Operand) -> bool
    ensures { IsTrue result ↔ SameSide a.now b.now }
{
    match (a, b) {
        (Operand::Col(c), Operand::Col(d)) => c.col == d.col,
        (Operand::Lit(v), Operand::Lit(w)) => v.is_same(w),
        _ => false,
    }
}

/// Whether two conditions are equal atoms, with columns by their numbers.
pub fn same_atom(a: &Expr, b: &Expr) -> bool
    ensures { IsTrue result ↔ SameAtom (cond a.now) (cond b.now) }
{
    match (a, b) {
        (Expr::Compare(op, l, r), Expr::Compare(other, m, s)) => {
            op == other && is_same_side(l, m) && is_same_side(r, s)
        }
        (Expr::IsNull(c), Expr::IsNull(d)) => c.col == d.col,
        (Expr::IsNotNull(c), Expr::IsNotNull(d)) => c.col == d.col,
        (Expr::BoolCol(c), Expr::BoolCol(d)) => c.col == d.col,
        (Expr::Const(t), Expr::Const(u)) => t == u,
        (Expr::Not(inner), Expr::Not(other)) => same_atom(inner, other),
        _ => false,
    }
}

/// The operator that stands in the table of implications for this one.
fn plain(op: Op) -> Op
    ensures { result ≡ plain op }
{
    match op {
        Op::AbsLt => Op::Lt,
        Op::AbsLe => Op::Le,
        Op::AbsEq => Op::Eq,
        Op::AbsGe => Op::Ge,
        Op::AbsGt => Op::Gt,
        op => op,
    }
}

/// Whether a comparison with a literal implies another one, where the other's literal stands so to the first's.
fn cell(op: Op, other: Op, order: Ordering) -> bool
    ensures { result ≡ implication_cell op other order }
{
    match (op, other) {
        (Op::Lt, Op::Lt | Op::Le | Op::Ne) | (Op::Le | Op::Eq, Op::Le) => order.is_ge(),
        (Op::Le | Op::Eq, Op::Lt) | (Op::Le, Op::Ne) => order.is_gt(),
        (Op::Eq, Op::Eq) | (Op::Ne, Op::Ne) => order.is_eq(),
        (Op::Eq, Op::Ne) => order.is_ne(),
        (Op::Gt, Op::Gt | Op::Ge | Op::Ne) | (Op::Ge | Op::Eq, Op::Ge) => order.is_le(),
        (Op::Ge | Op::Eq, Op::Gt) | (Op::Ge, Op::Ne) => order.is_lt(),
        _ => false,
    }
}

/// Whether a value is not NULL and of the kind that the family orders.
fn is_value_of(f: Family, v: &Value) -> bool
    ensures { IsTrue result ↔ IsFamilyValue f v.now }
{
    match (f, v) {
        (
            Family::Integer
            | Family::IntAbs
            | Family::Date
            | Family::Timestamp
            | Family::TimestampTz
            | Family::Numeric(_),
            Value::Int(_),
        ) => true,
        (Family::Text | Family::Uuid, Value::Text(_)) => true,
        (Family::Bool, Value::Bool(_)) => true,
        _ => false,
    }
}

/// The family of an operator over a type.
fn typed_family(t: SqlType, op: Op) -> Family
    ensures { Some result ≡ typed_family t op }
{
    if op.is_by_magnitude() {
        Family::IntAbs
    } else {
        default_family(t)
    }
}

/// The family of an operator over a column. None where there is no such column.
fn operator_family(columns: &[Column], c: ColNo, op: Op) -> Option<Family>
    ensures { result ≡ operator_family columns.now c op }
{
    match columns.get(usize::from(c.0)) {
        Some(column) => Some(typed_family(column.typed, op)),
        None => None,
    }
}

/// Whether both literals are values of the family, and its order meets the table for the two operators.
fn cell_holds(f: Family, op: Op, v: &Value, other: Op, w: &Value) -> bool
    ensures { IsTrue result ↔ CellHolds (Some f) op v.now other w.now }
{
    if !is_value_of(f, v) || !is_value_of(f, w) {
        return false;
    }
    match compare(f, w, v) {
        Some(order) => cell(plain(op), plain(other), order),
        None => false,
    }
}

/// A comparison of a column, by its number, with a literal.
#[derive(Drop)]
struct Comparison<'a> {
    op: Op,
    col: ColNo,
    value: &'a Value,
}

/// Whether a comparison of a column with a literal implies another one by the table.
fn table_gives(columns: &[Column], given: &Comparison, wanted: &Comparison) -> bool
    ensures { IsTrue result ↔ Gives columns.now given.now wanted.now }
{
    if given.col != wanted.col {
        return false;
    }
    let family = operator_family(columns, given.col, given.op);
    if family != operator_family(columns, wanted.col, wanted.op) {
        return false;
    }
    match family {
        Some(f) => cell_holds(f, given.op, given.value, wanted.op, wanted.value),
        None => false,
    }
}

/// Whether a side of a comparison is the column of this number.
fn has_column_number(side: &Operand, d: ColNo) -> bool
    ensures { result ≡ names_column (has_column_number d) side.now }
{
    match side {
        Operand::Col(c) => c.col == d,
        Operand::Lit(_) => false,
    }
}

/// Whether the clause is a comparison, and implies another atom than its equals.
pub fn comparison_gives(columns: &[Column], clause: &Expr, goal: &Expr) -> bool
    ensures { IsTrue result ↔ ComparisonGives columns.now (cond clause.now) (cond goal.now) }
{
    match (clause, goal) {
        (Expr::Compare(_, l, r), Expr::IsNotNull(d)) => has_column_number(l, d.col)
            || has_column_number(r, d.col),
        (
            Expr::Compare(op, Operand::Col(c), Operand::Lit(v)),
            Expr::Compare(other, Operand::Col(d), Operand::Lit(w)),
        ) => {
            let given = Comparison {
                op: *op,
                col: c.col,
                value: v,
            };
            let wanted = Comparison {
                op: *other,
                col: d.col,
                value: w,
            };
            table_gives(columns, &given, &wanted)
        }
        _ => false,
    }
}
