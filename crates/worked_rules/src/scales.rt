//! Classes of numerics: each scale has its own, and one number is another constant in another scale.

ghost use Rattle.std.specs.Prelude.{◌≡◌, ◌<◌, true, IfOk, IsTrue, length, nat_lt};
ghost use Rattle.pg_value.specs.declared.value.SqlType.TheVariants.{Numeric as NumericType};
ghost use Rattle.pg_expr.specs.Columns.{each_column, each_column_of};
ghost use Rattle.pg_expr.specs.Typed.{IsTyped, AreTyped};
ghost use Rattle.pg_expr.specs.work.View.{cond, conds};

use crate::build::column;
use eq_classes::Classes;
use pg_base::Memory;
use pg_expr::{Binding, ColRef, Expr, Exprs, Operand, is_same};
use pg_value::{Family, Op, SqlType, Value};
use std::alloc::{AllocError, Global};

/// Columns of numerics of ten digits, as many of them behind the point as the column's place says.
#[derive(Drop)]
struct Scaled {
    value: Value,
}

impl Binding for Scaled {
    ghost use Rattle.std.specs.Prelude.{true};
    ghost use Rattle.pg_value.specs.declared.value.SqlType.TheVariants.{Numeric};

    ghost binds = { λ r c. true };

    ghost value_at = { λ r c. r.value };

    ghost type_of = { λ r c. Numeric 10 c.col.0 };

    fn value(&self, _c: ColRef) -> &Value {
        &self.value
    }

    fn typed(&self, c: ColRef) -> SqlType {
        SqlType::Numeric {
            digits: 10,
            scale: c.col.0,
        }
    }
}

/// A column, by its relation and its place there, that equals a number.
type Priced = (u8, u8, i64);

/// The expression of a price. Relations count below 16.
fn expr_of(of: Priced) -> Expr
    ensures typed { IsTyped (λ c. NumericType 10 c.col.0) (cond result) }
    ensures rels { IsTrue (each_column (λ c. nat_lt c.rel.0 16) (cond result)) }
    ensures bound { IsTrue (each_column (λ c. true) (cond result)) }
{
    let place = column(of.0 % 16, of.1);
    Expr::Compare(Op::Eq, Operand::Col(place), Operand::Lit(Value::Int(of.2)))
}

/// The expressions of some prices.
fn exprs_of(alloc: Global, parts: &[Priced]) -> Result<Vec<Expr>, Memory>
    ensures typed { IfOk result (λ es. AreTyped (λ c. NumericType 10 c.col.0) (conds es.items)) }
    ensures rels { IfOk result (λ es. IsTrue (each_column_of (λ c. nat_lt c.rel.0 16) (conds es.items))) }
    ensures bound { IfOk result (λ es. IsTrue (each_column_of (λ c. true) (conds es.items))) }
    ensures many { IfOk result (λ es. length es.items ≡ length parts.now) }
{
    let Some((part, others)) = parts.split_first() else {
        return Ok(Vec::new(alloc));
    };
    let mut exprs = exprs_of(alloc, others)?;
    exprs.insert(0, expr_of(*part))?;
    Ok(exprs)
}

/// The classes of some prices, of which there are few.
fn classes_of(alloc: Global, parts: &[Priced]) -> Result<Classes, Memory> {
    if parts.len() > 8 {
        return Err(AllocError);
    }
    let conjuncts = Exprs::from_vec(exprs_of(alloc, parts)?);
    Classes::build(alloc, conjuncts, &[], &Scaled { value: Value::Null })
}

/// Whether the clauses are those wanted, in this order.
fn lists(t: &Classes, wanted: &[Expr]) -> bool {
    if t.count() != wanted.len() {
        return false;
    }
    for n in 0..wanted.len() {
        if !is_same(t.clause(n as u16), &wanted[n]) {
            return false;
        }
    }
    true
}

fn has_clauses(alloc: Global, t: &Classes, wanted: &[Priced]) -> bool {
    match exprs_of(alloc, wanted) {
        Ok(exprs) => lists(t, &exprs),
        Err(_) => false,
    }
}

/// Whether the classes of these prices have these clauses.
fn are_listed(alloc: Global, parts: &[Priced], clauses: &[Priced]) -> bool {
    match classes_of(alloc, parts) {
        Ok(t) => has_clauses(alloc, &t, clauses),
        Err(_) => false,
    }
}

/// 3.50 in hundredths, and 350 and 7 without a point: the number 350 joins no two scales.
const TWO_SCALES: [Priced; 3] = [(0, 2, 350), (0, 0, 350), (0, 0, 7)];

/// 3.00 and 3.00, and 7.00, all in hundredths: both columns have both constants.
const ONE_SCALE: [Priced; 3] = [(0, 2, 300), (1, 2, 300), (1, 2, 700)];

const ONE_SCALE_CLAUSES: [Priced; 4] = [(0, 2, 300), (0, 2, 700), (1, 2, 300), (1, 2, 700)];

/// Whether a column is of a class with a constant, in the family of its scale alone.
fn has_class(t: &Classes, rel: u8, scale: u8) -> bool {
    let place = column(rel, scale);
    let Some(n) = t.class_of(place, Family::Numeric(scale)) else {
        return false;
    };
    t.has_constant(n)
        && t.plain_class_of(place) == Some(n)
        && t.family(n) == Family::Numeric(scale)
        && t.class_of(place, Family::Numeric(7)).is_none()
        && t.class_of(place, Family::Integer).is_none()
}

#[test]
fn a_number_is_a_constant_of_one_scale(rt: HostRuntime) {
    let two = classes_of(rt.alloc(), &TWO_SCALES).expect(&rt, "classes");
    assert_eq!(rt; two.count(), 3);
    assert!(rt; has_class(&two, 0, 2));
    assert!(rt; has_class(&two, 0, 0));
    assert!(rt;
        two.class_of(column(0, 2), Family::Numeric(2))
            != two.class_of(column(0, 0), Family::Numeric(0))
    );
    assert!(rt; are_listed(rt.alloc(), &ONE_SCALE, &ONE_SCALE_CLAUSES));
}
