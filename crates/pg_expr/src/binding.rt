//! What each column stands for, and the truth of a condition.

ghost use Rattle.std.specs.Prelude.{◌≡◌, IsTrue};
ghost use Rattle.pg_expr.specs.Cond.{compare};
ghost use Rattle.pg_expr.specs.Columns.{passes_column, each_column, each_column_of};
ghost use Rattle.pg_expr.specs.Truths.{value_of, truth_at, truth_of_all, truth_of_any, truth_of_null, truth_of_flag};
ghost use Rattle.pg_expr.specs.Typed.{IsTyped, AreTyped};
ghost use Rattle.pg_expr.specs.work.Typed.{FitsTypes};
ghost use Rattle.pg_expr.specs.work.View.{cond, conds};

use crate::expr::Expr;
use crate::operand::{ColRef, Operand};
use pg_value::{Op, SqlType, Truth, Value, apply};

/// A row, or rows of several relations: the values and types of their columns. The condition of both calls is that
/// the column is bound.
pub trait Binding {
    ghost use Rattle.std.specs.Prelude.{Bool, IsTrue, ◌≡◌};
    ghost use Rattle.pg_expr.specs.declared.operand.ColRef.{ColRef};
    ghost use Rattle.pg_value.specs.declared.value.SqlType.{SqlType};
    ghost use Rattle.pg_value.specs.declared.value.Value.{Value};

    ghost binds: { Self → ColRef → Bool };

    ghost value_at: { Self → ColRef → Value };

    ghost type_of: { Self → ColRef → SqlType };

    /// The column's value.
    fn value(&self, c: ColRef) -> &Value
        requires { IsTrue (binds self.now c) }
        ensures { result.now ≡ value_at self.now c };

    /// The column's type.
    fn typed(&self, c: ColRef) -> SqlType
        requires { IsTrue (binds self.now c) }
        ensures { result ≡ type_of self.now c };
}

fn operand_value<'a, B: Binding>(o: &'a Operand, b: &'a B) -> &'a Value
    requires { IsTrue (passes_column (B.binds b.now) o.now) }
    ensures { result.now ≡ value_of (B.value_at b.now) o.now }
{
    match o {
        Operand::Col(c) => b.value(*c),
        Operand::Lit(v) => v,
    }
}

fn comparison_truth<B: Binding>(op: Op, l: &Operand, r: &Operand, b: &B) -> Truth
    requires typed { IsTyped (B.type_of b.now) (compare op l.now r.now) }
    requires bound { IsTrue (each_column (B.binds b.now) (compare op l.now r.now)) }
    requires values { FitsTypes (B.type_of b.now) (B.binds b.now) (B.value_at b.now) }
    ensures { result ≡ truth_at (B.value_at b.now) (compare op l.now r.now) }
{
    apply(op, operand_value(l, b), operand_value(r, b))
}

fn null_truth(v: &Value) -> Truth
    ensures { result ≡ truth_of_null v.now }
{
    match v {
        Value::Null => Truth::True,
        _ => Truth::False,
    }
}

fn flag_truth(v: &Value) -> Truth
    ensures { result ≡ truth_of_flag v.now }
{
    match v {
        Value::Bool(b) => Truth::of(*b),
        _ => Truth::Unknown,
    }
}

/// The truth of a condition as written. The condition is that it is well typed, that its columns are bound, and that
/// each bound value is NULL or of its column's type.
#[cycle(eval)]
pub fn eval<B: Binding>(e: &Expr, b: &B) -> Truth
    requires typed { IsTyped (B.type_of b.now) (cond e.now) }
    requires bound { IsTrue (each_column (B.binds b.now) (cond e.now)) }
    requires values { FitsTypes (B.type_of b.now) (B.binds b.now) (B.value_at b.now) }
    ensures { result ≡ truth_at (B.value_at b.now) (cond e.now) }
{
    match e {
        Expr::Compare(op, l, r) => comparison_truth(*op, l, r, b),
        Expr::IsNull(c) => null_truth(b.value(*c)),
        Expr::IsNotNull(c) => null_truth(b.value(*c)).not(),
        Expr::BoolCol(c) => flag_truth(b.value(*c)),
        Expr::Const(t) => *t,
        Expr::And(parts) => eval_all(&parts.items, b),
        Expr::Or(parts) => eval_any(&parts.items, b),
        Expr::Not(inner) => eval(inner, b).not(),
    }
}

#[cycle(eval)]
fn eval_all<B: Binding>(parts: &[Expr], b: &B) -> Truth
    requires typed { AreTyped (B.type_of b.now) (conds parts.now) }
    requires bound { IsTrue (each_column_of (B.binds b.now) (conds parts.now)) }
    requires values { FitsTypes (B.type_of b.now) (B.binds b.now) (B.value_at b.now) }
    ensures { result ≡ truth_of_all (B.value_at b.now) (conds parts.now) }
{
    let mut all = Truth::True;
    for part in parts {
        all = all.and(eval(part, b));
    }
    all
}

#[cycle(eval)]
fn eval_any<B: Binding>(parts: &[Expr], b: &B) -> Truth
    requires typed { AreTyped (B.type_of b.now) (conds parts.now) }
    requires bound { IsTrue (each_column_of (B.binds b.now) (conds parts.now)) }
    requires values { FitsTypes (B.type_of b.now) (B.binds b.now) (B.value_at b.now) }
    ensures { result ≡ truth_of_any (B.value_at b.now) (conds parts.now) }
{
    let mut any = Truth::False;
    for part in parts {
        any = any.or(eval(part, b));
    }
    any
}
