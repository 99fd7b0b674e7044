//! Whether two conditions are the same tree.

ghost use Rattle.std.specs.Prelude.{◌≡◌, IsTrue, ◌↔◌};
ghost use Rattle.pg_expr.specs.work.View.{cond, conds};

use crate::expr::{Expr, Exprs};
use crate::operand::Operand;

fn is_same_operand(a: &Operand, b: &Operand) -> bool
    ensures { IsTrue result ↔ (a.now ≡ b.now) }
{
    match (a, b) {
        (Operand::Col(c), Operand::Col(d)) => c == d,
        (Operand::Lit(v), Operand::Lit(w)) => v.is_same(w),
        _ => false,
    }
}

/// Whether two conditions are the same tree: literals by kind and value.
#[cycle(same)]
pub fn is_same(a: &Expr, b: &Expr) -> bool
    ensures { IsTrue result ↔ (cond a.now ≡ cond b.now) }
{
    match (a, b) {
        (Expr::Compare(o, l, r), Expr::Compare(p, m, s)) => {
            o == p && is_same_operand(l, m) && is_same_operand(r, s)
        }
        (Expr::IsNull(c), Expr::IsNull(d)) => c == d,
        (Expr::IsNotNull(c), Expr::IsNotNull(d)) => c == d,
        (Expr::BoolCol(c), Expr::BoolCol(d)) => c == d,
        (Expr::Const(t), Expr::Const(u)) => t == u,
        (Expr::And(parts), Expr::And(others)) => are_same(&parts.items, &others.items),
        (Expr::Or(parts), Expr::Or(others)) => are_same(&parts.items, &others.items),
        (Expr::Not(inner), Expr::Not(other)) => is_same(inner, other),
        _ => false,
    }
}

#[cycle(same)]
#[tactic(auto, using(crate::proofs::CondLaws::lists))]
fn are_same(a: &[Expr], b: &[Expr]) -> bool
    ensures { IsTrue result ↔ (conds a.now ≡ conds b.now) }
{
    if a.len() != b.len() {
        return false;
    }
    for i in 0..a.len() {
        if !is_same(&a[i], &b[i]) {
            return false;
        }
    }
    true
}
