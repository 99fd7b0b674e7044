//! The pushed form of a condition.

ghost use Rattle.std.specs.Prelude.{◌≡◌, ◌++◌, ◌∷◌, [], Bool, true, false, IfOk, OnOk, if◌then◌else◌};
ghost use Rattle.pg_value.specs.declared.value.SqlType.{SqlType};
ghost use Rattle.pg_expr.specs.declared.operand.ColRef.{ColRef};
ghost use Rattle.pg_expr.specs.Cond.{joined, compare, negation};
ghost use Rattle.pg_expr.specs.Columns.{some_column, each_column, atom_count};
ghost use Rattle.pg_expr.specs.Pushed.{pushed, pushed_parts, parts_of, placed, placed_not, is_lower, is_turned, group_of, IsPushed};
ghost use Rattle.pg_expr.specs.Typed.{IsTyped};
ghost use Rattle.pg_expr.specs.work.Typed.{HasTruthOf};
ghost use Rattle.pg_expr.specs.work.View.{cond, conds};

use crate::and_list::{append, push};
use crate::expr::{Expr, Exprs};
use crate::operand::{ColRef, Operand};
use pg_base::Memory;
use pg_value::{Op, Truth, commutator, negator};
use std::alloc::Global;

/// The condition in pushed form: NOT is moved to the atoms by De Morgan's rules and the operators' negators and is
/// left on boolean columns and `|=|` alone, a literal stands right of a column and the lower of two columns left, by
/// commutators, and an AND within an AND and an OR within an OR are flattened from the left. Its truth is as before.
/// The error means that memory ran out.
pub fn push_not(alloc: Global, e: Expr) -> Result<Expr, Memory>
    ensures tree { IfOk result (λ p. cond p ≡ pushed false (cond e)) }
    ensures form { IfOk result (λ p. IsPushed (cond p)) }
    ensures truth { IfOk result (λ p. HasTruthOf (cond e) (cond p)) }
    ensures typed { IfOk result (λ p. (t : ColRef → SqlType) → IsTyped t (cond e) → IsTyped t (cond p)) }
    ensures some { IfOk result (λ p. (test : ColRef → Bool) → some_column test (cond p)
        ≡ some_column test (cond e)) }
    ensures each { IfOk result (λ p. (test : ColRef → Bool) → each_column test (cond p)
        ≡ each_column test (cond e)) }
    ensures atoms { IfOk result (λ p. atom_count (cond p) ≡ atom_count (cond e)) }
{
    pushed_expr(alloc, e, false)
}

#[cycle(push)]
fn pushed_expr(alloc: Global, e: Expr, negated: bool) -> Result<Expr, Memory>
    ensures { IfOk result (λ p. cond p ≡ pushed negated (cond e)) }
{
    match e {
        Expr::Compare(op, l, r) => pushed_comparison(alloc, op, l, r, negated),
        Expr::IsNull(c) => Ok(if negated {
            Expr::IsNotNull(c)
        } else {
            Expr::IsNull(c)
        }),
        Expr::IsNotNull(c) => Ok(if negated {
            Expr::IsNull(c)
        } else {
            Expr::IsNotNull(c)
        }),
        Expr::BoolCol(c) => not_if(alloc, Expr::BoolCol(c), negated),
        Expr::Const(t) => Ok(Expr::Const(if negated { t.not() } else { t })),
        Expr::And(parts) => Ok(group(negated, pushed_list(alloc, parts, negated, negated)?)),
        Expr::Or(parts) => Ok(group(!negated, pushed_list(alloc, parts, negated, !negated)?)),
        Expr::Not(inner) => pushed_expr(alloc, Box::into_inner(inner), !negated),
    }
}

#[cycle(push)]
#[tactic(auto, using(crate::proofs::CondLaws::joins))]
fn pushed_list(alloc: Global, parts: Exprs, negated: bool, any: bool) -> Result<Exprs, Memory>
    ensures { IfOk result (λ ps. conds ps.items.items
        ≡ pushed_parts negated any (conds parts.items.items)) }
{
    let mut all = Vec::new(alloc);
    for part in parts.items {
        put(&mut all, pushed_expr(alloc, part, negated)?, any)?;
    }
    Ok(Exprs { items: all })
}

fn put(out: &mut Vec<Expr>, part: Expr, any: bool) -> Result<(), Memory>
    ensures { OnOk result (conds out.new.items ≡ joined (conds out.old.items) (parts_of any (cond part))) }
{
    if any {
        put_in_or(out, part)
    } else {
        put_in_and(out, part)
    }
}

fn put_in_and(out: &mut Vec<Expr>, part: Expr) -> Result<(), Memory>
    ensures { OnOk result (conds out.new.items
        ≡ joined (conds out.old.items) (parts_of false (cond part))) }
{
    match part {
        Expr::And(parts) => append(out, parts),
        other => push(out, other),
    }
}

fn put_in_or(out: &mut Vec<Expr>, part: Expr) -> Result<(), Memory>
    ensures { OnOk result (conds out.new.items ≡ joined (conds out.old.items) (parts_of true (cond part))) }
{
    match part {
        Expr::Or(parts) => append(out, parts),
        other => push(out, other),
    }
}

fn group(any: bool, parts: Exprs) -> Expr
    ensures { cond result ≡ group_of any (conds parts.items.items) }
{
    if any {
        Expr::Or(parts)
    } else {
        Expr::And(parts)
    }
}

fn not_if(alloc: Global, e: Expr, negated: bool) -> Result<Expr, Memory>
    ensures { IfOk result (λ p. cond p ≡ (if negated then negation (cond e) else cond e)) }
{
    if negated {
        Ok(Expr::Not(Box::new(alloc, e)?))
    } else {
        Ok(e)
    }
}

fn pushed_comparison(
    alloc: Global,
    op: Op,
    l: Operand,
    r: Operand,
    negated: bool,
) -> Result<Expr, Memory>
    ensures { IfOk result (λ p. cond p ≡ pushed negated (compare op l r)) }
{
    if !negated {
        return Ok(placed_comparison(op, l, r));
    }
    match negator(op) {
        Some(opposite) => Ok(placed_comparison(opposite, l, r)),
        None => not_if(alloc, placed_comparison(op, l, r), true),
    }
}

fn placed_comparison(op: Op, l: Operand, r: Operand) -> Expr
    ensures { cond result ≡ placed op l r }
{
    if changes_sides(&l, &r) {
        Expr::Compare(commutator(op), r, l)
    } else {
        Expr::Compare(op, l, r)
    }
}

fn changes_sides(l: &Operand, r: &Operand) -> bool
    ensures { result ≡ is_turned l.now r.now }
{
    match (l, r) {
        (Operand::Col(c), Operand::Col(d)) => is_below(*d, *c),
        (Operand::Lit(_), Operand::Col(_)) => true,
        _ => false,
    }
}

fn is_below(c: ColRef, d: ColRef) -> bool
    ensures { result ≡ is_lower c d }
{
    c.rel.0 < d.rel.0 || (c.rel.0 == d.rel.0 && c.col.0 < d.col.0)
}
