//! A condition as the list of its conjuncts.

ghost use Rattle.std.specs.Prelude.{◌≡◌, ◌∷◌, [], Bool, false, IfOk, OnOk};
ghost use Rattle.pg_value.specs.declared.value.SqlType.{SqlType};
ghost use Rattle.pg_value.specs.declared.value.Value.{Value};
ghost use Rattle.pg_expr.specs.declared.operand.ColRef.{ColRef};
ghost use Rattle.pg_expr.specs.Columns.{some_column, some_column_of, each_column, each_column_of, atom_count, atom_count_of};
ghost use Rattle.pg_expr.specs.Pushed.{IsPushed, ArePushed};
ghost use Rattle.pg_expr.specs.Truths.{truth_at, truth_of_all};
ghost use Rattle.pg_expr.specs.Typed.{IsTyped, AreTyped};
ghost use Rattle.pg_expr.specs.Cond.{joined, cond_and, no_conds};
ghost use Rattle.pg_expr.specs.Conjuncts.{conjuncts_of, conjuncts_of_all};
ghost use Rattle.pg_expr.specs.work.View.{cond, conds};

use crate::expr::{Expr, Exprs};
use pg_base::Memory;
use std::alloc::Global;

/// The parts of an AND, those of an AND within it in its place and in order; a condition that is no AND is the list
/// of itself. The list, as an AND, has the truth of the condition. The error means that memory ran out.
pub fn conjuncts(alloc: Global, e: Expr) -> Result<Exprs, Memory>
    ensures list { IfOk result (λ es. conds es.items.items ≡ conjuncts_of (cond e)) }
    ensures truth { IfOk result (λ es. (b : ColRef → Value) → truth_of_all b (conds es.items.items)
        ≡ truth_at b (cond e)) }
    ensures form { IfOk result (λ es. IsPushed (cond e) → ArePushed false (conds es.items.items)) }
    ensures typed { IfOk result (λ es. (t : ColRef → SqlType) → IsTyped t (cond e) → AreTyped t (conds es.items.items)) }
    ensures some { IfOk result (λ es. (test : ColRef → Bool) → some_column_of test (conds es.items.items)
        ≡ some_column test (cond e)) }
    ensures each { IfOk result (λ es. (test : ColRef → Bool) → each_column_of test (conds es.items.items)
        ≡ each_column test (cond e)) }
    ensures atoms { IfOk result (λ es. atom_count_of (conds es.items.items) ≡ atom_count (cond e)) }
{
    conjuncts_in(alloc, e)
}

#[cycle(conjuncts)]
fn conjuncts_in(alloc: Global, e: Expr) -> Result<Exprs, Memory>
    ensures { IfOk result (λ es. conds es.items.items ≡ conjuncts_of (cond e)) }
{
    match e {
        Expr::And(parts) => all_conjuncts(alloc, parts),
        other => alone(alloc, other),
    }
}

#[cycle(conjuncts)]
#[tactic(auto, using(crate::proofs::CondLaws::joins))]
fn all_conjuncts(alloc: Global, parts: Exprs) -> Result<Exprs, Memory>
    ensures { IfOk result (λ es. conds es.items.items ≡ conjuncts_of_all (conds parts.items.items)) }
{
    let mut all = Vec::new(alloc);
    for part in parts.items {
        append(&mut all, conjuncts_in(alloc, part)?)?;
    }
    Ok(Exprs { items: all })
}

/// The list of one condition.
pub fn alone(alloc: Global, e: Expr) -> Result<Exprs, Memory>
    ensures { IfOk result (λ es. es.items.items ≡ e ∷ []) }
{
    let mut items = Vec::new(alloc);
    items.push(e)?;
    Ok(Exprs { items })
}

/// Puts the conditions at the end of a list.
#[tactic(auto, using(crate::proofs::CondLaws::joins))]
pub fn append(out: &mut Vec<Expr>, more: Exprs) -> Result<(), Memory>
    ensures { OnOk result (conds out.new.items ≡ joined (conds out.old.items) (conds more.items.items)) }
{
    let mut items = more.items;
    out.append(&mut items)?;
    Ok(())
}

/// Puts a condition at the end of a list.
#[tactic(auto, using(crate::proofs::CondLaws::joins))]
pub fn push(out: &mut Vec<Expr>, e: Expr) -> Result<(), Memory>
    ensures { OnOk result (conds out.new.items
        ≡ joined (conds out.old.items) (cond_and (cond e) no_conds)) }
{
    out.push(e)?;
    Ok(())
}
