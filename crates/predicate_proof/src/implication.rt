//! Whether a list of clauses implies a predicate.

ghost use Rattle.std.specs.Prelude.{◌≡◌, ◌<◌, ◌↔◌, IsTrue, length, slice_get, Some, List, []};
ghost use Rattle.pg_expr.specs.Cond.{Cond, all_of, conds_of};
ghost use Rattle.pg_expr.specs.work.View.{cond, conds};
ghost use Rattle.pg_value.specs.declared.columns.Column.{Column};
ghost use Rattle.predicate_proof.specs.Derivation.{Implies, ImpliesAll, ImpliesSome, IsImplied, SomeImplies};
ghost use Rattle.predicate_proof.specs.work.Derivation.{IsFilled};
ghost use Rattle.predicate_proof.specs.work.Rows.{HoldsWherever};

use crate::conditions::follows;
use crate::parts::{and_parts, or_parts};
use pg_expr::Expr;
use pg_value::{Column, Columns, order_is_total};

/// A list of conditions over one relation, which is their AND.
pub trait ClauseList {
    ghost use Rattle.std.specs.Prelude.{List};
    ghost use Rattle.pg_expr.specs.Cond.{Cond};

    /// The conditions in order.
    ghost conditions: { Self → List Cond };

    /// How many conditions there are.
    fn count(&self) -> u16
        ensures { result ≡ length (conditions self.now) };

    /// The condition at place `n`, from 0.
    fn clause(&self, n: u16) -> &Expr
        requires { n < length (conditions self.now) }
        ensures { slice_get (conditions self.now) n ≡ Some (cond result.now) };
}

/// Whether the rules derive the predicate from the clauses, over a table of these columns. Columns are compared by
/// their numbers alone. Where the answer is yes, the predicate is True at each row at which all clauses are.
/// The clauses and the predicate are meant to be in pushed form. It takes no memory.
pub fn implies<C: ClauseList>(clauses: &C, predicate: &Expr, typed: &Columns) -> bool
    ensures derived { IsTrue result ↔ IsImplied typed.now (C.conditions clauses.now) (cond predicate.now) }
    ensures sound { IsTrue result → HoldsWherever typed.now (all_of (conds_of (C.conditions clauses.now))) (cond predicate.now) }
{
    implied_conditions_hold();
    list_implies(typed.items(), clauses, predicate)
}

/// A law: a condition that another one implies is True at each row of these columns at which the other is.
pub fn implied_conditions_hold()
    ensures { (columns : List Column) (clause predicate : Cond) → Implies columns clause predicate → HoldsWherever columns clause predicate }
{
    order_is_total();
}

/// A law: no clauses imply no condition whose ANDs and ORs have parts, not even TRUE.
pub fn no_clauses_imply_nothing()
    ensures { (columns : List Column) (predicate : Cond) → IsFilled predicate → IsImplied columns [] predicate → ⊥ }
{}

/// Whether the clauses imply the goal.
#[cycle(list)]
fn list_implies<C: ClauseList>(columns: &[Column], clauses: &C, goal: &Expr) -> bool
    ensures { IsTrue result ↔ IsImplied columns.now (C.conditions clauses.now) (cond goal.now) }
{
    if let Some(goals) = and_parts(goal) {
        return list_implies_all(columns, clauses, goals);
    }
    if clause_gives(columns, clauses, goal) {
        return true;
    }
    match or_parts(goal) {
        Some(goals) => list_implies_one(columns, clauses, goals),
        None => false,
    }
}

/// Whether the clauses imply each goal.
#[cycle(list)]
fn list_implies_all<C: ClauseList>(columns: &[Column], clauses: &C, goals: &[Expr]) -> bool
    ensures { IsTrue result ↔ ImpliesAll columns.now (all_of (conds_of (C.conditions clauses.now))) (conds goals.now) }
{
    for goal in goals {
        if !list_implies(columns, clauses, goal) {
            return false;
        }
    }
    true
}

/// Whether the clauses imply some goal.
#[cycle(list)]
fn list_implies_one<C: ClauseList>(columns: &[Column], clauses: &C, goals: &[Expr]) -> bool
    ensures { IsTrue result ↔ ImpliesSome columns.now (all_of (conds_of (C.conditions clauses.now))) (conds goals.now) }
{
    for goal in goals {
        if list_implies(columns, clauses, goal) {
            return true;
        }
    }
    false
}

/// Whether some clause by itself implies the goal.
fn clause_gives<C: ClauseList>(columns: &[Column], clauses: &C, goal: &Expr) -> bool
    ensures { IsTrue result ↔ SomeImplies columns.now (conds_of (C.conditions clauses.now)) (cond goal.now) }
{
    for n in 0..clauses.count() {
        if follows(columns, clauses.clause(n), goal) {
            return true;
        }
    }
    false
}
