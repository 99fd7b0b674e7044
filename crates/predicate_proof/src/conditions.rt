//! Whether one condition implies another: by the kind of the goal, and then by that of the clause.

ghost use Rattle.std.specs.Prelude.{◌≡◌, ◌↔◌, IsTrue, true};
ghost use Rattle.pg_expr.specs.Cond.{any_of};
ghost use Rattle.pg_expr.specs.work.View.{cond, conds};
ghost use Rattle.predicate_proof.specs.Atoms.{is_atom};
ghost use Rattle.predicate_proof.specs.Derivation.{AllImply, EachImpliesSome, Implies, ImpliesAll, ImpliesSome, SomeImplies};
ghost use Rattle.predicate_proof.specs.work.Notes.{AreRight};

use crate::atoms::{comparison_gives, same_atom};
use crate::notes::{MOST_LEVELS, MOST_NOTES, Note, add_note, has_levels, noted, parts_of};
use crate::parts::{and_parts, or_parts};
use pg_expr::Expr;
use pg_value::Column;

/// Conditions of so many levels are answered with notes.
const NOTED_LEVELS: u8 = 5;

/// Whether the clause implies the goal. Where both are deeply nested, the answers for their parts are noted from the
/// smallest up, since each can be asked for in as many ways as there are to take turns in going down.
pub fn follows(columns: &[Column], clause: &Expr, goal: &Expr) -> bool
    ensures { IsTrue result ↔ Implies columns.now (cond clause.now) (cond goal.now) }
{
    if has_levels(clause, NOTED_LEVELS) && has_levels(goal, NOTED_LEVELS) {
        follows_noted(columns, clause, goal)
    } else {
        follows_by(columns, &[], clause, goal)
    }
}

/// Whether the clause implies the goal, with notes.
fn follows_noted(columns: &[Column], clause: &Expr, goal: &Expr) -> bool
    ensures { IsTrue result ↔ Implies columns.now (cond clause.now) (cond goal.now) }
{
    let mut notes = [None; MOST_NOTES];
    note_goals(columns, &mut notes, clause, goal, MOST_LEVELS);
    follows_by(columns, &notes, clause, goal)
}

/// Notes the answers for the ORs in a goal, the inner ones first.
fn note_goals<'a>(
    columns: &[Column],
    notes: &mut [Option<Note<'a>>],
    clause: &'a Expr,
    goal: &'a Expr,
    levels: u8,
)
    requires { AreRight columns.now notes.old }
    ensures { AreRight columns.now notes.new }
{
    if levels > 0 {
        for part in parts_of(goal) {
            note_goals(columns, notes, clause, part, levels - 1);
        }
    }
    if or_parts(goal).is_some() {
        note_clauses(columns, notes, clause, goal, MOST_LEVELS);
    }
}

/// Notes the answers for the ANDs in a clause and this goal, the inner ones first.
fn note_clauses<'a>(
    columns: &[Column],
    notes: &mut [Option<Note<'a>>],
    clause: &'a Expr,
    goal: &'a Expr,
    levels: u8,
)
    requires { AreRight columns.now notes.old }
    ensures { AreRight columns.now notes.new }
{
    if levels > 0 {
        for part in parts_of(clause) {
            note_clauses(columns, notes, part, goal, levels - 1);
        }
    }
    if and_parts(clause).is_some() {
        let holds = follows_by(columns, notes, clause, goal);
        add_note(columns, notes, clause, goal, holds);
    }
}

/// Whether the clause implies the goal, by the notes where they say.
#[cycle(follows)]
fn follows_by(columns: &[Column], notes: &[Option<Note>], clause: &Expr, goal: &Expr) -> bool
    requires { AreRight columns.now notes.now }
    ensures { IsTrue result ↔ Implies columns.now (cond clause.now) (cond goal.now) }
{
    if let Some(goals) = or_parts(goal) {
        return any_follows(columns, notes, clause, goal, goals);
    }
    match and_parts(goal) {
        Some(goals) => {
            if all_follow(columns, notes, clause, goals) {
                return true;
            }
            match or_parts(clause) {
                Some(arms) => all_give(columns, notes, arms, goal),
                None => false,
            }
        }
        None => atom_follows(columns, notes, clause, goal),
    }
}

/// Whether the clause implies the goal, an OR of these parts.
#[cycle(follows)]
fn any_follows(
    columns: &[Column],
    notes: &[Option<Note>],
    clause: &Expr,
    goal: &Expr,
    goals: &[Expr],
) -> bool
    requires parts { cond goal.now ≡ any_of (conds goals.now) }
    requires right { AreRight columns.now notes.now }
    ensures { IsTrue result ↔ Implies columns.now (cond clause.now) (cond goal.now) }
{
    if let Some(arms) = or_parts(clause) {
        return each_gives_one(columns, notes, arms, goals);
    }
    if let Some(holds) = noted(columns, notes, clause, goal) {
        return holds;
    }
    if one_follows(columns, notes, clause, goals) {
        return true;
    }
    match and_parts(clause) {
        Some(parts) => one_gives(columns, notes, parts, goal),
        None => false,
    }
}

/// Whether the clause implies the goal, an atom.
#[cycle(follows)]
fn atom_follows(columns: &[Column], notes: &[Option<Note>], clause: &Expr, goal: &Expr) -> bool
    requires atom { is_atom (cond goal.now) ≡ true }
    requires right { AreRight columns.now notes.now }
    ensures { IsTrue result ↔ Implies columns.now (cond clause.now) (cond goal.now) }
{
    if let Some(arms) = or_parts(clause) {
        return all_give(columns, notes, arms, goal);
    }
    if let Some(parts) = and_parts(clause) {
        return one_gives(columns, notes, parts, goal);
    }
    if same_atom(clause, goal) {
        return true;
    }
    comparison_gives(columns, clause, goal)
}

/// Whether the clause implies each part.
#[cycle(follows)]
fn all_follow(columns: &[Column], notes: &[Option<Note>], clause: &Expr, parts: &[Expr]) -> bool
    requires { AreRight columns.now notes.now }
    ensures { IsTrue result ↔ ImpliesAll columns.now (cond clause.now) (conds parts.now) }
{
    for part in parts {
        if !follows_by(columns, notes, clause, part) {
            return false;
        }
    }
    true
}

/// Whether the clause implies some goal.
#[cycle(follows)]
fn one_follows(columns: &[Column], notes: &[Option<Note>], clause: &Expr, goals: &[Expr]) -> bool
    requires { AreRight columns.now notes.now }
    ensures { IsTrue result ↔ ImpliesSome columns.now (cond clause.now) (conds goals.now) }
{
    for goal in goals {
        if follows_by(columns, notes, clause, goal) {
            return true;
        }
    }
    false
}

/// Whether each arm implies the goal.
#[cycle(follows)]
fn all_give(columns: &[Column], notes: &[Option<Note>], arms: &[Expr], goal: &Expr) -> bool
    requires { AreRight columns.now notes.now }
    ensures { IsTrue result ↔ AllImply columns.now (conds arms.now) (cond goal.now) }
{
    for arm in arms {
        if !follows_by(columns, notes, arm, goal) {
            return false;
        }
    }
    true
}

/// Whether some of the clauses implies the goal.
#[cycle(follows)]
fn one_gives(columns: &[Column], notes: &[Option<Note>], clauses: &[Expr], goal: &Expr) -> bool
    requires { AreRight columns.now notes.now }
    ensures { IsTrue result ↔ SomeImplies columns.now (conds clauses.now) (cond goal.now) }
{
    for clause in clauses {
        if follows_by(columns, notes, clause, goal) {
            return true;
        }
    }
    false
}

/// Whether each of the clauses implies some goal.
#[cycle(follows)]
fn each_gives_one(
    columns: &[Column],
    notes: &[Option<Note>],
    clauses: &[Expr],
    goals: &[Expr],
) -> bool
    requires { AreRight columns.now notes.now }
    ensures { IsTrue result ↔ EachImpliesSome columns.now (conds clauses.now) (conds goals.now) }
{
    for clause in clauses {
        if !one_follows(columns, notes, clause, goals) {
            return false;
        }
    }
    true
}
