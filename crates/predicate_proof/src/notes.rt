//! Answers that are kept while a question is worked out, so that none is worked out twice. A slot may lose its note to
//! another one, and then the answer is worked out again.

ghost use Rattle.std.specs.Prelude.{◌↔◌, IfSome, IsTrue};
ghost use Rattle.pg_expr.specs.work.View.{cond};
ghost use Rattle.predicate_proof.specs.Derivation.{Implies};
ghost use Rattle.predicate_proof.specs.work.Notes.{AreRight};

use pg_expr::{Expr, Operand, is_same};
use pg_value::{Column, Value};

/// How many slots there are for notes, on the stack: those of an OR are asked for soon after they are made.
pub const MOST_NOTES: usize = 2048;

/// Conditions are marked and gone through so many levels down.
pub const MOST_LEVELS: u8 = 80;

/// Whether the clause implies the goal.
#[derive(Clone, Copy)]
pub struct Note<'a> {
    /// The clause.
    pub clause: &'a Expr,
    /// The goal.
    pub goal: &'a Expr,
    /// The answer.
    pub holds: bool,
}

/// The parts of an AND or an OR, and none of an atom.
pub fn parts_of(e: &Expr) -> &[Expr] {
    match e {
        Expr::And(parts) | Expr::Or(parts) => parts.items(),
        _ => &[],
    }
}

/// Whether ANDs and ORs stand at least so many levels deep.
pub fn has_levels(e: &Expr, levels: u8) -> bool {
    if levels == 0 {
        return true;
    }
    for part in parts_of(e) {
        if has_levels(part, levels - 1) {
            return true;
        }
    }
    false
}

/// A number by the side of a comparison.
fn side_mark(side: &Operand) -> u64 {
    match side {
        Operand::Col(c) => u64::from(c.col.0),
        Operand::Lit(Value::Int(n)) => n.unsigned_abs(),
        Operand::Lit(_) => 0x77,
    }
}

/// A number by the kind of a condition, and what an atom compares.
fn kind_mark(e: &Expr) -> u64 {
    match e {
        Expr::Compare(_, l, r) => side_mark(l)
            .wrapping_mul(77)
            .wrapping_add(side_mark(r))
            .wrapping_add(1),
        Expr::IsNull(c) => u64::from(c.col.0).wrapping_add(1001),
        Expr::IsNotNull(c) => u64::from(c.col.0).wrapping_add(2003),
        Expr::BoolCol(c) => u64::from(c.col.0).wrapping_add(3001),
        Expr::Const(_) => 4001,
        Expr::And(_) => 5003,
        Expr::Or(_) => 6007,
        Expr::Not(_) => 7001,
    }
}

/// A number by which conditions are told apart, as far as it goes; equal ones have equal numbers.
fn mark(e: &Expr, levels: u8) -> u64 {
    let mut sum = kind_mark(e);
    if levels > 0 {
        for part in parts_of(e) {
            sum = (sum ^ (sum >> 31))
                .wrapping_mul(0xBF58_476D_1CE4_E5B9)
                .wrapping_add(mark(part, levels - 1));
        }
    }
    sum
}

/// The slot of a pair.
fn place(clause: &Expr, goal: &Expr) -> usize {
    let both = mark(clause, MOST_LEVELS)
        .wrapping_mul(0x9E37_79B9_7F4A_7C15)
        .wrapping_add(mark(goal, MOST_LEVELS));
    ((both ^ (both >> 29)) as usize) % MOST_NOTES
}

/// The answer, where it is noted.
pub fn noted(columns: &[Column], notes: &[Option<Note>], clause: &Expr, goal: &Expr) -> Option<bool>
    requires { AreRight columns.now notes.now }
    ensures { IfSome result (λ holds. IsTrue holds ↔ Implies columns.now (cond clause.now) (cond goal.now)) }
{
    if notes.is_empty() {
        return None;
    }
    match notes.get(place(clause, goal)) {
        Some(Some(note)) => {
            if is_same(note.clause, clause) && is_same(note.goal, goal) {
                Some(note.holds)
            } else {
                None
            }
        }
        _ => None,
    }
}

/// Notes an answer.
pub fn add_note<'a>(
    columns: &[Column],
    notes: &mut [Option<Note<'a>>],
    clause: &'a Expr,
    goal: &'a Expr,
    holds: bool,
)
    requires right { AreRight columns.now notes.old }
    requires answer { IsTrue holds ↔ Implies columns.now (cond clause.now) (cond goal.now) }
    ensures { AreRight columns.now notes.new }
{
    let n = place(clause, goal);
    if n < notes.len() {
        notes[n] = Some(Note {
            clause,
            goal,
            holds,
        });
    }
}
