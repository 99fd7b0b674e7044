//! Conditions by their numbers.

ghost use Rattle.std.specs.Prelude.{◌≡◌, ◌<◌, ◌≤◌, length, slice_index_or, None};
ghost use Rattle.std.specs.Option.{option_map};
ghost use Rattle.pg_expr.specs.work.View.{cond};
ghost use Rattle.index_match.specs.work.Slots.{chosen_slots, slots_of, slot_at};

use eq_classes::{Classes, ClauseSet};
use pg_expr::Expr;
use predicate_proof::ClauseList;

/// The clauses of a set, by their numbers.
#[derive(Clone, Copy)]
pub(crate) struct Chosen<'a> {
    pub(crate) classes: &'a Classes,
    pub(crate) set: &'a ClauseSet,
}

#[tactic(auto, using(crate::proofs::SlotLemmas::chosen))]
impl<'a> Chosen<'a> {
    /// How many numbers there are, with those that are left out.
    pub(crate) fn end(&self) -> usize
        ensures end { result ≡ length (chosen_slots self.now) }
        ensures few { result ≤ 512 }
    {
        self.classes.count()
    }

    /// The condition of a number. None where the set does not have it.
    fn get(&self, n: u16) -> Option<&'a Expr>
        requires within { n < length (chosen_slots self.now) }
        ensures { option_map (λ e. cond e.now) result ≡ slot_at (chosen_slots self.now) n }
    {
        let _ = self.classes.count();
        if self.set.has(n) {
            Some(self.classes.clause(n))
        } else {
            None
        }
    }
}

impl<'a> ClauseList for Chosen<'a> {
    ghost use Rattle.index_match.specs.work.Slots.{placed, chosen_slots};

    ghost conditions = { λ list. placed (chosen_slots list) };

    fn count(&self) -> u16 {
        let mut count = 0;
        for n in 0..self.end() {
            if self.get(n as u16).is_some() {
                count += 1;
            }
        }
        count
    }

    fn clause(&self, n: u16) -> &Expr {
        let mut left = n;
        for k in 0..self.end() {
            if let Some(e) = self.get(k as u16) {
                if left == 0 {
                    return e;
                }
                left -= 1;
            }
        }
        unreachable!()
    }
}

/// Conditions by their numbers, from 0.
#[derive(Clone, Copy)]
pub(crate) enum Conditions<'a> {
    /// The clauses of a set.
    Clauses(Chosen<'a>),
    /// The parts of an arm.
    Parts(&'a [Expr]),
}

impl<'a> Conditions<'a> {
    /// How many numbers there are, with those that are left out.
    pub(crate) fn end(&self) -> usize
        ensures { result ≡ length (slots_of self.now) }
    {
        match self {
            Conditions::Clauses(chosen) => chosen.end(),
            Conditions::Parts(parts) => parts.len(),
        }
    }

    /// The condition of a number. None where it is left out.
    pub(crate) fn get(&self, n: u16) -> Option<&'a Expr>
        requires within { n < length (slots_of self.now) }
        ensures { option_map (λ e. cond e.now) result ≡ slice_index_or (slots_of self.now) n None }
    {
        match self {
            Conditions::Clauses(chosen) => chosen.get(n),
            Conditions::Parts(parts) => Some(&parts[n as usize]),
        }
    }
}
