//! Sets of clauses. Contracts see their members.

ghost use Rattle.std.specs.Prelude.{◌≡◌, ℕ, ◌<◌, ◌||◌, ◌&&◌, false, nat_eq};
ghost use Rattle.pg_expr.specs.work.AtomSets.{contains};

use std::marker::Model;

/// A set of clause numbers below 512.
#[derive(Debug, Drop)]
pub struct ClauseSet {
    words: [u64; 8],
}

impl Model for ClauseSet {
    ghost use Rattle.std.specs.Prelude.{List, ℕ};

    ghost Value = { List ℕ };

    ghost view = { λ s. s.words };
}

#[tactic(auto, using(crate::proofs::WordLemmas::clause_sets))]
impl ClauseSet {
    /// The set without members.
    pub fn empty() -> ClauseSet
        ensures { (k : ℕ) → contains result k ≡ false }
    {
        ClauseSet { words: [0; 8] }
    }

    /// Puts the number in.
    pub fn insert(&mut self, n: u16)
        requires { n < 512 }
        ensures { (k : ℕ) → contains self.new k ≡ contains self.old k || nat_eq k n }
    {
        self.words[(n / 64) as usize] |= 1 << (n % 64);
    }

    /// Whether the number is a member.
    pub fn has(&self, n: u16) -> bool
        requires { n < 512 }
        ensures { result ≡ contains self.now n }
    {
        (self.words[(n / 64) as usize] >> (n % 64)) & 1 == 1
    }
}

/// Puts the number in where it is to be.
#[tactic(auto, using(crate::proofs::WordLemmas::note_laws))]
pub fn note(set: &mut ClauseSet, n: u16, is: bool)
    requires { n < 512 }
    ensures { (k : ℕ) → contains set.new k ≡ contains set.old k || (nat_eq k n && is) }
{
    if is {
        set.insert(n);
    }
}
