//! Sets of the atoms of a condition, numbered from 0 up to `MOST_ATOMS`. Contracts see their members.

ghost use Rattle.std.specs.Prelude.{◌≡◌, ℕ, ◌<◌, ◌||◌, false, nat_eq};
ghost use Rattle.pg_expr.specs.work.AtomSets.{contains};

use pg_base::MOST_ATOMS;
use std::marker::Model;

/// The words of 64 bits that have a bit for each atom.
const WORDS: usize = MOST_ATOMS / 64;

/// A set of atoms: a bit for each number.
#[derive(Debug, Drop)]
pub struct AtomSet {
    words: [u64; WORDS],
}

impl Model for AtomSet {
    ghost use Rattle.std.specs.Prelude.{List, ℕ};

    ghost Value = { List ℕ };

    ghost view = { λ s. s.words };
}

#[tactic(auto, using(crate::proofs::AtomSetLaws::atom_sets))]
impl AtomSet {
    /// The set without members.
    pub fn empty() -> AtomSet
        ensures { (k : ℕ) → contains result k ≡ false }
    {
        AtomSet { words: [0; WORDS] }
    }

    /// Puts the atom in.
    pub fn insert(&mut self, n: u8)
        ensures { (k : ℕ) → contains self.new k ≡ contains self.old k || nat_eq k n }
    {
        self.words[(n / 64) as usize] |= 1 << (n % 64);
    }

    /// Whether the atom is a member.
    pub fn has(&self, n: u8) -> bool
        ensures { result ≡ contains self.now n }
    {
        (self.words[(n / 64) as usize] >> (n % 64)) & 1 == 1
    }
}
