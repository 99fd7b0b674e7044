//! Sets of relations as words of 16 bits. Contracts see their members.

ghost use Rattle.std.specs.Prelude.{◌≡◌, ℕ, ◌<◌, ◌^◌, ◌||◌, ◌&&◌, not, false, true, nat_eq, IsTrue, ◌↔◌, IfSome, IfNone};
ghost use Rattle.pg_base.specs.Sets.{has};
ghost use Rattle.pg_base.specs.work.Sets.{Meets};

use crate::numbers::RelNo;

/// A set of relations, numbered below 16.
#[derive(Clone, Copy, Debug, Default, PartialEq, Eq)]
pub struct RelSet(pub u16);

#[tactic(auto, using(crate::proofs::SetLaws::sets))]
impl RelSet {
    /// The set without members.
    pub fn empty() -> RelSet
        ensures { (k : ℕ) → has result.0 k ≡ false }
    {
        RelSet(0)
    }

    /// The set of one relation.
    pub fn one(r: RelNo) -> RelSet
        requires { r.0 < 16 }
        ensures { (k : ℕ) → has result.0 k ≡ nat_eq k r.0 }
    {
        RelSet(1 << r.0)
    }

    /// The members of either set.
    pub fn union(self, o: RelSet) -> RelSet
        ensures { (k : ℕ) → has result.0 k ≡ has self.0 k || has o.0 k }
    {
        RelSet(self.0 | o.0)
    }

    /// The members of this set that the other has not.
    pub fn minus(self, o: RelSet) -> RelSet
        ensures { (k : ℕ) → has result.0 k ≡ has self.0 k && not (has o.0 k) }
    {
        RelSet(self.0 & !o.0)
    }

    /// Whether the relation is a member.
    pub fn has(self, r: RelNo) -> bool
        ensures { result ≡ has self.0 r.0 }
    {
        r.0 < 16 && (self.0 >> r.0) & 1 == 1
    }

    /// Whether each member is one of the other set.
    pub fn within(self, o: RelSet) -> bool
        ensures { IsTrue result ↔ ((k : ℕ) → IsTrue (has self.0 k) → IsTrue (has o.0 k)) }
    {
        self.minus(o).is_empty()
    }

    /// Whether the sets share a member.
    pub fn meets(self, o: RelSet) -> bool
        ensures { IsTrue result ↔ Meets self.0 o.0 }
    {
        self.0 & o.0 != 0
    }

    /// Whether there is no member.
    pub fn is_empty(self) -> bool
        ensures { IsTrue result ↔ ((k : ℕ) → has self.0 k ≡ false) }
    {
        self.0 == 0
    }

    /// The lowest member. None exactly where the set is empty.
    pub fn first(self) -> Option<RelNo>
        ensures found { IfSome result (λ r. IsTrue (has self.0 r.0)) }
        ensures least { IfSome result (λ r. (k : ℕ) → k < r.0 → has self.0 k ≡ false) }
        ensures none { IfNone result ((k : ℕ) → has self.0 k ≡ false) }
    {
        if self.0 == 0 {
            None
        } else {
            Some(RelNo(self.0.trailing_zeros() as u8))
        }
    }
}

/// A law: each member is below 16, and two sets with the same members are one.
pub fn sets_are_their_members()
    ensures below { (a k : ℕ) → a < 2 ^ 16 → IsTrue (has a k) → k < 16 }
    ensures same { (a b : ℕ) → ((k : ℕ) → has a k ≡ has b k) → a ≡ b }
{}
