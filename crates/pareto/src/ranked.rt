//! Items that compare by a preorder: reflexive and transitive, and not always one way or the other.

ghost use Rattle.std.specs.Prelude.{◌≡◌, Bool, IsTrue};

/// Items of which one may take another's place.
pub trait Ranked {
    /// Whether the first is at most the second, so that it may take its place.
    ghost is_at_most: { Self → Self → Bool };

    /// Whether this item is at most the other.
    fn at_most(&self, other: &Self) -> bool
        ensures { result ≡ is_at_most self.now other.now };

    ghost reflexive: { (a : Self) → IsTrue (is_at_most a a) };

    ghost transitive: { (a b c : Self) → IsTrue (is_at_most a b) → IsTrue (is_at_most b c) → IsTrue (is_at_most a c) };
}
