//! Laws of key lists, for proofs that speak of them apart from any call.

ghost use Rattle.std.specs.Prelude.{◌≡◌, ℕ, Bool, true, List, length, take};
ghost use Rattle.pg_base.specs.declared.numbers.IndexNo.{IndexNo};
ghost use Rattle.catalog.specs.Contents.{Contents};
ghost use Rattle.eq_classes.specs.declared.order.OrderItem.{OrderItem};
ghost use Rattle.eq_classes.specs.Clauses.{ClassTable};
ghost use Rattle.pathkeys.specs.Keys.{Keys, covers, index_keys, order_keys};
ghost use Rattle.pathkeys.specs.work.Keys.{IsKeyList};

/// One list covers another exactly where the other is its first part.
pub fn prefixes_are_covered()
    ensures prefix { (a b : Keys) → covers a b ≡ true → take (length b) a ≡ b }
    ensures converse { (a b : Keys) → take (length b) a ≡ b → covers a b ≡ true }
{}

/// Covering is a partial order.
pub fn covering_is_a_partial_order()
    ensures reflexive { (a : Keys) → covers a a ≡ true }
    ensures antisymmetric { (a b : Keys) → covers a b ≡ true → covers b a ≡ true → a ≡ b }
    ensures transitive { (a b c : Keys) → covers a b ≡ true → covers b c ≡ true →
        covers a c ≡ true }
{}

/// The keys of an index scan and those of an ORDER BY are different classes of the table, none with a constant.
pub fn keys_are_different_classes()
    ensures index { (c : Contents) (t : ClassTable) (i : IndexNo) (r : ℕ) (backward : Bool) →
        IsKeyList t (index_keys c t i r backward) }
    ensures order { (t : ClassTable) (order : List OrderItem) → IsKeyList t (order_keys t order) }
{}
