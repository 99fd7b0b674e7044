//! Laws of an index's conditions, for proofs that speak of them apart from any call.

ghost use Rattle.std.specs.Prelude.{◌≡◌, ◌||◌, ◌&&◌, ◌<◌, ℕ, Bool, true, false, not, All, length, map, filter};
ghost use Rattle.pg_base.specs.declared.numbers.IndexNo.{IndexNo};
ghost use Rattle.catalog.specs.Contents.{Contents};
ghost use Rattle.eq_classes.specs.Clauses.{Clause, Set, ClassTable};
ghost use Rattle.eq_classes.specs.Listing.{clause_at};
ghost use Rattle.eq_classes.specs.Parts.{is_base, is_param};
ghost use Rattle.index_match.specs.Numbered.{Numbered, conditions_of, has_number, those};
ghost use Rattle.index_match.specs.Conditions.{index_conditions};
ghost use Rattle.index_match.specs.Bounds.{index_bounds};
ghost use Rattle.index_match.specs.work.Bounds.{index_tests};

/// The conditions of the clauses that pass a test are those of the clause list that do, in its order.
pub fn clauses_by_number()
    ensures { (t : ClassTable) (test : Clause → Bool) →
        conditions_of (those t test) ≡ map (λ (k : Clause). k.cond) (filter test t.clauses) }
{}

/// Each condition found for a relation and a parameterisation is a clause of the relation alone or of both, under its
/// number.
pub fn conditions_are_local()
    ensures { (c : Contents) (t : ClassTable) (i : IndexNo) (r : ℕ) (p : Set) (n : ℕ) →
        has_number (index_conditions c t i r p) n ≡ true →
        (n < length t.clauses) ×
        (is_base r (clause_at t.clauses n) || is_param r p (clause_at t.clauses n) ≡ true) }
{}

/// Each condition is a bound or a test and not both, and there are no other bounds and tests.
pub fn bounds_and_tests_part_the_conditions()
    ensures either { (c : Contents) (t : ClassTable) (i : IndexNo) (r : ℕ) (p : Set) (n : ℕ) →
        has_number (index_bounds c t i r p) n || has_number (index_tests c t i r p) n ≡
        has_number (index_conditions c t i r p) n }
    ensures not_both { (c : Contents) (t : ClassTable) (i : IndexNo) (r : ℕ) (p : Set) (n : ℕ) →
        has_number (index_bounds c t i r p) n && has_number (index_tests c t i r p) n ≡ false }
{}
