//! Laws of estimates and of the costs of scans.

ghost use Rattle.std.specs.Prelude.{◌≡◌, ◌≤◌, ◌<◌, ◌+◌, ◌*◌, ◌^◌, ℕ, Bool, true, false, List, All, length, sum};
ghost use Rattle.cost_rules.specs.declared.parameters.TheConstants.{BITMAP_CHILD};
ghost use Rattle.pg_base.specs.declared.limits.TheConstants.{MOST_ATOMS};
ghost use Rattle.pg_base.specs.declared.numbers.IndexNo.{IndexNo};
ghost use Rattle.pg_expr.specs.Cond.{Cond};
ghost use Rattle.catalog.specs.Contents.{Contents, IsIndex, IsLawful};
ghost use Rattle.catalog.specs.Range.{Range};
ghost use Rattle.eq_classes.specs.Clauses.{Set, ClassTable};
ghost use Rattle.path_cost.specs.Columns.{stats_of};
ghost use Rattle.path_cost.specs.work.Columns.{AreTables};
ghost use Rattle.pg_expr.specs.declared.operand.ColRef.{ColRef};
ghost use Rattle.path_cost.specs.Costs.{arm_part, bitmap_cost, index_cost, index_part, seq_cost};
ghost use Rattle.path_cost.specs.Estimates.{kept, param_rows, set_rows};
ghost use Rattle.path_cost.specs.work.Limits.{AreWithinLimits, HasColumns};
ghost use Rattle.path_cost.specs.Selectivity.{column_range, is_ranged, least_bound, selectivity, weight, weights};

/// Estimated rows depend on the members of a set alone, however the set came about: rows of a set are one number however
/// its relations were joined.
pub fn rows_of_equal_sets()
    ensures set { (c : Contents) (range : Range) (t : ClassTable) (a b : Set) → ((k : ℕ) → a k ≡ b k) →
        set_rows c range t a ≡ set_rows c range t b }
    ensures param { (c : Contents) (range : Range) (t : ClassTable) (r : ℕ) (p q : Set) →
        ((k : ℕ) → p k ≡ q k) → param_rows c range t r p ≡ param_rows c range t r q }
{}

/// Over lawful contents a selectivity is at most all rows, and so is what a condition multiplies with in a list; and
/// conditions leave no more rows than there were, and one at least.
pub fn shares_of_rows()
    ensures share { (c : Contents) (range : Range) (e : Cond) → IsLawful c → AreTables c range →
        HasColumns c range e → selectivity c range e ≤ 10 ^ 9 }
    ensures weight { (c : Contents) (range : Range) (es : List Cond) (n : ℕ) → IsLawful c →
        AreTables c range → All (HasColumns c range) es → weight c range es n ≤ 10 ^ 9 }
    ensures kept { (c : Contents) (range : Range) (n : ℕ) (es : List Cond) (ns : List ℕ) → IsLawful c →
        AreTables c range → All (HasColumns c range) es → 1 ≤ n →
        (1 ≤ kept n (weights c range es ns)) × (kept n (weights c range es ns) ≤ n) }
{}

/// Over lawful contents the bounds of a column from both sides together multiply with no more than the least of each
/// side alone does.
pub fn ranges_are_in_both_ends()
    ensures { (c : Contents) (range : Range) (x : ColRef) (es : List Cond) → IsLawful c →
        AreTables c range → All (HasColumns c range) es →
        is_ranged (stats_of c range x) x es ≡ true →
        (column_range c range x es ≤ least_bound c range x true es) ×
        (column_range c range x es ≤ least_bound c range x false es) }
{}

/// Within the limits of tables and clauses every scan costs far less than 10^18, so that each is admissible. A bitmap
/// scan's own share is small beside the parts of its indexes, of which a tree of at most 8 elements has one for each
/// leaf and each arm; no scan costs more than 1.42 x 10^14.
pub fn scans_are_admissible()
    ensures seq { (c : Contents) (range : Range) (t : ClassTable) (r : ℕ) → AreWithinLimits c range t →
        r < length range → (seq_cost c range t r).total ≤ 2 * 10 ^ 12 }
    ensures part { (c : Contents) (range : Range) (t : ClassTable) (i : IndexNo) (r : ℕ)
        (p : Set) (bounds conditions : ℕ → Bool) → AreWithinLimits c range t → IsIndex c i →
        index_part c range t i r p bounds conditions ≤ 523 * 10 ^ 9 }
    ensures arm { (c : Contents) (range : Range) (t : ClassTable) (i : IndexNo) (r : ℕ)
        (p : Set) (parts : List Cond) (bounds : ℕ → Bool) → AreWithinLimits c range t → IsIndex c i →
        length parts ≤ MOST_ATOMS → arm_part c range t i r p parts bounds ≤ 523 * 10 ^ 9 }
    ensures index { (c : Contents) (range : Range) (t : ClassTable) (i : IndexNo) (r : ℕ) (p : Set)
        (bounds conditions : ℕ → Bool) (only : Bool) → AreWithinLimits c range t →
        r < length range → IsIndex c i →
        (index_cost c range t i r p bounds conditions only).total ≤ 4 * 10 ^ 12 }
    ensures bitmap { (c : Contents) (range : Range) (t : ClassTable) (r : ℕ) (p : Set) (used : ℕ → Bool)
        (parts : ℕ) → AreWithinLimits c range t → r < length range →
        (bitmap_cost c range t r p used parts).total ≤ parts + 3 * 10 ^ 12 }
    ensures bitmap_of_parts { (c : Contents) (range : Range) (t : ClassTable) (r : ℕ) (p : Set)
        (used : ℕ → Bool) (parts : List ℕ) → AreWithinLimits c range t → r < length range →
        length parts ≤ MOST_ATOMS + 8 → All (λ n. n ≤ 523 * 10 ^ 9) parts →
        (bitmap_cost c range t r p used (sum parts + BITMAP_CHILD * length parts)).total ≤ 142 * 10 ^ 12 }
{}
