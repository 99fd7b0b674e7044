//! Laws of classes and of the clause list, for proofs that speak of them apart from any call.

ghost use Rattle.std.specs.Prelude.{◌≡◌, ◌<◌, ◌≤◌, ◌⊎◌, length, ◌&&◌, ℕ, Bool, true, false, List, All, Some};
ghost use Rattle.pg_value.specs.declared.value.SqlType.{SqlType};
ghost use Rattle.pg_value.specs.declared.value.Value.{Value};
ghost use Rattle.pg_value.specs.work.Order.{compared};
ghost use Rattle.pg_value.specs.Truths.{is_true};
ghost use Rattle.pg_expr.specs.declared.operand.ColRef.{ColRef};
ghost use Rattle.pg_expr.specs.Cond.{Cond, conds_of};
ghost use Rattle.pg_expr.specs.Columns.{atom_count, each_column};
ghost use Rattle.pg_expr.specs.Truths.{truth_of_all};
ghost use Rattle.pg_expr.specs.Typed.{IsTyped};
ghost use Rattle.eq_classes.specs.Classes.{Premises, Class, Mention, has_member, is_in, conjuncts_in};
ghost use Rattle.eq_classes.specs.Clauses.{Set, Clause, one, first_in, has_constant, ClassTable};
ghost use Rattle.eq_classes.specs.Equality.{are_equal};
ghost use Rattle.eq_classes.specs.Listing.{class_at};
ghost use Rattle.eq_classes.specs.Parts.{union, is_all, is_base, is_join, is_param, is_join_param};
ghost use Rattle.eq_classes.specs.Holding.{IsClassTable, AreApart, IsWithin};
ghost use Rattle.eq_classes.specs.work.Holding.{hold, Fits, AgreeOn, HasClass};

/// The clauses of all relations are True exactly where each condition as written is.
pub fn clauses_mean_where()
    ensures { (g : Premises) (t : ClassTable) (ws : List Cond) (b : ColRef → Value) (set : Set) →
        IsClassTable g t → g.conjuncts ≡ conjuncts_in ws → All (IsTyped g.type_of) ws →
        Fits g.type_of b → set 0 ≡ true → All (λ w. each_column (λ x. set x.rel.0) w ≡ true) ws →
        hold b (is_all set) t.clauses ≡ is_true (truth_of_all b (conds_of ws)) }
{}

/// The clauses inside a union of two sets that share no relation are those inside each and those that join them.
pub fn clauses_split()
    ensures { (g : Premises) (t : ClassTable) (b : ColRef → Value) (s u : Set) → IsClassTable g t →
        All (IsTyped g.type_of) g.conjuncts → Fits g.type_of b → AreApart s u →
        hold b (is_all (union s u)) t.clauses ≡ hold b (is_all s) t.clauses &&
        (hold b (is_all u) t.clauses && hold b (is_join s u) t.clauses) }
{}

/// Where the clauses inside a set hold, those that join it with a relation are those that a scan of the relation with
/// a parameter tests itself, and those that are left.
pub fn params_split()
    ensures { (g : Premises) (t : ClassTable) (b : ColRef → Value) (s p : Set) (r : ℕ) →
        IsClassTable g t → All (IsTyped g.type_of) g.conjuncts → Fits g.type_of b → IsWithin p s →
        s r ≡ false → hold b (is_all s) t.clauses ≡ true →
        hold b (is_join s (one r)) t.clauses ≡
        hold b (is_param r p) t.clauses && hold b (is_join_param s r p) t.clauses }
{}

/// The clauses inside a set of one relation are those over it.
pub fn base_is_all()
    ensures { (g : Premises) (t : ClassTable) (b : ColRef → Value) (r : ℕ) → IsClassTable g t →
        hold b (is_all (one r)) t.clauses ≡ hold b (is_base r) t.clauses }
{}

/// Each part reads columns of its relations alone.
pub fn parts_are_local()
    ensures all { (g : Premises) (t : ClassTable) (b d : ColRef → Value) (s : Set) → IsClassTable g t →
        AgreeOn s b d → hold b (is_all s) t.clauses ≡ hold d (is_all s) t.clauses }
    ensures base { (g : Premises) (t : ClassTable) (b d : ColRef → Value) (r : ℕ) → IsClassTable g t →
        AgreeOn (one r) b d → hold b (is_base r) t.clauses ≡ hold d (is_base r) t.clauses }
    ensures join { (g : Premises) (t : ClassTable) (b d : ColRef → Value) (s u : Set) →
        IsClassTable g t → AgreeOn (union s u) b d →
        hold b (is_join s u) t.clauses ≡ hold d (is_join s u) t.clauses }
    ensures param { (g : Premises) (t : ClassTable) (b d : ColRef → Value) (r : ℕ) (p : Set) →
        IsClassTable g t → AgreeOn (union (one r) p) b d →
        hold b (is_param r p) t.clauses ≡ hold d (is_param r p) t.clauses }
    ensures join_param { (g : Premises) (t : ClassTable) (b d : ColRef → Value) (s p : Set) (r : ℕ) →
        IsClassTable g t → AgreeOn (union s (one r)) b d →
        hold b (is_join_param s r p) t.clauses ≡ hold d (is_join_param s r p) t.clauses }
{}

/// Where the clauses inside a set hold at two tuples, a class with a member inside a part of the set compares them alike
/// by its first member inside the part and by that inside the set.
pub fn classes_compare_alike()
    ensures { (g : Premises) (t : ClassTable) (b d : ColRef → Value) (part set : Set) (c : Class)
        (x y : ColRef) → IsClassTable g t → All (IsTyped g.type_of) g.conjuncts → Fits g.type_of b →
        Fits g.type_of d → IsWithin part set → hold b (is_all set) t.clauses ≡ true →
        hold d (is_all set) t.clauses ≡ true → HasClass t c → first_in c part ≡ Some x →
        first_in c set ≡ Some y → compared c.family (b x) (d x) ≡ compared c.family (b y) (d y) }
{}

/// Where the clauses inside a set hold, two members of a class there are one column or equal values, and tuples agree
/// on each member of a class that has a constant.
pub fn members_tie()
    ensures same { (g : Premises) (t : ClassTable) (b : ColRef → Value) (set : Set) (c : Class)
        (x y : ColRef) → IsClassTable g t → All (IsTyped g.type_of) g.conjuncts → Fits g.type_of b →
        hold b (is_all set) t.clauses ≡ true → HasClass t c → has_member c x ≡ true →
        has_member c y ≡ true → set x.rel.0 ≡ true → set y.rel.0 ≡ true →
        (x ≡ y) ⊎ (are_equal c.family (b x) (b y) ≡ true) }
    ensures constant { (g : Premises) (t : ClassTable) (b d : ColRef → Value) (set : Set) (c : Class)
        (x : ColRef) → IsClassTable g t → All (IsTyped g.type_of) g.conjuncts → Fits g.type_of b →
        Fits g.type_of d → hold b (is_all set) t.clauses ≡ true →
        hold d (is_all set) t.clauses ≡ true → HasClass t c → has_constant c ≡ true →
        has_member c x ≡ true → set x.rel.0 ≡ true → are_equal c.family (b x) (d x) ≡ true }
{}

/// The conjuncts of conditions as written are well typed where these are, name columns that pass a test where theirs do, and
/// none has more atoms than a condition may have.
pub fn conjuncts_are_over()
    ensures typed { (ws : List Cond) (type_of : ColRef → SqlType) → All (IsTyped type_of) ws →
        All (IsTyped type_of) (conjuncts_in ws) }
    ensures columns { (ws : List Cond) (test : ColRef → Bool) →
        All (λ w. each_column test w ≡ true) ws →
        All (λ k. each_column test k ≡ true) (conjuncts_in ws) }
    ensures atoms { (ws : List Cond) (most : ℕ) → All (λ w. atom_count w ≤ most) ws →
        All (λ k. atom_count k ≤ most) (conjuncts_in ws) }
{}

/// Each clause is well typed where the conjuncts are, names columns that pass a test where those of the conjuncts and of ORDER
/// BY do, and has no more atoms than a conjunct may have, which is one at least.
pub fn clauses_are_over()
    ensures typed { (g : Premises) (t : ClassTable) → IsClassTable g t →
        All (IsTyped g.type_of) g.conjuncts →
        All (λ (k : Clause). IsTyped g.type_of k.cond) t.clauses }
    ensures columns { (g : Premises) (t : ClassTable) (test : ColRef → Bool) → IsClassTable g t →
        All (λ k. each_column test k ≡ true) g.conjuncts → All (λ i. test i.col ≡ true) g.order →
        All (λ (k : Clause). each_column test k.cond ≡ true) t.clauses }
    ensures atoms { (g : Premises) (t : ClassTable) (most : ℕ) → IsClassTable g t → 1 ≤ most →
        All (λ k. atom_count k ≤ most) g.conjuncts →
        All (λ (k : Clause). atom_count k.cond ≤ most) t.clauses }
{}

/// A column is in one class of a family at most.
pub fn classes_are_apart()
    ensures { (g : Premises) (t : ClassTable) (m : Mention) (k l : ℕ) → IsClassTable g t →
        k < length t.classes → l < length t.classes → is_in (class_at t.classes k) m ≡ true →
        is_in (class_at t.classes l) m ≡ true → k ≡ l }
{}

/// Conjuncts and an ORDER BY have one table.
pub fn tables_are_one()
    ensures { (g : Premises) (t u : ClassTable) → IsClassTable g t → IsClassTable g u → t ≡ u }
{}
