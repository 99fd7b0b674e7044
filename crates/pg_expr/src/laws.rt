//! Laws of the definitions, for proofs that speak of conditions apart from any call.

ghost use Rattle.std.specs.Prelude.{◌≡◌, ℕ, Bool, false, IsTrue};
ghost use Rattle.pg_value.specs.declared.value.SqlType.{SqlType};
ghost use Rattle.pg_value.specs.declared.value.Value.{Value};
ghost use Rattle.pg_expr.specs.declared.operand.ColRef.{ColRef};
ghost use Rattle.pg_expr.specs.Cond.{Cond};
ghost use Rattle.pg_expr.specs.Columns.{some_column, some_column_of, each_column, each_column_of, atom_count, atom_count_of, names_rel};
ghost use Rattle.pg_expr.specs.Conjuncts.{conjuncts_of};
ghost use Rattle.pg_expr.specs.Pushed.{pushed, IsPushed, ArePushed};
ghost use Rattle.pg_expr.specs.Truths.{truth_at, truth_of_all};
ghost use Rattle.pg_expr.specs.Typed.{IsTyped, AreTyped};
ghost use Rattle.pg_expr.specs.work.Typed.{HasTruthOf};

/// The pushed form of each condition is in pushed form, has its truth, and keeps its types, columns and atoms. That of
/// a condition in pushed form is itself.
pub fn pushed_form_laws()
    ensures form { (c : Cond) → IsPushed (pushed false c) }
    ensures fixed { (c : Cond) → IsPushed c → pushed false c ≡ c }
    ensures truth { (c : Cond) → HasTruthOf c (pushed false c) }
    ensures typed { (c : Cond) (t : ColRef → SqlType) → IsTyped t c → IsTyped t (pushed false c) }
    ensures some { (c : Cond) (test : ColRef → Bool) → some_column test (pushed false c) ≡ some_column test c }
    ensures each { (c : Cond) (test : ColRef → Bool) → each_column test (pushed false c) ≡ each_column test c }
    ensures atoms { (c : Cond) → atom_count (pushed false c) ≡ atom_count c }
{}

/// The conjuncts of each condition, as an AND, have its truth, and keep its form, types, columns and atoms.
pub fn conjuncts_laws()
    ensures truth { (c : Cond) (b : ColRef → Value) → truth_of_all b (conjuncts_of c) ≡ truth_at b c }
    ensures form { (c : Cond) → IsPushed c → ArePushed false (conjuncts_of c) }
    ensures typed { (c : Cond) (t : ColRef → SqlType) → IsTyped t c → AreTyped t (conjuncts_of c) }
    ensures some { (c : Cond) (test : ColRef → Bool) → some_column_of test (conjuncts_of c)
        ≡ some_column test c }
    ensures each { (c : Cond) (test : ColRef → Bool) → each_column_of test (conjuncts_of c)
        ≡ each_column test c }
    ensures atoms { (c : Cond) → atom_count_of (conjuncts_of c) ≡ atom_count c }
{}

/// The columns that a condition names: they pass a test where their relations do, they pass each weaker test, and the
/// truth of the condition depends on them alone.
pub fn column_laws()
    ensures inside { (c : Cond) (test : ℕ → Bool) →
        ((k : ℕ) → IsTrue (names_rel k c) → IsTrue (test k)) → IsTrue (each_column (λ x. test x.rel.0) c) }
    ensures weaker { (c : Cond) (test other : ColRef → Bool) →
        ((x : ColRef) → IsTrue (test x) → IsTrue (other x)) → IsTrue (each_column test c) →
        IsTrue (each_column other c) }
    ensures agree { (c : Cond) (test : ColRef → Bool) (a b : ColRef → Value) →
        ((x : ColRef) → IsTrue (test x) → a x ≡ b x) → IsTrue (each_column test c) →
        truth_at a c ≡ truth_at b c }
{}
