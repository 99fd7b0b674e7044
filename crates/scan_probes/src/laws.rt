//! What the conditions of an index as bounds mean, and what is tested at a row beside rows given.

ghost use Rattle.std.specs.Prelude.{◌≡◌, ℕ, Bool, List, [], All, slice_index_or, true};
ghost use Rattle.std.specs.List.{AllByRecursion};
ghost use Rattle.pg_base.specs.declared.numbers.ColNo.{ColNo};
ghost use Rattle.pg_value.specs.declared.value.SqlType.{SqlType};
ghost use Rattle.pg_value.specs.declared.value.Value.{Value};
ghost use Rattle.opfamily.specs.declared.classes.IndexKey.{IndexKey};
ghost use Rattle.opfamily.specs.declared.classes.Method.TheVariants.{Btree};
ghost use Rattle.pg_expr.specs.Cond.{Cond};
ghost use Rattle.pg_expr.specs.Typed.{IsTyped};
ghost use Rattle.pg_expr.specs.declared.operand.ColRef.{ColRef};
ghost use Rattle.btree_index.specs.work.Bounds.{AreBounds, meets_all};
ghost use Rattle.index_match.specs.Bounds.{bounding};
ghost use Rattle.index_match.specs.Numbered.{Numbered, conditions_of};
ghost use Rattle.pg_base.specs.declared.numbers.RelNo.{RelNo};
ghost use Rattle.sql_query.specs.Meaning.{all_true};
ghost use Rattle.sql_query.specs.Queries.{Query};
ghost use Rattle.sql_query.specs.Tuples.{Tuple, beside, rows_of_relation};
ghost use Rattle.sql_query.specs.Worlds.{World};
ghost use Rattle.scan_probes.specs.work.Scenes.{AreReady, IsOverWorld, IsTestable};
ghost use Rattle.scan_probes.specs.work.Probes.{AreOf, FitGiven, FitOwn, IsKeyTyped, probes_from};
ghost use Rattle.scan_probes.specs.work.Values.{Given, are_true, tuple_given, value_beside, value_in};

/// The conditions of a B-tree on a relation, where rows of other relations are given, are bounds of its keys. Key values meet
/// them exactly where the conditions that bound the index are True at a row with these values: a NULL among the rows given
/// meets nothing.
pub fn conditions_bound_an_index()
    ensures bounds { (type_of : ColRef → SqlType) (r : ℕ) (given : Given)
        (ks : List IndexKey) (es : List Cond) →
        FitGiven type_of given → AllByRecursion (IsKeyTyped type_of r) ks →
        All (IsTyped type_of) es →
        AreBounds 0 ks (probes_from r 0 ks given es) }
    ensures met { (type_of : ColRef → SqlType) (r : ℕ) (given : Given)
        (own : ColNo → Value) (ks : List IndexKey) (vs : List Value) (cs : List Numbered) →
        FitGiven type_of given → FitOwn type_of r own → AreOf own 0 ks vs →
        All (IsTyped type_of) (conditions_of cs) →
        meets_all (probes_from r 0 ks given (conditions_of cs)) vs ≡
        are_true (value_beside r own given) (conditions_of (bounding Btree r ks cs)) }
{}

/// Where a relation's own columns have the values of its row of a number, be it read or taken from an entry of an index, and
/// other columns those of the rows that a tuple has of a set of relations, conditions that can be tested have values of their
/// columns' types, and are True where they are at that row beside the tuple.
pub fn conditions_are_tested_at_a_tuple()
    ensures ready { (w : World) (q : Query) (r : RelNo) (p : ℕ → Bool) (o : Tuple) (n : ℕ)
        (has : ColNo → Bool) (own : ColNo → Value) (es : List Cond) →
        IsOverWorld w q →
        ((c : ColNo) → has c ≡ true →
        own c ≡ value_in (slice_index_or (rows_of_relation w q r) n []) c) →
        AllByRecursion (IsTestable w.contents q.range r.0 has (tuple_given w q p o)) es →
        AreReady w.contents q.range r.0 has own (tuple_given w q p o) es }
    ensures truth { (w : World) (q : Query) (r : RelNo) (p : ℕ → Bool) (o : Tuple) (n : ℕ)
        (has : ColNo → Bool) (own : ColNo → Value) (es : List Cond) →
        IsOverWorld w q →
        ((c : ColNo) → has c ≡ true →
        own c ≡ value_in (slice_index_or (rows_of_relation w q r) n []) c) →
        AllByRecursion (IsTestable w.contents q.range r.0 has (tuple_given w q p o)) es →
        are_true (value_beside r.0 own (tuple_given w q p o)) es ≡
        all_true w q (beside q r.0 n o) es }
{}
