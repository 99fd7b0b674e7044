//! Laws of well bound queries, for proofs that speak of them apart from any call.

ghost use Rattle.std.specs.Prelude.{◌≡◌, ◌≤◌, All, length};
ghost use Rattle.pg_base.specs.declared.limits.TheConstants.{MOST_ATOMS};
ghost use Rattle.pg_expr.specs.Columns.{atom_count};
ghost use Rattle.sql_query.specs.catalog_Contents.{Contents};
ghost use Rattle.eq_classes.specs.Clauses.{Clause};
ghost use Rattle.eq_classes.specs.work.Holding.{hold, Fits};
ghost use Rattle.eq_classes.specs.Parts.{is_all, is_base};
ghost use Rattle.path_cost.specs.work.Columns.{IsOver};
ghost use Rattle.sql_query.specs.Meaning.{all_true};
ghost use Rattle.sql_query.specs.Queries.{Query, all_of_query, width};
ghost use Rattle.sql_query.specs.Tuples.{Tuple, value_at};
ghost use Rattle.sql_query.specs.WellBound.{IsWellBound};
ghost use Rattle.sql_query.specs.catalog_Range.{type_in};
ghost use Rattle.sql_query.specs.Worlds.{World, IsWorld};

/// At a tuple of a world each column has a value that is NULL or of its type.
pub fn values_fit_their_types()
    ensures { (w : World) (q : Query) (t : Tuple) → IsWorld w →
        Fits (type_in w.contents q.range) (value_at w q t) }
{}

/// Each clause of a well bound query is over its relations: it is well typed and names their columns alone.
pub fn clauses_are_over_the_relations()
    ensures { (c : Contents) (q : Query) → IsWellBound c q →
        All (λ (k : Clause). IsOver c q.range k.cond) q.classes.clauses }
{}

/// A well bound query has at most 512 clauses, and each has no more atoms than the query may have.
pub fn clauses_are_few()
    ensures count { (c : Contents) (q : Query) → IsWellBound c q → length q.classes.clauses ≤ 512 }
    ensures atoms { (c : Contents) (q : Query) → IsWellBound c q →
        All (λ (k : Clause). atom_count k.cond ≤ MOST_ATOMS) q.classes.clauses }
{}

/// At a tuple of a world the clauses of all relations hold exactly where each condition as written is True.
pub fn clauses_mean_the_conditions()
    ensures { (w : World) (q : Query) (t : Tuple) → IsWorld w → IsWellBound w.contents q →
        hold (value_at w q t) (is_all (all_of_query q)) q.classes.clauses ≡
        all_true w q t q.where_all }
{}

/// With one relation the clauses over it hold exactly there.
pub fn base_clauses_mean_the_conditions()
    ensures { (w : World) (q : Query) (t : Tuple) → IsWorld w → IsWellBound w.contents q →
        width q ≡ 1 →
        hold (value_at w q t) (is_base 0) q.classes.clauses ≡ all_true w q t q.where_all }
{}
