//! Laws of what plans give, over worlds and well bound queries, whatever the statistics. Source: PostgreSQL,
//! src/backend/optimizer/README (Paths and Join Pairs, Parameterized Paths).

ghost use Rattle.std.specs.Prelude.{◌≡◌, true, All, Some, IsPermutation};
ghost use Rattle.pg_base.specs.Sets.{has};
ghost use Rattle.eq_classes.specs.Clauses.{Set};
ghost use Rattle.eq_classes.specs.Parts.{is_all};
ghost use Rattle.sql_query.specs.Meaning.{meaning};
ghost use Rattle.sql_query.specs.Queries.{Query};
ghost use Rattle.sql_query.specs.Tuples.{Tuple, no_rows};
ghost use Rattle.sql_query.specs.WellBound.{IsWellBound};
ghost use Rattle.sql_query.specs.Worlds.{World, IsWorld};
ghost use Rattle.plan_tree.specs.pathkeys_Keys.{Keys};
ghost use Rattle.plan_tree.specs.Plans.{Plan, GivenScan, nest, merge, empty, set_of, given_scan, param_of};
ghost use Rattle.plan_tree.specs.Run.{joined_tuples, run};
ghost use Rattle.plan_tree.specs.Space.{IsBuilt, IsEmpty, IsFinished, IsPlanOf};
ghost use Rattle.plan_laws.specs.work.Meant.{HaveSameRows, holds_at, meant, meant_scan, joined_with};

/// A plan that need not be given rows gives, each as often, the tuples of its set at which all clauses inside the set are
/// True. A scan that is given the rows of a tuple gives the rows of its relation at which its own clauses and those of
/// its parameterisation are True beside them. A finished plan gives the query's meaning.
pub fn plans_give_their_tuples()
    ensures built { (w : World) (q : Query) (p : Plan) (o : Tuple) → IsWorld w →
        IsWellBound w.contents q → IsBuilt w.contents q p → IsEmpty (param_of p) →
        IsPermutation (run w q p o) (meant w q (set_of p)) }
    ensures whole { (w : World) (q : Query) (set : Set) (p : Plan) (o : Tuple) → IsWorld w →
        IsWellBound w.contents q → IsPlanOf w.contents q set empty p →
        IsPermutation (run w q p o) (meant w q set) }
    ensures given { (w : World) (q : Query) (p : Plan) (s : GivenScan) (o : Tuple) → IsWorld w →
        IsWellBound w.contents q → IsBuilt w.contents q p → given_scan p ≡ Some s →
        IsPermutation (run w q p o) (meant_scan w q s.relation.0 (has s.param.0) o) }
    ensures finished { (w : World) (q : Query) (p : Plan) → IsWorld w → IsWellBound w.contents q →
        IsFinished w.contents q p → IsPermutation (run w q p (no_rows q)) (meaning w q) }
{}

/// A plan gives the same tuples in the same order beside two tuples that have the same rows of its parameterisation, so a
/// plan without one gives the same beside any.
pub fn runs_read_their_parameterisation()
    ensures { (w : World) (q : Query) (p : Plan) (o u : Tuple) → IsWorld w →
        IsWellBound w.contents q → IsBuilt w.contents q p → HaveSameRows (param_of p) o u →
        run w q p o ≡ run w q p u }
{}

/// At an outer tuple at which all clauses of the outer side are True, as they are at each that the side gives, the clauses
/// that a join leaves out are True already: it gives what it would by testing all clauses that join the sides, and, each as
/// often, what it would with an inner side that is given no rows.
pub fn joins_leave_out_what_holds()
    ensures nest { (w : World) (q : Query) (outer inner : Plan) (t : Tuple) → IsWorld w →
        IsWellBound w.contents q → IsBuilt w.contents q (nest outer inner) →
        holds_at w q t (is_all (set_of outer)) ≡ true →
        joined_tuples w q outer inner t (run w q inner t) ≡
        joined_with w q (set_of outer) (set_of inner) t (run w q inner t) }
    ensures merge { (w : World) (q : Query) (keys : Keys) (outer inner : Plan) (t : Tuple) →
        IsWorld w → IsWellBound w.contents q → IsBuilt w.contents q (merge keys outer inner) →
        holds_at w q t (is_all (set_of outer)) ≡ true →
        joined_tuples w q outer inner t (run w q inner t) ≡
        joined_with w q (set_of outer) (set_of inner) t (run w q inner t) }
    ensures rows { (w : World) (q : Query) (outer inner : Plan) (t : Tuple) → IsWorld w →
        IsWellBound w.contents q → IsBuilt w.contents q (nest outer inner) →
        holds_at w q t (is_all (set_of outer)) ≡ true →
        IsPermutation (joined_tuples w q outer inner t (run w q inner t))
        (joined_with w q (set_of outer) (set_of inner) t (meant w q (set_of inner))) }
    ensures outer { (w : World) (q : Query) (p : Plan) (o : Tuple) → IsWorld w →
        IsWellBound w.contents q → IsBuilt w.contents q p → IsEmpty (param_of p) →
        All (λ t. holds_at w q t (is_all (set_of p)) ≡ true) (run w q p o) }
{}
