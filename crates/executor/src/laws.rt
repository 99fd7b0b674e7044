//! Laws of what finished plans give.

ghost use Rattle.std.specs.Prelude.{All};
ghost use Rattle.sql_query.specs.Queries.{Query};
ghost use Rattle.sql_query.specs.Tuples.{no_rows};
ghost use Rattle.sql_query.specs.WellBound.{IsWellBound};
ghost use Rattle.sql_query.specs.Worlds.{World, IsWorld};
ghost use Rattle.plan_tree.specs.Plans.{Plan};
ghost use Rattle.plan_tree.specs.Run.{run};
ghost use Rattle.plan_tree.specs.Space.{IsFinished};
ghost use Rattle.executor.specs.work.Numbers.{IsTupleOf};

/// Each tuple that a finished plan gives has a number for each relation of the query, that of one of its rows.
pub fn tuples_have_rows()
    ensures { (w : World) (q : Query) (p : Plan) → IsWorld w →
        IsWellBound w.contents q → IsFinished w.contents q p →
        All (IsTupleOf w q) (run w q p (no_rows q)) }
{}
