//! Laws of the orders of what plans give, over worlds and well bound queries, whatever the statistics. Source: PostgreSQL,
//! src/backend/optimizer/README (PathKeys).

ghost use Rattle.sql_query.specs.Meaning.{IsOrdered};
ghost use Rattle.sql_query.specs.Queries.{Query};
ghost use Rattle.sql_query.specs.Tuples.{Tuple, no_rows};
ghost use Rattle.sql_query.specs.WellBound.{IsWellBound};
ghost use Rattle.sql_query.specs.Worlds.{World, IsWorld};
ghost use Rattle.plan_tree.specs.Keys.{keys_of};
ghost use Rattle.plan_tree.specs.Plans.{Plan, set_of};
ghost use Rattle.plan_tree.specs.Run.{run};
ghost use Rattle.plan_tree.specs.work.Sorted.{AreSorted};
ghost use Rattle.plan_tree.specs.Space.{IsBuilt, IsFinished};

/// A plan's tuples are sorted by the plan's keys.
pub fn plans_are_sorted()
    ensures { (w : World) (q : Query) (p : Plan) (o : Tuple) → IsWorld w →
        IsWellBound w.contents q → IsBuilt w.contents q p →
        AreSorted w q (set_of p) (keys_of w.contents q p) (run w q p o) }
{}

/// A finished plan's tuples are in the query's ORDER BY, item by item as written.
pub fn finished_plans_are_ordered()
    ensures { (w : World) (q : Query) (p : Plan) → IsWorld w → IsWellBound w.contents q →
        IsFinished w.contents q p → IsOrdered w q (run w q p (no_rows q)) }
{}
