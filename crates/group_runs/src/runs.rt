//! The laws, over worlds and well bound queries, whatever the statistics.

ghost use Rattle.std.specs.Prelude.{◌≡◌, List, Option, IsPermutation, length, map, true, false};
ghost use Rattle.pg_expr.specs.declared.operand.ColRef.{ColRef};
ghost use Rattle.eq_classes.specs.declared.order.OrderItem.{OrderItem};
ghost use Rattle.pathkeys.specs.Keys.{covers, order_keys};
ghost use Rattle.sql_query.specs.Meaning.{meaning};
ghost use Rattle.sql_query.specs.Queries.{Query, in_order_of};
ghost use Rattle.sql_query.specs.Tuples.{no_rows};
ghost use Rattle.sql_query.specs.WellBound.{IsWellBound, ordered_columns};
ghost use Rattle.sql_query.specs.Worlds.{World, IsWorld};
ghost use Rattle.plan_tree.specs.Plans.{Plan};
ghost use Rattle.plan_tree.specs.Run.{run};
ghost use Rattle.plan_tree.specs.Space.{IsFinished};
ghost use Rattle.group_values.specs.Groups.{lines};
ghost use Rattle.group_values.specs.Shapes.{GroupShape};
ghost use Rattle.group_values.specs.work.Neighbours.{AreTogether};
ghost use Rattle.group_values.specs.work.Grouping.{final_shape};
ghost use Rattle.group_runs.specs.Seen.{seen_of};
ghost use Rattle.group_runs.specs.work.Sorters.{AreSortersOf};

/// The lines of the groups of a finished plan's tuples are as a bag those of the tuples that the query means.
pub fn plans_give_the_meant_lines()
    ensures { (w : World) (q : Query) (p : Plan) (shape : GroupShape) (keys : List ColRef)
        (args : List (Option ColRef)) → IsWorld w → IsWellBound w.contents q →
        IsFinished w.contents q p → length keys ≡ shape.width →
        IsPermutation (lines shape (map (seen_of w q keys args) (run w q p (no_rows q))))
        (lines shape (map (seen_of w q keys args) (meaning w q))) }
{}

/// Where a query's order is by the GROUP BY columns, a finished plan gives the tuples of each group one after another.
pub fn ordered_plans_give_neighbours()
    ensures { (w : World) (q : Query) (p : Plan) (args : List (Option ColRef)) →
        IsWorld w → IsWellBound w.contents q → IsFinished w.contents q p →
        AreTogether (map (seen_of w q (ordered_columns q.order) args) (run w q p (no_rows q))) }
{}

/// Where the keys of ORDER BY are the first ones of the order in which a plan gives its tuples, the groups come in the order of
/// ORDER BY, and their lines need no sort.
pub fn covered_orders_need_no_sort()
    ensures { (w : World) (q : Query) (p : Plan) (given asked : List OrderItem)
        (shape : GroupShape) (keys : List ColRef) (args : List (Option ColRef)) → IsWorld w →
        IsWellBound w.contents (in_order_of q given) → IsWellBound w.contents (in_order_of q asked) →
        IsFinished w.contents (in_order_of q given) p →
        covers (order_keys q.classes given) (order_keys q.classes asked) ≡ true →
        AreSortersOf keys asked shape.order →
        lines (final_shape false shape)
        (map (seen_of w q keys args) (run w (in_order_of q given) p (no_rows q))) ≡
        lines (final_shape true shape)
        (map (seen_of w q keys args) (run w (in_order_of q given) p (no_rows q))) }
{}
