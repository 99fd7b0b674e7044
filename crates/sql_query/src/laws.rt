//! What follows from a query's being well bound.

ghost use Rattle.std.specs.Prelude.{List, [], All, Contains};
ghost use Rattle.catalog.specs.Contents.{Contents};
ghost use Rattle.eq_classes.specs.Holding.{IsClassTable};
ghost use Rattle.eq_classes.specs.declared.order.OrderItem.{OrderItem};
ghost use Rattle.sql_query.specs.Queries.{Query, in_order_of};
ghost use Rattle.sql_query.specs.WellBound.{IsColumnOf, IsDirected, IsWellBound, given_of, ordered_columns};
ghost use Rattle.sql_query.specs.work.WellBound.{IsDirectedBy};

/// Each column that a well bound query selects is one of its relations.
pub fn selected_columns()
    ensures { (c : Contents) (q : Query) → IsWellBound c q → All (IsColumnOf c q.range) q.select }
{}

/// Where the classes are made of ORDER BY itself, the first item by each of them has its direction.
pub fn own_classes_have_their_directions()
    ensures { (c : Contents) (q : Query) → IsClassTable (given_of c q) q.classes → All (IsDirected c q) q.classes.classes }
{}

/// A well bound query is well bound in each other order whose columns it names and stand among the items of its classes, and
/// whose items have the directions of their classes.
pub fn another_order_is_well_bound()
    ensures { (c : Contents) (q : Query) (is : IsWellBound c q) (order : List OrderItem) → All (λ i. Contains q.used i.col) order →
        All (λ i. Contains (ordered_columns is.items) i.col) order → All (IsDirectedBy c q) order → IsWellBound c (in_order_of q order) }
{}

/// A well bound query is well bound with no order, over the classes that it has.
pub fn no_order_is_well_bound()
    ensures { (c : Contents) (q : Query) → IsWellBound c q → IsWellBound c (in_order_of q []) }
{}
