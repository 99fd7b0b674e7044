//! Tuples that come one after another.

ghost use Rattle.std.specs.Prelude.{◌≡◌, List, ◌∷◌, ◌++◌, map, true, false};
ghost use Rattle.std.specs.Cmp.{IsTotalOrder};
ghost use Rattle.std.specs.Ordering.{is_eq};
ghost use Rattle.std.specs.declared.cmp.Ordering.{Ordering};
ghost use Rattle.pg_value.specs.Sorting.{IsInOrder, one_after_other};
ghost use Rattle.group_values.specs.Groups.{Seen, alike, lines};
ghost use Rattle.group_values.specs.work.Groups.{IsSumOf};
ghost use Rattle.group_values.specs.Shapes.{GroupShape, Summary};
ghost use Rattle.group_values.specs.work.Steps.{IsLastAlone};
ghost use Rattle.group_values.specs.work.Grouping.{final_shape};
ghost use Rattle.group_values.specs.work.Neighbours.{AreTogether, tuple_order};

/// Where the tuples of each group come one after another, no group but the last has the keys of the tuple that comes next,
/// whatever comes later.
pub fn neighbours_are_of_the_last_group()
    ensures { (shape : GroupShape) (ss : List Seen) (s : Seen) (later : List Seen) (gs : List Summary) → IsSumOf shape ss gs → AreTogether (ss ++ s ∷ later) → IsLastAlone gs s.keys }
{}

/// The tuples of each group come one after another where they are sorted by an order in which the tuples of one group tie, and
/// no others.
pub fn sorted_tuples_are_neighbours()
    ensures { (order : Seen → Seen → Ordering) → IsTotalOrder order → ((s t : Seen) → is_eq (order s t) ≡ alike s t) → (ss : List Seen) → IsInOrder order ss → AreTogether ss }
{}

/// Where tuples come in the order of the items of ORDER BY, so do their groups, and the lines need no sort.
pub fn sorted_tuples_give_sorted_lines()
    ensures { (shape : GroupShape) (ss : List Seen) → IsInOrder (one_after_other (map tuple_order shape.order)) ss → lines (final_shape false shape) ss ≡ lines (final_shape true shape) ss }
{}
