//! The laws.

ghost use Rattle.std.specs.Prelude.{◌≡◌, List, All, IsPermutation, length, map};
ghost use Rattle.pg_value.specs.Sorting.{IsInOrder, one_after_other};
ghost use Rattle.group_values.specs.Groups.{Seen, lines, sorted, sorter_order, summaries};
ghost use Rattle.group_values.specs.Shapes.{GroupShape};

/// Tuples in any order give the same lines, but those that are not sorted, or tie, may come in another order.
pub fn tuples_in_any_order_give_the_same_lines()
    ensures { (shape : GroupShape) (ss ts : List Seen) →
        All (λ (s : Seen). length s.keys ≡ shape.width) ss → IsPermutation ss ts →
        IsPermutation (lines shape ss) (lines shape ts) }
{}

/// Groups whose lines are sorted stand in the order of the items of ORDER BY.
pub fn groups_are_sorted()
    ensures { (shape : GroupShape) (ss : List Seen) →
        IsInOrder (one_after_other (map sorter_order shape.order)) (sorted shape.order (summaries shape ss)) }
{}
