//! What one more tuple does to the groups.

ghost use Rattle.std.specs.Prelude.{◌≡◌, ℕ, ◌<◌, List, [], ◌∷◌, ◌++◌, length, slice_set, true, false};
ghost use Rattle.pg_value.specs.declared.value.Value.{Value as AnyValue};
ghost use Rattle.group_values.specs.Groups.{Seen, same_keys};
ghost use Rattle.group_values.specs.work.Groups.{IsSumOf};
ghost use Rattle.group_values.specs.Shapes.{GroupShape, Summary};
ghost use Rattle.group_values.specs.work.Steps.{at_first, begun, group_at, have_room, joined};

/// Before the first tuple there is no group, or where no column is grouped by the one of no tuple.
pub fn no_tuple_is_seen()
    ensures { (shape : GroupShape) → IsSumOf shape [] (at_first shape.width shape.calls) }
{}

/// A tuple whose keys are those of a group joins it, and the others stay as they are.
pub fn a_tuple_joins_its_group()
    ensures { (shape : GroupShape) (ss : List Seen) (keys args : List AnyValue) (gs : List Summary) → IsSumOf shape ss gs → length keys ≡ shape.width → length args ≡ length shape.calls →
        (n : ℕ) → n < length gs → same_keys (group_at gs n).keys keys ≡ true → have_room shape.calls (group_at gs n).called ≡ true →
        IsSumOf shape (ss ++ record { keys = keys; args = args } ∷ []) (slice_set gs n (joined shape.calls args (group_at gs n))) }
{}

/// A tuple whose keys no group has begins one behind the others.
pub fn a_tuple_begins_a_group()
    ensures { (shape : GroupShape) (ss : List Seen) (keys args : List AnyValue) (gs : List Summary) → IsSumOf shape ss gs → length keys ≡ shape.width → length args ≡ length shape.calls →
        ((n : ℕ) → n < length gs → same_keys (group_at gs n).keys keys ≡ false) →
        IsSumOf shape (ss ++ record { keys = keys; args = args } ∷ []) (gs ++ begun shape.calls keys args ∷ []) }
{}
