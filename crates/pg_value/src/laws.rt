//! Laws of the definitions.

ghost use Rattle.std.specs.Prelude.{◌≡◌, ◌≢◌, Bool};
ghost use Rattle.std.specs.Cmp.{IsTotalOrder};
ghost use Rattle.pg_value.specs.declared.operators.Family.{Family};
ghost use Rattle.pg_value.specs.declared.value.Value.{Value};
ghost use Rattle.pg_value.specs.ColumnOrder.{column_order};
ghost use Rattle.pg_value.specs.Kinds.{directed_order, kind_order};
ghost use Rattle.pg_value.specs.work.Order.{IsOfFamily};

use crate::operators::Family;
use std::cmp::Ordering;

/// The order of a column is total, up to equality, in each family, direction and place of NULL.
pub fn column_order_is_total()
    ensures { (f : Family) (descending nulls_first : Bool) → IsTotalOrder (column_order f descending nulls_first) }
{}

/// The order of all values by kind is total, also with a direction and a place of NULL, and values that tie in it are the
/// same. On values of one type it is the order of a column in the type's default family.
pub fn kind_order_is_total()
    ensures total { IsTotalOrder kind_order }
    ensures directed { (descending nulls_first : Bool) → IsTotalOrder (directed_order descending nulls_first) }
    ensures same { (v w : Value) → kind_order v w ≡ Ordering.Equal → v ≡ w }
    ensures columns { (f : Family) (descending nulls_first : Bool) (v w : Value) → f ≢ Family.IntAbs → IsOfFamily f v → IsOfFamily f w →
        directed_order descending nulls_first v w ≡ column_order f descending nulls_first v w }
{}
