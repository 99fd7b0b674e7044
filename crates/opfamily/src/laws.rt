//! Laws of the definitions.

ghost use Rattle.std.specs.Prelude.{List};
ghost use Rattle.std.specs.Cmp.{IsTotalOrder};
ghost use Rattle.opfamily.specs.declared.classes.IndexKey.{IndexKey};
ghost use Rattle.opfamily.specs.KeyOrder.{key_values_order, entry_order};

/// The order of lists of key values is total up to equality, for each list of keys, and so is that of entries.
pub fn key_order_is_total()
    ensures keys { (ks : List IndexKey) → IsTotalOrder (key_values_order ks) }
    ensures entries { (ks : List IndexKey) → IsTotalOrder (entry_order ks) }
{}
