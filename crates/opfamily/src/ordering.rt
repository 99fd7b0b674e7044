//! The order of lists of index keys (PostgreSQL manual, chapter Indexes, Indexes and ORDER BY).

ghost use Rattle.std.specs.Prelude.{◌≡◌, slice_index_or};
ghost use Rattle.pg_value.specs.declared.value.Value.TheVariants.{Null};
ghost use Rattle.opfamily.specs.KeyOrder.{key_family, key_order, key_values_order};

use crate::classes::{IndexKey, family};
use pg_value::{Family, Value, column_order};
use std::cmp::Ordering;

impl IndexKey {
    /// The family of the key's class.
    #[tactic(auto, unfolding(crate::specs::KeyOrder::key_family))]
    pub fn family(self) -> Family
        ensures { result ≡ key_family self }
    {
        family(self.class)
    }

    /// How two values of the key's column stand to one another, by its family, direction and place of NULL.
    pub fn compare(self, a: &Value, b: &Value) -> Ordering
        ensures { result ≡ key_order self a.now b.now }
    {
        column_order(self.family(), self.descending, self.nulls_first, a, b)
    }
}

/// How two lists of key values stand to one another, by the first key that tells them apart. A value that a list
/// lacks counts as NULL.
pub fn keys_order(keys: &[IndexKey], a: &[Value], b: &[Value]) -> Ordering
    ensures { result ≡ key_values_order keys.now a.now b.now }
{
    for i in 0..keys.len() {
        match compare_at(keys[i], a, b, i) {
            Ordering::Equal => {}
            unequal => return unequal,
        }
    }
    Ordering::Equal
}

/// How the values at one place of two lists stand to one another by a key. A value that a list lacks counts as NULL.
fn compare_at(key: IndexKey, a: &[Value], b: &[Value], place: usize) -> Ordering
    ensures { result ≡ key_order key (slice_index_or a.now place Null) (slice_index_or b.now place Null) }
{
    let null = Value::Null;
    let one = a.get(place).unwrap_or(&null);
    let other = b.get(place).unwrap_or(&null);
    key.compare(one, other)
}
