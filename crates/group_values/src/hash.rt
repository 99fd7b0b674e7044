//! Hashes of lists of keys: the same keys have the same.

ghost use Rattle.std.specs.Prelude.{◌≡◌};
ghost use Rattle.std.specs.List.{fold};
ghost use Rattle.std.specs.Hash.FoldHasher.{write};
ghost use Rattle.group_values.specs.work.Hash.{fed, hash_of};

use pg_value::Value;
use std::hash::{FoldHasher, Hasher};

/// The hash of a list of keys, NULL among them.
pub(crate) fn hash_keys(keys: &[Value]) -> u64
    ensures { result ≡ hash_of keys.now }
{
    let mut state = FoldHasher::default();
    for key in keys {
        feed(&mut state, key);
    }
    state.finish()
}

/// Feeds a value to the hasher: its kind, and what it holds.
fn feed(state: &mut FoldHasher, value: &Value)
    ensures { state.new ≡ fold write state.old (fed value.now) }
{
    match value {
        Value::Null => state.write_u8(0),
        Value::Int(n) => {
            state.write_u8(1);
            state.write_i64(*n);
        }
        Value::Bool(b) => {
            state.write_u8(2);
            state.write_u8(u8::from(*b));
        }
        Value::Text(text) => {
            state.write_u8(3);
            state.write_usize(text.items().len());
            state.write(text.items());
        }
    }
}
