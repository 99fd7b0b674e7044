//! An order of all values, for groups and sorts that are given no type.

ghost use Rattle.std.specs.Prelude.{◌≡◌};
ghost use Rattle.pg_value.specs.Kinds.{kind_order, kind_place};

use crate::value::Value;
use std::cmp::Ordering;

/// How two values of any kind stand to one another: NULL, whole numbers, truth values and texts in this order, and two of one
/// kind by its default family. Two are equal exactly where they are the same.
pub fn kind_order(a: &Value, b: &Value) -> Ordering
    ensures { result ≡ kind_order a.now b.now }
{
    match (a, b) {
        (Value::Int(x), Value::Int(y)) => x.cmp(y),
        (Value::Bool(x), Value::Bool(y)) => x.cmp(y),
        (Value::Text(x), Value::Text(y)) => x.items().cmp(y.items()),
        _ => kind_place(a).cmp(&kind_place(b)),
    }
}

/// The place of a value's kind among the kinds.
fn kind_place(v: &Value) -> u8
    ensures { result ≡ kind_place v.now }
{
    match v {
        Value::Null => 0,
        Value::Int(_) => 1,
        Value::Bool(_) => 2,
        Value::Text(_) => 3,
    }
}
